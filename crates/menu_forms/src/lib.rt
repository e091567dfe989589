// Menus as values and as their form (SCOPE 23). The definitions are in specs/, and the laws that other crates cite in proofs/.
#![tactic(auto)]

ghost use Rattle.std.specs.Prelude.{◌≡◌, ◌≤◌};
ghost use Rattle.menu_forms.specs.Menus.{info_bytes};

// The bytes of a form before its descriptors.
pub const OPENING: usize = 9;

// The datatype_id of a menu.
pub const NI: usize = 3;

// Table 41: the bytes of the information that an attribute of this kind has.
#[tactic(auto, unfolding(crate::specs::Menus::info_bytes))]
pub fn info_bytes(kind: usize) -> usize
    ensures { (result ≡ info_bytes kind) × (1 ≤ result) × (result ≤ 4) }
{
    match kind {
        0x00..=0x7f => 1,
        0x80..=0xbf => 2,
        0xc0..=0xdf => 3,
        _ => 4,
    }
}
