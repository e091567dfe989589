// Application Information as a value and as its form. The definitions are in specs/, and the laws that other crates cite in proofs/.
#![tactic(auto)]

ghost use Rattle.std.specs.Prelude.{◌≡◌, ◌≤◌, min, get_or};

// The datatype_id of Application Information.
pub const AI: usize = 1;

// The bytes of a form before the service's name.
pub const OPENING: usize = 20;

// The bytes of a network in a form, without its name.
pub const NETWORK: usize = 17;

// The widths of the values from epg_version_number on, and those of a network.
pub const OPENING_WIDTHS: [u8; 12] = [6, 6, 16, 16, 16, 16, 16, 16, 8, 8, 5, 1];

pub const NETWORK_WIDTHS: [u8; 13] = [16, 7, 1, 5, 5, 7, 16, 16, 16, 6, 1, 2, 2];

// The widest value of a row.
const WIDEST: usize = 24;

// The width at a place of a row of widths, as far as the bit reader goes.
pub fn width_at(widths: &[u8], i: usize) -> usize
    ensures { (result ≡ min (get_or widths.now i 0) 24) × (result ≤ 24) }
{
    lent_bytes::byte_at(widths, i).min(WIDEST)
}
