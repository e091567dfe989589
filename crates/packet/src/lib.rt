// A packet of the guide page, and the setting that says which page, stream and application are ours. That of two streams is module `two`.
#![tactic(auto)]

pub mod two;

ghost use Rattle.std.specs.Prelude.{◌≡◌};
ghost use Rattle.packet.specs.Setting.{in_range};
ghost use Rattle.packet.specs.Address.{address_of, elsewhere};

// Which page and stream carry the guide, and which application its blocks are of. In range are
// magazines from 1 to 8, any page, streams up to 15 and applications up to 31 (SCOPE 8.1).
#[derive(Clone, Copy)]
pub struct Setting {
    pub magazine: u8,
    pub page: u8,
    pub stream: u8,
    pub application: u8,
}

// The bytes of a packet.
pub const PACKET: usize = 42;

// Whether a setting is in range.
pub fn is_in_range(s: Setting) -> bool
    ensures { result ≡ in_range s }
{
    // Kept: the early returns, a proof a rule; as one chain of `&&` the joins have no names and three goals stayed open.
    if s.magazine < 1 {
        return false;
    }
    if s.magazine > 8 {
        return false;
    }
    if s.stream > 15 {
        return false;
    }
    s.application <= 31
}

// A packet's address: the magazine modulo 8, and Y times 8; 256 where there is none that can be decoded.
// Kept: 256 and, of a byte, 16 are the numbers of the definitions `address_of` and `nib`.
pub fn address(packet: &[u8]) -> usize
    ensures { result ≡ address_of packet.now }
{
    if packet.len() < 2 {
        return 256;
    }
    let one = octet::quick::decode(packet[0]);
    if one == 16 {
        return 256;
    }
    let two = octet::quick::decode(packet[1]);
    if two == 16 {
        return 256;
    }
    one as usize + 16 * two as usize
}

// Whether an address is another magazine's: such a packet leaves a reader as it was, so that no state has to be handed on.
pub fn passes_by(setting: Setting, address: usize) -> bool
    ensures { result ≡ elsewhere setting address }
{
    address <= 255 && address % 8 != (setting.magazine % 8) as usize
}
