// Which pages came: the packets 0 of any magazine.
ghost use Rattle.std.specs.Prelude.{◌≡◌, ltb};
ghost use Rattle.laws.specs.Pick.{both};
ghost use Rattle.survey.specs.Pages.{stands_at, code_of, noted};

use packet::PACKET;

// No page.
pub const NO_PAGE: u16 = 0x8000;

// The page of a packet 0 is put at the first place of the list that has no page yet, unless the list has it or is full. A packet that is no
// packet 0, or whose page and stream can't be read, changes nothing.
pub fn note(pages: &mut [u16], packet: &[u8])
    ensures { pages.new ≡ noted (code_of packet.now) pages.old }
{
    let code = code(packet);
    for place in pages.iter_mut() {
        if is_place(*place, code) {
            *place = code;
            return;
        }
    }
}

// Whether a page may stand at a place of the list: there it stands already, or none does.
fn is_place(there: u16, code: u16) -> bool
    ensures { result ≡ stands_at code there }
{
    there == code || there == NO_PAGE
}

// The page of a packet 0 as one number: its stream, its units and tens, and its magazine, where 8 is 0, four bits each.
fn code(packet: &[u8]) -> u16
    ensures { result ≡ code_of packet.now }
{
    if packet.len() != PACKET {
        return NO_PAGE;
    }
    let address = packet::address(packet);
    if address > 7 {
        return NO_PAGE;
    }
    let units = octet::quick::decode(packet[2]);
    let tens = octet::quick::decode(packet[3]);
    let stream = octet::quick::decode(packet[6]);
    if !are_nibbles(units, tens, stream) {
        return NO_PAGE;
    }
    stream as u16 + 16 * units as u16 + 256 * tens as u16 + 4096 * address as u16
}

fn are_nibbles(a: u8, b: u8, c: u8) -> bool
    ensures { result ≡ both (ltb a 16) (both (ltb b 16) (ltb c 16)) }
{
    a < 16 && b < 16 && c < 16
}
