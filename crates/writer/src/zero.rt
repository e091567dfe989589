// What the writer puts before a page's packets and before each of them: packet 0, and a packet's address.
ghost use Rattle.std.specs.Prelude.{◌≡◌, map, ◌+◌, ◌≤◌, leb, length, replicate};
ghost use Rattle.std.proofs.lemmas.List.Edits.{sets};
ghost use Rattle.laws.specs.Pick.{pick};
ghost use Rattle.octet.specs.Image.{image};
ghost use Rattle.packet.specs.Packet.{packet_length, address, packet_zero};

use packet::{PACKET, Setting};

// An address, and all protected bytes of packet 0.
const ADDRESS: usize = 2;

const NIBBLES: usize = 10;

// Packet 0's characters.
const CHARACTERS: usize = 32;

const BLANK: u8 = 0x20;

// Writes packet 0 of a page of n packets at q. Where it has no room, nothing is written.
pub(crate) fn write_zero(s: Setting, index: u8, n: u8, out: &mut [u8], q: usize)
    ensures { out.new ≡ pick (leb (q + packet_length) (length out.old)) (sets out.old q (packet_zero s index n)) out.old }
{
    if out.len() < q {
        return;
    }
    if out.len() - q < PACKET {
        return;
    }
    let nibbles = [
        s.magazine % 8,
        0,
        s.page % 16,
        s.page / 16,
        index,
        n % 8,
        s.stream,
        n / 8,
        0,
        0,
    ];
    write_images(&nibbles, out, q);
    write_blanks(out, q + NIBBLES);
}

// Writes the address of packet y at q. Where it has no room, nothing is written.
pub(crate) fn write_address(magazine: u8, y: u8, out: &mut [u8], q: usize)
    ensures { out.new ≡ pick (leb (q + 2) (length out.old)) (sets out.old q (address magazine y)) out.old }
{
    if out.len() < q {
        return;
    }
    if out.len() - q < ADDRESS {
        return;
    }
    let nibbles = [magazine % 8 + 8 * (y % 2), y / 2];
    write_images(&nibbles, out, q);
}

// Writes the images of nibbles at q.
fn write_images(nibbles: &[u8], out: &mut [u8], q: usize)
    requires { q + length nibbles.now ≤ length out.old }
    ensures { out.new ≡ sets out.old q (map image nibbles.now) }
{
    for (i, n) in nibbles.iter().enumerate() {
        out[q + i] = octet::image(*n);
    }
}

// Writes packet 0's 32 characters at q, all blank.
fn write_blanks(out: &mut [u8], q: usize)
    requires { q + 32 ≤ length out.old }
    ensures { out.new ≡ sets out.old q (replicate 32 0x20) }
{
    out[q..q + CHARACTERS].fill(BLANK);
}
