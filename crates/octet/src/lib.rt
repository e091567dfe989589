// One byte: the protected nibble of EN 300 706, and the turning of bits. Every public function takes
// any byte and answers; nothing is kept between calls.
//
// SCOPE 5: from the lowest up, the bits are P1 D1 P2 D2 P3 D3 P4 D4. The definitions are in specs/, the
// laws that other rooms cite in proofs/Laws.antt; those of flipped bits stand where noise is spoken of, in
// claims. The place of a fault, by the parity checks, is module `faults`; the same decoding without a
// table in memory is module `quick`.
#![tactic(auto)]

pub mod faults;
pub mod quick;

ghost use Rattle.std.specs.Prelude.{◌≡◌, reverse, ◌<◌};
ghost use Rattle.laws.specs.Range.{tabulate};
ghost use Rattle.octet.specs.Bits.{bits, number};
ghost use Rattle.octet.specs.Image.{image as image_image};
ghost use Rattle.octet.specs.Decoding.{nib};
ghost use Rattle.octet.specs.Hearing.{hearing};
ghost use Rattle.octet.specs.Turning.{turned};

pub use faults::fault_place;

// The images of the nibbles from 0 on (SCOPE 5.2).
const CODE: [u8; 16] = [
    0x15, 0x02, 0x49, 0x5E, 0x64, 0x73, 0x38, 0x2F, 0xD0, 0xC7, 0x8C, 0x9B, 0xA1, 0xB6, 0xFD, 0xEA,
];

// What each byte decodes to, the images marked; 16: it can't be (SCOPE 5.4).
const DECODE: [u8; 256] = [
    1, 16, 1, // 02
    1, 16, 0, 1, 16, 16, 2, 1, 16, 10, 16, 16, 7, 16, 0, 1, 16, 0, 0, // 15
    16, 0, 6, 16, 16, 11, 16, 0, 3, 16, 16, 12, 1, 16, 4, 16, 16, 7, 6, 16, 16, 7, 16, 7, 7, 7, // 2F
    6, 16, 16, 5, 16, 0, 13, 16, 6, // 38
    6, 6, 16, 6, 16, 16, 7, 16, 2, 1, 16, 4, 16, 16, 9, 2, 2, // 49
    16, 2, 16, 2, 3, 16, 8, 16, 16, 5, 16, 0, 3, 16, 16, 2, 3, 16, 3, 16, 3, // 5E
    3, 4, 16, 16, 5, 4, // 64
    4, 4, 16, 16, 2, 15, 16, 4, 16, 16, 7, 16, 5, 5, 5, // 73
    4, 16, 16, 5, 6, 16, 16, 5, 16, 14, 3, 16, 16, 12, 1, 16, 10, 16, 16, 9, 10, 16, 16, 11, 10, // 8C
    10, 10, 16, 8, 16, 16, 11, 16, 0, 13, 16, 16, 11, 11, 11, // 9B
    10, 16, 16, 11, 12, 12, // A1
    16, 12, 16, 12, 13, 16, 16, 12, 15, 16, 10, 16, 16, 7, 16, 12, 13, 16, 13, 16, 13, // B6
    13, 6, 16, 16, 11, 16, 14, 13, 16, 8, 16, 16, 9, 16, 9, 9, 9, // C7
    16, 2, 15, 16, 10, 16, 16, 9, 8, // D0
    8, 8, 16, 8, 16, 16, 9, 8, 16, 16, 11, 16, 14, 3, 16, 16, 12, 15, 16, 4, 16, 16, 9, 15, 16, 15, // EA
    15, 16, 14, 15, 16, 8, 16, 16, 5, 16, 14, 13, 16, 16, 14, 15, 16, 14, 14, // FD
    16, 14,
];

// The image of a nibble. Above 15 it is that of n modulo 16.
pub fn image(n: u8) -> u8
    ensures { result ≡ image_image n }
{
    CODE[(n % 16) as usize]
}

// The table itself: what each byte decodes to. A loop over many bytes takes it before it starts, so that
// it is laid out once, and then a byte is one load.
pub fn decodings() -> [u8; 256]
    ensures { result ≡ tabulate nib 0 256 }
{
    DECODE
}

// The nibble that b stands for, 0 to 15: b is its image or one bit away from it. 16 where b can't be
// decoded.
// Kept: 16 is the number of the definition `nib` and of the C interface, not a None.
pub fn decode(b: u8) -> u8
    ensures { result ≡ nib b }
{
    DECODE[b as usize]
}

// How a byte was heard, with the nibble that it decodes to (SCOPE 19.2).
#[derive(Drop)]
pub enum Heard {
    // It is the image of its nibble.
    Image(u8),
    // It is one bit away from it, and was mended.
    Mended(u8),
    // It can't be decoded.
    Neither,
}

// How b was heard: what `decode` says of it, and whether it had to be mended. Its image is compared with
// it; there is no table for this.
pub fn hear(b: u8) -> Heard
    ensures { result ≡ hearing b }
{
    let n = decode(b);
    if n == 16 {
        Heard::Neither
    } else if b == image(n) {
        Heard::Image(n)
    } else {
        Heard::Mended(n)
    }
}

// b with its bits in the other order: bit i goes to bit 7 - i. The halves are exchanged, in each half its
// pairs, in each pair its neighbours.
// Kept: SCOPE 21.1 says that the turning goes in these three steps; `reverse_bits` goes a bit at a time.
pub fn turn(b: u8) -> u8
    ensures { result ≡ turned b }
{
    half(b) * 16 + half(b / 16)
}

// The four lowest bits in the other order: the pairs are exchanged.
fn half(b: u8) -> u8
    ensures value { result ≡ number (reverse (bits 4 b)) }
    ensures upper_bound { result < 16 }
{
    pair(b) * 4 + pair(b / 4)
}

// The two lowest bits in the other order: the neighbours are exchanged.
fn pair(b: u8) -> u8
    ensures value { result ≡ number (reverse (bits 2 b)) }
    ensures upper_bound { result < 4 }
{
    b % 2 * 2 + b / 2 % 2
}
