// Decoding of single bytes: the same answer as `octet`'s, by the same table, eight entries to a number, which say too whether
// the byte is an image. An array constant is laid out in memory anew at each use; a `match` on numbers becomes one load. A loop
// over many bytes takes the table itself, `octet::decodings`.
ghost use Rattle.std.specs.Prelude.{◌≡◌, ◌*◌, ◌<◌};
ghost use Rattle.octet.specs.Decoding.{nib};
ghost use Rattle.octet.specs.Hearing.{mark as hearing_mark};
ghost use Rattle.octet.specs.Packing.{packed};

// The nibble that a protected byte decodes to, 0 to 15, or 16 where it can't be decoded.
// Kept: 16 is the number of the definition `nib`, and what is summed over many bytes is numbers.
pub fn decode(b: u8) -> u8
    ensures { result ≡ nib b }
{
    mark(b) % 32
}

// The same, and 32 more where the byte isn't the image of its nibble.
pub fn mark(b: u8) -> u8
    ensures { result ≡ hearing_mark b }
{
    ((eight_marks(b / 8) >> (8 * (b % 8))) % 256) as u8
}

// The marks of the eight bytes from 8 i on, the first lowest.
// Kept: a `match` on numbers becomes one load; an array would be laid out in memory at each call.
fn eight_marks(i: u8) -> u64
    requires { i < 32 }
    ensures { result ≡ packed hearing_mark (8 * i) 8 }
{
    match i {
        0 => 0x3021203021013021,
        1 => 0x2730302A30212230,
        2 => 0x2030002030212030,
        3 => 0x302320302B303026,
        4 => 0x2730302430212C30,
        5 => 0x0727273027303026,
        6 => 0x302D203025303026,
        7 => 0x2730302630262606,
        8 => 0x2930302430212230,
        9 => 0x3023223022300222,
        10 => 0x3023203025303028,
        11 => 0x2303302330232230,
        12 => 0x3024240425303024,
        13 => 0x27303024302F2230,
        14 => 0x2530302405252530,
        15 => 0x30232E3025303026,
        16 => 0x2930302A30212C30,
        17 => 0x302A2A0A2B30302A,
        18 => 0x302D20302B303028,
        19 => 0x2B30302A0B2B2B30,
        20 => 0x302D2C302C300C2C,
        21 => 0x2730302A302F2C30,
        22 => 0x2D0D302D302D2C30,
        23 => 0x302D2E302B303026,
        24 => 0x0929293029303028,
        25 => 0x2930302A302F2230,
        26 => 0x2930302830282808,
        27 => 0x30232E302B303028,
        28 => 0x29303024302F2C30,
        29 => 0x302F2E302F0F302F,
        30 => 0x302D2E3025303028,
        _ => 0x2E300E2E302F2E30,
    }
}
