// A block's protected bytes: which of them can be decoded, how many were mended, and the checksum over them.
ghost use Rattle.std.specs.Prelude.{◌≡◌, map, ◌+◌, ◌<◌, ◌≤◌, eqb, length};
ghost use Rattle.laws.specs.Pick.{pick};
ghost use Rattle.octet.specs.Decoding.{nib};
ghost use Rattle.octet.specs.Hearing.{harm, harms};
ghost use Rattle.fields.specs.Fields.{parts};
ghost use Rattle.blocks.specs.Sums.{total, checksum as checksum_of, sound as sound_of};
ghost use Rattle.blocks.specs.Parts.{mended_in};

use crate::HEAD;

// How many bytes' harms are counted at once: a byte holds their number.
const RUN: usize = 240;

// What a block's first two bytes should hold, or 256 where a byte of it can't be decoded. Of a clear night nearly every block has
// images alone, and then nothing is looked up.
// Kept: 256 is the number of the contract's clauses, which `kinds` and `table` cite, and no sum of a block.
pub fn sum_of(head: usize, body: &[u8]) -> usize
    ensures broken { 255 < result → sound_of (map nib body.now) < length body.now }
    ensures whole { result ≤ 255
        → (sound_of (map nib body.now) ≡ length body.now)
        × (result ≡ checksum_of head (map nib body.now)) }
    ensures most { result ≤ 256 }
{
    if is_clean(body) {
        clean_sum(head, body)
    } else {
        mended_sum(head, body)
    }
}

// The checksum of a block whose bytes are all images: no byte ends the loop.
fn clean_sum(head: usize, body: &[u8]) -> usize
    requires { harms body.now ≡ 0 }
    ensures { result ≡ checksum_of head (map nib body.now) }
{
    let mut sum = head_total(head) as u8;
    for i in 2..body.len() {
        sum = sum.wrapping_add(image_nibble(body[i]));
    }
    (256 - sum as usize) % 256
}

// The nibble of an image: every other bit of it.
fn image_nibble(b: u8) -> u8
    requires { harm b ≡ 0 }
    ensures { result ≡ nib b }
{
    b / 2 % 2 + b / 8 % 2 * 2 + b / 32 % 2 * 4 + b / 128 * 8
}

// The sum of any block: `sound` and `checksum` in one pass.
fn mended_sum(head: usize, body: &[u8]) -> usize
    ensures broken { 255 < result → sound_of (map nib body.now) < length body.now }
    ensures whole { result ≤ 255
        → (sound_of (map nib body.now) ≡ length body.now)
        × (result ≡ checksum_of head (map nib body.now)) }
    ensures most { result ≤ 256 }
{
    if body.len() < 2 {
        if sound(body) < body.len() {
            return 256;
        }
        return checksum(head, body);
    }
    if 15 < octet::quick::decode(body[0]) {
        return 256;
    }
    if 15 < octet::quick::decode(body[1]) {
        return 256;
    }
    let table = octet::decodings();
    let mut sum = head_total(head);
    for i in 2..body.len() {
        let n = table[body[i] as usize];
        if 15 < n {
            return 256;
        }
        sum = (sum + n as usize) % 256;
    }
    (256 - sum) % 256
}

// 11.1.2: the checksum of a block with this head, whose first two bytes are the checksum's own.
pub fn checksum(head: usize, body: &[u8]) -> usize
    ensures { result ≡ checksum_of head (map nib body.now) }
{
    let table = octet::decodings();
    let mut total = head_total(head);
    for i in 2..body.len() {
        total = (total + table[body[i] as usize] as usize) % 256;
    }
    (256 - total) % 256
}

// How many bytes come before the first that can't be decoded.
pub fn sound(s: &[u8]) -> usize
    ensures { result ≡ sound_of (map nib s.now) }
{
    let table = octet::decodings();
    for (i, b) in s.iter().enumerate() {
        if 15 < table[*b as usize] {
            return i;
        }
    }
    s.len()
}

// How many bytes of a record's block were mended: its part, and its raw bytes that aren't images.
pub fn mended_in(rec: &[u8]) -> usize
    ensures { result ≡ mended_in rec.now }
{
    let mut count = lent_bytes::byte_at(rec, 2);
    let raw = &rec[HEAD.min(rec.len())..];
    for run in raw.chunks(RUN) {
        count += harms_in(run) as usize;
    }
    count
}

// How many of a few bytes aren't images: no byte ends the loop, and all go by bytes.
fn harms_in(s: &[u8]) -> u8
    requires { length s.now ≤ 255 }
    ensures { result ≡ harms s.now }
{
    let mut count: u8 = 0;
    for b in s {
        count += harm_of(*b);
    }
    count
}

// 0 for an image, else 1.
fn harm_of(b: u8) -> u8
    ensures { (result ≡ harm b) × (result ≤ 1) }
{
    if checks(b) == 0 { 0 } else { 1 }
}

// Whether every byte is an image: the checks of all of them are or-ed, so that no byte ends the loop.
fn is_clean(s: &[u8]) -> bool
    ensures { result ≡ eqb (harms s.now) 0 }
{
    let mut mix: u8 = 0;
    for b in s {
        mix |= checks(*b);
    }
    mix == 0
}

// The four parity checks of a byte at once, each at the place of its parity bit: 0 exactly where all hold,
// which they do for an image.
fn checks(b: u8) -> u8
    ensures { harm b ≡ pick (eqb result 0) 0 1 }
{
    let five = b / 32 + b % 32 * 8;
    let seven = b / 128 + b % 128 * 2;
    ((b ^ (b / 2) ^ five ^ seven) & 0x55) ^ 0x15
}

// The sum of the four nibbles of a head.
fn head_total(head: usize) -> usize
    ensures { (result ≡ total (parts 4 4 head)) × (result < 256) }
{
    head % 16 + head / 16 % 16 + head / 16 / 16 % 16 + head / 16 / 16 / 16 % 16
}
