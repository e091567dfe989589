// Blocks as they go between the calls: a record has a block's 16 bits in two bytes, the low one first, its part (SCOPE 19.3),
// a second byte (SCOPE 26.1), and its raw bytes (SCOPE 10.3). The reader hands out records, one after the other; the writer and block reading take them. Nothing here knows what a block holds.
#![tactic(auto)]

pub mod frames;
pub mod sums;

ghost use Rattle.std.specs.Prelude.{◌≡◌, ◌+◌, ◌-◌, ◌≤◌, min};
ghost use Rattle.std.proofs.lemmas.List.Edits.{sets};
ghost use Rattle.blocks.specs.Block.{second_of};
ghost use Rattle.blocks.specs.Place.{found_at, after_at};
ghost use Rattle.blocks.specs.Sealing.{head_bytes, sealed};

use answer::Refusal;

// How many bytes of a record stand before its raw bytes.
pub const HEAD: usize = 4;

// What stands at a place of a list of records.
#[derive(Clone, Copy)]
pub enum Found {
    // The list ends there.
    End,
    // A whole record, the bytes from that place up to next: its 16 bits, and the place of its raw
    // bytes, which go up to next.
    Record { head: u16, raw: usize, next: usize },
    // Something else: what is left isn't a whole record, or the place is past the end.
    Broken,
}

// A block that was read: so many bytes, the form of what the block holds, stand at the front of the output, and the rest of it
// is as before; and so many of the block's bytes were mended.
#[derive(Drop)]
pub struct Taken {
    pub written: usize,
    pub mended: u16,
}

// What reading a block answers.
pub type Read = Result<Taken, Refusal>;

// What stands at a place of a list of records. To walk a list, start at 0 and go on at each next.
pub fn record_at(records: &[u8], place: usize) -> Found
    ensures { result ≡ found_at records.now place }
{
    if place == records.len() {
        return Found::End;
    }
    if records.len() < place {
        return Found::Broken;
    }
    let left = records.len() - place;
    if left < HEAD {
        return Found::Broken;
    }
    let low = records[place] as u16;
    let high = records[place + 1] as u16;
    let head = low + 256 * high;
    let size = (head / 32) as usize;
    if left - HEAD < size {
        return Found::Broken;
    }
    let raw = place + HEAD;
    Found::Record {
        head,
        raw,
        next: raw + size,
    }
}

// The second byte of a record: 1 where the block's bytes span pages as the reader met them. 0 where the record hasn't so many bytes.
pub fn second_of(rec: &[u8]) -> u8
    ensures { result ≡ second_of rec.now }
{
    if rec.len() < HEAD { 0 } else { rec[3] }
}

// The place after the record that stands at a place, or the end of the list where none does. To walk a list of anything,
// start at 0 and go on there: each turn takes a whole record, and the last one what is left.
pub fn after(records: &[u8], place: usize) -> usize
    ensures { result ≡ after_at records.now place }
{
    match record_at(records, place) {
        Found::Record { next, .. } => next,
        Found::End | Found::Broken => records.len(),
    }
}

// A record's head, to the front of `out`: a block's 16 bits, then a part and a second byte of 0, since what is written was not mended and spans
// no pages (SCOPE 19.3, 26.1). What has no room is left out.
pub fn put_head(head: usize, out: &mut [u8])
    ensures { out.new ≡ sets out.old 0 (head_bytes head) }
{
    lent_bytes::put((head % 256) as u8, out, 0);
    lent_bytes::put((head / 256 % 256) as u8, out, 1);
    lent_bytes::put(0, out, 2);
    lent_bytes::put(0, out, 3);
}

// Puts the checksum into the record at the front of `out`, whose checksum is 0 and whose control data is so many raw bytes. What has no
// room is left out.
pub fn seal(head: usize, control: usize, out: &mut [u8])
    ensures { out.new ≡ sealed head control out.old }
{
    if out.len() < HEAD {
        return;
    }
    let end = control_end(control, out.len());
    let sum = sums::checksum(head, &out[HEAD..end]);
    lent_bytes::put(octet::image((sum % 16) as u8), out, HEAD);
    lent_bytes::put(octet::image((sum / 16 % 16) as u8), out, HEAD + 1);
}

// Where so many raw bytes of a record end that is so long.
fn control_end(control: usize, long: usize) -> usize
    requires { 4 ≤ long }
    ensures { result ≡ 4 + min control (long - 4) }
{
    HEAD + control.min(long - HEAD)
}
