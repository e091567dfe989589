// The symbols of the writer's stream, one at a time: where the writer stands among the records, what
// it sends there, and where it stands then.
//
// A block goes in whole cells of three symbols: its start, its 16 bits in four nibbles, its raw bytes,
// then filler.
#![tactic(auto)]

pub mod cells;

ghost use Rattle.std.specs.Prelude.{◌≡◌, ◌+◌, ◌/◌, ◌^◌, ◌≤◌, ◌<◌, length, get_or};
ghost use Rattle.symbols.specs.Stream.{fill, byte_of, cells_of};
ghost use Rattle.symbols.specs.Pen.{moved_of, filler_at, sent_of};
ghost use Rattle.symbols.specs.Internal.{nibble_of, block_at};

use blocks::Found;
use cells::LEAD;
pub use cells::{CELL, cells_of, first};

const START: u8 = 12;

const FILLER: u8 = 3;

// Where the writer stands: at which record, and how many of its symbols are sent.
#[derive(Drop)]
pub struct Pen {
    pub at: usize,
    pub sent: usize,
}

// A symbol as it is sent: its byte, whether it is a block's start, and where the writer stands then.
#[derive(Drop)]
pub struct Sent {
    pub byte: u8,
    pub starts: bool,
    pub pen: Pen,
}

// The symbol that stands at the pen, and the pen behind it: filler where there is no whole record.
// Past a record's symbols the pen goes on at the next record.
pub fn step(records: &[u8], pen: Pen) -> Sent
    ensures { result ≡ sent_of records.now pen }
{
    let sent = pen.sent;
    match blocks::record_at(records, pen.at) {
        Found::Record { head, raw, next } => Sent {
            byte: byte_at(records, head, raw, next, sent),
            starts: sent == 0,
            pen: moved(pen, next - raw, next),
        },
        Found::End => filler(pen),
        Found::Broken => filler(pen),
    }
}

// Filler, with the pen where it is.
fn filler(pen: Pen) -> Sent
    ensures { result ≡ filler_at pen }
{
    Sent {
        byte: octet::image(FILLER),
        starts: false,
        pen,
    }
}

// The byte of a block's symbol i: its start, its 16 bits, its raw bytes, then filler.
fn byte_at(records: &[u8], head: u16, raw: usize, next: usize, i: usize) -> u8
    requires { (raw ≤ next) × (next ≤ length records.now) }
    ensures { result ≡ byte_of (get_or (cells_of (block_at records.now head raw next)) i fill) }
{
    if i == 0 {
        return octet::image(START);
    }
    if i < LEAD {
        return octet::image(nibble(head, i - 1));
    }
    let at = i - LEAD;
    if at < next - raw {
        return records[raw + at];
    }
    octet::image(FILLER)
}

// Nibble i of a block's 16 bits, the lowest first.
fn nibble(head: u16, i: usize) -> u8
    requires { i < 4 }
    ensures { result ≡ nibble_of i head }
{
    match i {
        0 => (head % 16) as u8,
        1 => (head / 16 % 16) as u8,
        2 => (head / 16 / 16 % 16) as u8,
        _ => (head / 16 / 16 / 16 % 16) as u8,
    }
}

// The pen behind one more symbol of a block of so many raw bytes, whose next record is at next.
fn moved(pen: Pen, size: usize, next: usize) -> Pen
    requires { size < 2 ^ 63 }
    ensures { result ≡ moved_of pen size next }
{
    if pen.sent < cells::cells_of(size) * CELL - 1 {
        Pen {
            at: pen.at,
            sent: pen.sent + 1,
        }
    } else {
        Pen { at: next, sent: 0 }
    }
}
