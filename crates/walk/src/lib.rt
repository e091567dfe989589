// Within a packet: what its pointer says, and what a block's header says. Where a block starts in its bytes, and whether what stands before
// the pointed byte may stand there, is module `starts`; the running block's bytes are the reader's (its module `held`), and the laws
// of the running block in its store are proofs/Keeping and Adding.
#![tactic(auto)]

pub mod starts;

ghost use Rattle.std.specs.Prelude.{◌≡◌, ◌+◌, ◌-◌, ◌≤◌, ◌<◌, length, drop};
ghost use Rattle.octet.specs.Decoding.{nib};
ghost use Rattle.walk.specs.Reading.{pointed_by};
ghost use Rattle.walk.specs.Places.{heads, ahead_in, next_of};

pub use starts::{falls, find};

// The running block: none; its start and so many nibbles of its 16 bits; its 16 bits, and how many
// of its bytes are in the store. The part counts the start and the header bytes so far that weren't
// the image of their nibble.
#[derive(Clone, Copy)]
pub enum Run {
    Idle,
    Head { got: u8, bits: u16, part: u8 },
    Body { head: u16, part: u8, held: usize },
}

// What reading has come to: the running block beside the store, the blocks handed out so far, as how
// many bytes of records, and whether a block was dropped.
#[derive(Clone, Copy)]
pub struct Got {
    pub run: Run,
    pub blocks: usize,
    pub written: usize,
    pub dropped: bool,
}

// A running block that has taken its bytes, and the place past them.
#[derive(Drop)]
pub struct Taken {
    pub run: Run,
    pub next: usize,
}

// What stands ahead where nothing runs: no start; one whose header can't be decoded; one whose header
// goes on in the next packet; its 16 bits and the place past them. The part can be more than a byte
// holds only where it was handed in so.
#[derive(Drop)]
pub enum Ahead {
    Nothing,
    Broken,
    Cut { got: u8, bits: u16, part: u16 },
    Whole { head: u16, part: u16, next: usize },
}

// How many of a packet's 39 bytes stand before the start that its pointer byte points at; 39 where it says that no block starts there, 40
// where it can't be decoded or is no pointer, so that the packet is skipped.
pub fn pointed(b: u8) -> usize
    ensures { result ≡ pointed_by (nib b) }
{
    match octet::quick::decode(b) {
        p @ 0..=12 => 3 * (p as usize),
        13 => 39,
        _ => 40,
    }
}

// A header from `from` on, of which `got` nibbles are in `bits` already, and `part` counts their harmed
// bytes. With four or more it is whole.
pub fn head_on(s: &[u8], from: usize, got: u8, bits: u16, part: u8) -> Ahead
    ensures s_value { heads (4 - got) bits part (drop from s.now) ≡ ahead_in s.now result }
    ensures got_value { next_of result (from + (4 - got)) ≡ from + (4 - got) }
    ensures result_in_bounds { from ≤ length s.now → next_of result 0 ≤ length s.now }
{
    let mut i = from;
    let mut bits = bits;
    let mut part = part as u16;
    for g in got..4 {
        if i >= s.len() {
            return Ahead::Cut { got: g, bits, part };
        }
        let mark = octet::quick::mark(s[i]);
        let n = mark % 32;
        if n == 16 {
            return Ahead::Broken;
        }
        bits = bits / 16 + (n as u16) * 4096;
        part += (mark / 32) as u16;
        i += 1;
    }
    Ahead::Whole {
        head: bits,
        part,
        next: i,
    }
}
