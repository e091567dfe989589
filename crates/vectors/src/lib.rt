// What the programs try_NAME read from standard input, in large pieces: cases, one after the other (module `cases`). The
// output that a call is lent is module `lent`, the line that answers a case module `lines`.
//
// A program lends all memory: 131,200 bytes for the input, of which a case takes up to 65,545, and
// 65,536 for the output. In each turn it calls `turn`, and for a case `cases::payload`, `lent::lend`, the
// call that op names, and `lines::tell`.
#![tactic(auto)]

pub mod cases;
pub mod lent;
pub mod lines;
mod words;

ghost use Rattle.std.specs.Prelude.{false, ◌≡◌, ◌+◌, ◌≤◌, length};
ghost use Rattle.io.specs.Counts.{IsPrefixLen};
ghost use Rattle.vectors.specs.Cases.{Within, Turned};

use cases::HEAD;
pub use cases::{Case, Input, MOST, payload};
pub use lent::lend;
pub use lines::{Line, tell};
use std::io::{Print, Read};

// The bytes that a program lends for the input, and for a line.
pub const SPACE: usize = 131200;

// Before the first turn: nothing is read.
pub fn start() -> Input
    ensures { (result.from ≡ 0) × (result.to ≡ 0) × (result.ended ≡ false) }
{
    Input {
        from: 0,
        to: 0,
        ended: false,
    }
}

// One turn: the next case, read where it isn't there yet; or how many bytes are left over at the end, which are told.
pub fn turn<R: std::io::Input + Print>(
    rt: &R,
    input: Input,
    space: &mut [u8; SPACE],
    text: &mut [u8; SPACE],
) -> Result<Case, usize>
    ensures { Turned space.new result }
{
    let read = fill(rt, input, space);
    let found = cases::next(read, space);
    if let Err(left) = found
        && left > 0
    {
        lines::tell(rt, Line::Short(left), &[], text);
    }
    found
}

// Reads on where a case might not stand whole in the space: the unread bytes go to its front, and
// standard input fills it up. What is unread then lies within the space.
fn fill<R: std::io::Input>(rt: &R, input: Input, space: &mut [u8]) -> Input
    ensures { Within result space.new }
{
    let Input { from, to, ended } = input;
    if to < from || space.len() < to {
        return start();
    }
    let held = to - from;
    if ended || HEAD + MOST <= held {
        return input;
    }
    space.copy_within(from..to, 0);
    let got = read_full(&mut rt.reader(), &mut space[held..]);
    Input {
        from: 0,
        to: held + got,
        ended: held + got < space.len(),
    }
}

// Reads until the buffer is full, the input ends or a read fails, and answers how many bytes were put at its front.
fn read_full(from: &mut impl Read, buf: &mut [u8]) -> usize
    ensures { IsPrefixLen result buf.new }
{
    let mut done = 0;
    // Kept: each turn goes on by what was read, which is no count.
    while done < buf.len() {
        match from.read(&mut buf[done..]) {
            Ok(0) => return done,
            Ok(n) => done += n,
            Err(_) => return done,
        }
    }
    done
}
