// One piece of an input.
ghost use Rattle.std.specs.Prelude.{true, pos, ◌≡◌, length};
ghost use Rattle.std.specs.IoError.{raw_os_error};
ghost use Rattle.captures.specs.Reading.{fits_in};

use std::io::{Error, Read};

// What was read: so many bytes, fewer than asked for only where the input ended.
#[derive(Clone, Copy)]
pub enum Got {
    Bytes(usize),
    Failed,
}

// What is read from, and why the last read that failed did.
#[derive(Drop)]
pub struct Source<R> {
    pub from: R,
    pub why: Error,
}

impl<R: Read> Source<R> {
    // One of which nothing is read yet.
    pub fn new(from: R) -> Source<R>
        ensures from_value { result.from ≡ from }
        ensures why_value { raw_os_error result.why ≡ Some (pos 0) }
    {
        Source {
            from,
            why: told::failures::none(),
        }
    }
}

// Reads until the slice is full, the input ends or a read fails.
pub fn fill<R: Read>(source: &mut Source<R>, slice: &mut [u8]) -> Got
    ensures { fits_in result (length slice.old) ≡ true }
{
    let mut n = 0;
    // Kept: a step is no count: it goes on by as many bytes as were read.
    while n < slice.len() {
        match source.from.read(&mut slice[n..]) {
            Ok(0) => return Got::Bytes(n),
            Ok(more) => n += more,
            Err(e) => {
                source.why = e;
                return Got::Failed;
            }
        }
    }
    Got::Bytes(n)
}
