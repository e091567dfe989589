// What the programs tell and write, once for all of them. A line on standard error that tells of a failure begins with the program's
// name. Every write to standard output is looked at: the first that doesn't take all is told, and the caller stops.
#![tactic(auto)]

mod console;
pub mod failures;
pub mod names;
mod opening;

ghost use Rattle.std.specs.Prelude.{◌≡◌};
ghost use Rattle.io.specs.Counts.{IsPrefixLen};
ghost use Rattle.told.specs.Fronts.{front_of};

pub use console::Console;
pub use names::plain;
pub use opening::{open, path};
use std::env::{Env, FillError};
use std::io::{Error, Print, Result};

// The version of every program.
pub const VERSION: [u8; 5] = *b"0.9.0";

// The first n bytes; nothing where there are fewer.
pub fn front(s: &[u8], n: usize) -> &[u8]
    ensures { result.now ≡ front_of n s.now }
{
    s.get(..n).unwrap_or(&[])
}

// Puts an argument of the command line at the start of a buffer, and answers how long it is. One that is too long for the buffer is its
// first bytes, which no option is and no file's name.
pub fn argument(rt: &impl Env, i: usize, word: &mut [u8]) -> usize
    ensures { IsPrefixLen result word.new }
{
    match rt.arg(i, word) {
        Ok(n) => n,
        Err(FillError::TooLong) => word.len(),
        Err(FillError::NotPresent) => 0,
    }
}

// How many arguments the program was started with, its own name among them.
pub fn argument_count(rt: &impl Env) -> usize {
    for i in 0..usize::MAX {
        if let Err(FillError::NotPresent) = rt.arg(i, &mut []) {
            return i;
        }
    }
    usize::MAX
}

// Tells of a call that failed on what is named: a line on standard error with the program's name in front and the error's text behind.
pub fn tell(rt: &impl Console, program: &[u8], name: &[u8], error: Error) {
    begin(rt, program);
    fail(rt, name, error);
}

// Says the rest of a line that tells of a call that failed: what failed, a colon and the error's text.
pub fn fail(rt: &impl Console, what: &[u8], error: Error) {
    let mut text = [0u8; failures::LONGEST];
    let n = failures::put(error, &mut text);
    say(rt, what);
    say(rt, b": ");
    say(rt, &text[..n]);
    say(rt, b"\n");
}

// Tells that the reader took nothing of a capture, which never comes (captures::Came).
pub fn tell_stuck(rt: &impl Console, program: &[u8], name: &[u8]) {
    begin(rt, program);
    say(rt, name);
    say(rt, b": the reader took nothing; nothing more is read\n");
}

// Begins a line on standard error that tells of a failure.
pub fn begin(rt: &impl Console, program: &[u8]) {
    say(rt, program);
    say(rt, b": ");
}

// Says a part of a line on standard error, and answers whether it was taken. Where it wasn't, there is nobody to tell.
pub fn say(rt: &impl Console, text: &[u8]) -> bool {
    let mut rest = text;
    // Kept: each turn goes on by what was taken, which is no count.
    while !rest.is_empty() {
        match rt.tell_some(rest) {
            Ok(0) | Err(_) => return false,
            Ok(n) => rest = &rest[n..],
        }
    }
    true
}

pub fn say_number(rt: &impl Console, number: u64) -> bool {
    let mut text = [0u8; 20];
    let n = io::decimal(number, &mut text);
    say(rt, &text[..n])
}

// Says so many hex digits, or more where the number has more.
pub fn say_hex(rt: &impl Console, number: u64, digits: usize) -> bool {
    let mut text = [0u8; 16];
    let n = io::hex(number, digits, &mut text);
    say(rt, &text[..n])
}

// Says a number after its name. A part that isn't taken ends it.
pub fn say_count(rt: &impl Console, name: &[u8], count: u64) -> bool {
    say(rt, name) && say_number(rt, count)
}

// Writes all to standard output, or stops at the first write that takes nothing or fails.
pub fn write(rt: &impl Print, bytes: &[u8]) -> Result<()> {
    let mut rest = bytes;
    // Kept: each turn goes on by what was taken, which is no count.
    while !rest.is_empty() {
        let n = rt.write_some(rest)?;
        if n == 0 {
            return Err(failures::none());
        }
        rest = &rest[n..];
    }
    Ok(())
}

// Writes to standard output, and answers whether it took all. A failure is told.
pub fn put(rt: &impl Console, program: &[u8], bytes: &[u8]) -> bool {
    match write(rt, bytes) {
        Ok(()) => true,
        Err(e) => {
            tell(rt, program, b"standard output", e);
            false
        }
    }
}

// Writes a number after its name. A part that isn't taken ends it.
pub fn put_count(rt: &impl Console, program: &[u8], name: &[u8], count: u64) -> bool {
    if !put(rt, program, name) {
        return false;
    }
    let mut text = [0u8; 20];
    let n = io::decimal(count, &mut text);
    put(rt, program, &text[..n])
}

// The line above what is written of a file.
pub fn put_title(rt: &impl Console, program: &[u8], name: &[u8]) -> bool {
    put(rt, program, b"file=") && put(rt, program, name) && put(rt, program, b"\n")
}

// The line that `--version` asks for.
pub fn put_version(rt: &impl Console, program: &[u8]) -> bool {
    put(rt, program, program)
        && put(rt, program, b" ")
        && put(rt, program, &VERSION)
        && put(rt, program, b"\n")
}
