// What is told of a file. A line on standard error that tells of a failure begins `sheet: `, and one that doesn't `note: `.
use std::io::Error;
use told::{Console, say};

// The program that keeps the sheet.
const PROGRAM: [u8; 5] = *b"sheet";

// Tells of a call that failed on what is named, and what follows from it.
pub fn fail(rt: &impl Console, name: &[u8], what: &[u8], why: Error) {
    told::begin(rt, &PROGRAM);
    say(rt, name);
    say(rt, b": ");
    told::fail(rt, what, why);
}

// Tells of what is named that it can't be so, where no call failed.
pub fn tell(rt: &impl Console, name: &[u8], what: &[u8]) {
    told::begin(rt, &PROGRAM);
    say(rt, name);
    say(rt, b": ");
    say(rt, what);
    say(rt, b"\n");
}

// The new sheet stands, and may not after a power cut.
pub(crate) fn note_unsynced(rt: &impl Console, name: &[u8], why: Error) {
    say(rt, b"note: ");
    say(rt, name);
    say(rt, b": ");
    told::fail(
        rt,
        b"the new sheet stands, but its folder can't be synced",
        why,
    );
}
