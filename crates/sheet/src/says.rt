// What the sheet writes and says. A line to standard output goes out in one piece, and is looked at. A line on standard error that tells of a
// failure begins `sheet: `, and one that doesn't `note: `.
use crate::help::PROGRAM;
use crate::work::Work;
use crate::{lines, moving, standing};
use captures::Course;
use sheet_entry::Form;
pub use sheet_file::says::{fail, tell};
use sight::{PAGES, lack};
use std::io::{Error, Result};
use told::{Console, say, say_number};

// More than the longest name and the counts behind it.
const LINE: usize = 4608;

pub fn usage(rt: &impl Console) {
    say(
        rt,
        b"sheet: usage: sheet add [-m 1..8] [-p 00..FF] [-s 0..15[,0..15]] [-a 0..31] [--] SHEET STAMP CAPTURE [STAMP CAPTURE ...], ",
    );
    say(
        rt,
        b"sheet join [--] SHEET OTHER ..., sheet drop [--] SHEET KIND NETWORK BLOCK, sheet check [--] SHEET ..., ",
    );
    say(
        rt,
        b"sheet compare [--] FIRST SECOND, sheet up [--] SHEET, sheet down [--] SHEET\n",
    );
}

// A word that has to be a stamp and isn't.
pub fn bad_stamp(rt: &impl Console, word: &[u8]) {
    told::begin(rt, &PROGRAM);
    say(rt, word);
    say(
        rt,
        b": it is no stamp, and the sheet stays as it was: a stamp is 0, or digits without a leading zero, up to 4294967295\n",
    );
}

// A sheet without the entry that was to be dropped.
pub fn no_entry(rt: &impl Console, name: &[u8], network: u8, kind: u8, block: u16) {
    told::begin(rt, &PROGRAM);
    say(rt, name);
    say(rt, b": it has no entry of kind ");
    say_kind(rt, kind);
    say(rt, b", network ");
    say_number(rt, network as u64);
    say(rt, b", block ");
    say_number(rt, block as u64);
    say(rt, b", and stays as it was\n");
}

fn say_kind(rt: &impl Console, kind: u8) {
    if kind == 7 {
        say(rt, b"LI");
        return;
    }
    say(rt, b"TI");
}

// A capture that gave no table, and the desk's cause where it has one (SCOPE 13.9).
pub fn no_table(
    rt: &impl Console,
    name: &[u8],
    course: Course,
    pages: &[u16; PAGES],
    is_short: bool,
) {
    told::begin(rt, &PROGRAM);
    say(rt, name);
    say(rt, b": it gave no table");
    if lack::is_lacking(course.sight) {
        lack::say(rt, course.setting, course.sight, pages, is_short);
    }
    say(rt, b"\n");
}

// Bytes at a capture's end that make no packet.
pub fn note_left(rt: &impl Console, name: &[u8], count: u64) {
    say(rt, b"note: ");
    say(rt, name);
    say(rt, b": ");
    say_number(rt, count);
    say(rt, b" bytes at its end make no packet\n");
}

// A capture that the reader doesn't go on with, which never comes.
pub fn stuck(rt: &impl Console, name: &[u8]) {
    told::begin(rt, &PROGRAM);
    say(rt, name);
    say(
        rt,
        b": the reader took nothing, and the sheet stays as it was\n",
    );
}

// A sheet that was refused by itself. Of 20 the line at fault is told too, or that it has the old form.
pub fn refuse_sheet(rt: &impl Console, name: &[u8], no: u8, at: usize, sheet: &[u8]) {
    refuse(rt, name, no, at);
    if no == 20 {
        say_fault(rt, name, at, sheet);
        say(rt, b"; the sheet stays as it was\n");
        return;
    }
    say_cause(rt, no);
    say(rt, b"\n");
}

// What the new form has against a sheet: a line, or that it has the old form.
fn say_fault(rt: &impl Console, name: &[u8], at: usize, sheet: &[u8]) {
    if !moving::is_of(Form::Old, sheet) {
        lines::say_fault(rt, sheet, at);
        return;
    }
    say(rt, b": it has the old form, and \"sheet up ");
    say(rt, name);
    say(rt, b"\" moves it to the new one");
}

// A sheet that can't be moved to the new form.
pub fn refuse_up(rt: &impl Console, name: &[u8], no: u8, at: usize, sheet: &[u8]) {
    refuse(rt, name, no, at);
    say_up(rt, no, at, sheet);
    say(rt, b"; the sheet stays as it was\n");
}

fn say_up(rt: &impl Console, no: u8, at: usize, sheet: &[u8]) {
    if moving::is_of(Form::New, sheet) {
        say(rt, b": it has the new form already");
        return;
    }
    if no == 20 {
        lines::say_fault(rt, sheet, at);
        return;
    }
    say(
        rt,
        b": more than 64 entries or 16384 bytes, and one of the new form has up to 64 entries and 17152 bytes",
    );
}

// A sheet that can't be moved to the old form.
pub fn refuse_down(rt: &impl Console, name: &[u8], no: u8, at: usize, sheet: &[u8]) {
    refuse(rt, name, no, at);
    say_down(rt, no, at, sheet);
    say(rt, b"; the sheet stays as it was\n");
}

fn say_down(rt: &impl Console, no: u8, at: usize, sheet: &[u8]) {
    if moving::is_of(Form::Old, sheet) {
        say(rt, b": it has the old form already");
        return;
    }
    if no == 20 {
        lines::say_fault(rt, sheet, at);
        return;
    }
    if no == 25 {
        say(rt, b": the old form has no line for the mended bytes of ");
        say_key(rt, standing::lost(sheet));
        say(rt, b", and their number would be lost");
        return;
    }
    say(
        rt,
        b": in the old form it would have more than 64 entries or 16384 bytes",
    );
}

// An entry's kind, network and block.
fn say_key(rt: &impl Console, key: usize) {
    say_kind(rt, (7 + key / 65536 % 2) as u8);
    say(rt, b",");
    say_number(rt, (key / 131072) as u64);
    say(rt, b",");
    say_number(rt, (key % 65536) as u64);
}

// A sheet that can't be compared. Of 20 the line at fault is told too, or that it has the old form.
pub fn refuse_compared(rt: &impl Console, name: &[u8], no: u8, at: usize, sheet: &[u8]) {
    refuse(rt, name, no, at);
    if no == 20 {
        say_fault(rt, name, at, sheet);
        say(rt, b"\n");
        return;
    }
    if no == 21 {
        say(rt, b": more than 64 entries or 17152 bytes\n");
        return;
    }
    say(rt, b"\n");
}

// A capture's table that can't be added.
pub fn refuse_table(rt: &impl Console, name: &[u8], no: u8, at: usize) {
    refuse(rt, name, no, at);
    say_cause(rt, no);
    say(rt, b"; a table of this capture was to be added\n");
}

// A sheet that can't be joined to the first.
pub fn refuse_other(rt: &impl Console, name: &[u8], no: u8, at: usize) {
    refuse(rt, name, no, at);
    say_cause(rt, no);
    say(rt, b"; it was to be joined to the first\n");
}

fn refuse(rt: &impl Console, name: &[u8], no: u8, at: usize) {
    told::begin(rt, &PROGRAM);
    say(rt, name);
    say(rt, b": refused with number ");
    say_number(rt, no as u64);
    say(rt, b" at offset ");
    say_number(rt, at as u64);
}

// What the number means to whoever keeps the sheet.
fn say_cause(rt: &impl Console, no: u8) {
    if no == 21 {
        say(
            rt,
            b": more than 64 entries or 17152 bytes; the sheet stays as it was, so it is not today's",
        );
        return;
    }
    say(rt, b"; the sheet stays as it was");
}

// The line of what was done, where the new sheet stands or the old one stays. A line that isn't taken is told.
pub fn put_work(rt: &impl Console, work: Work, is_new: bool) {
    let mut line = [0u8; LINE];
    let n = work_line(work, &mut line);
    match put(rt, &line, n) {
        Ok(()) => {}
        Err(why) => {
            if is_new {
                put_late(rt, why);
                return;
            }
            not_put(rt, why);
        }
    }
}

// The line of a sheet that stands without an entry, or in its other form.
pub fn put_left(rt: &impl Console, name: &[u8], work: Work) {
    let mut line = [0u8; LINE];
    let n = sheet_line(name, work.entries, work.length as u64, &mut line);
    if let Err(why) = put(rt, &line, n) {
        put_late(rt, why);
    }
}

fn put_late(rt: &impl Console, why: Error) {
    fail(
        rt,
        b"standard output",
        b"it takes no more, and the new sheet stands",
        why,
    );
}

fn work_line(work: Work, line: &mut [u8; LINE]) -> usize {
    let n = count(b"captures=", work.captures, line, 0);
    let n = count(b" tables=", work.tables, line, n);
    let n = count(b" new=", work.new, line, n);
    let n = count(b" replaced=", work.replaced, line, n);
    let n = count(b" older=", work.older, line, n);
    let n = count(b" same=", work.same, line, n);
    size(work.entries, work.length as u64, line, n)
}

// The line of a sheet that was looked at.
pub fn put_sheet(rt: &impl Console, name: &[u8], entries: u64, bytes: u64) -> bool {
    let mut line = [0u8; LINE];
    let n = sheet_line(name, entries, bytes, &mut line);
    match put(rt, &line, n) {
        Ok(()) => true,
        Err(why) => {
            not_put(rt, why);
            false
        }
    }
}

fn sheet_line(name: &[u8], entries: u64, bytes: u64, line: &mut [u8; LINE]) -> usize {
    let n = text_lines::put(b"file=", line, 0);
    let n = text_lines::put(name, line, n);
    size(entries, bytes, line, n)
}

// Entries and bytes end a line.
fn size(entries: u64, bytes: u64, line: &mut [u8], at: usize) -> usize {
    let n = count(b" entries=", entries, line, at);
    let n = count(b" bytes=", bytes, line, n);
    text_lines::put(b"\n", line, n)
}

// A name and its number, put at a place; the place after them.
fn count(name: &[u8], number: u64, line: &mut [u8], at: usize) -> usize {
    let mut digits = [0u8; 20];
    let n = io::decimal(number, &mut digits);
    let at = text_lines::put(name, line, at);
    text_lines::put(&digits[..n], line, at)
}

fn put(rt: &impl Print, line: &[u8; LINE], n: usize) -> Result<()> {
    told::write(rt, told::front(line, n))
}

fn not_put(rt: &impl Console, why: Error) {
    fail(
        rt,
        b"standard output",
        b"it takes no more, and the sheet stays as it was",
        why,
    );
}
