// One capture: its records are pulled, and the blocks that come are listed. Counts that a room hands back are held against the space that
// they count in, so that no proof here has to know the room's definitions; a count that doesn't fit never comes.
ghost use Rattle.std.specs.Prelude.{◌≡◌, ◌≤◌, length};

use crate::says;
use blocks::Taken;
use captures::{Came, Course, PIECE, RECORDS, Source};
use packet::two::Streams;
use sight::PAGES;
use std::io::Error;
use told::Console;

const TEXT: usize = 65536;

// More than the lines of one table, that of its stream too: the text is written out when less room is left.
const LINES: usize = 8192;

// More than the longest table form.
const FORM: usize = 2048;

// How many blocks were accepted and refused, how many bytes of lines wait in the text, whether the title is still to be written, and whether
// standard output took all that was written so far.
#[derive(Clone, Copy)]
struct Tally {
    accepted: u64,
    refused: u64,
    used: usize,
    due: bool,
    sound: bool,
}

// Lists what comes from a source, under a line with its name where that is asked for. A read that fails is told with the name, and the
// list then lacks its last line. Answers whether standard output took all.
pub fn list<F: std::io::Read>(
    rt: &impl Console,
    source: &mut Source<F>,
    name: &[u8],
    is_titled: bool,
    setting: Streams,
    is_verbose: bool,
) -> bool {
    let mut piece = [0u8; PIECE];
    let mut records = [0u8; RECORDS];
    let mut pages = sight::pages(setting);
    let mut text = [0u8; TEXT];
    let mut form = [0u8; FORM];
    let mut capture = captures::start(setting, is_verbose);
    let mut tally = fresh(is_titled);
    for _ in 0..u64::MAX {
        let turn = captures::next(source, capture, &mut piece, &mut records, &mut pages);
        capture = turn.capture;
        let came = turn.came;
        let Came::Records(n) = came else {
            return end(
                rt,
                came,
                source.why,
                tally,
                &text,
                name,
                capture.course,
                &pages,
            );
        };
        tally = title(rt, tally, name);
        tally = list_all(rt, tally, setting, &records, n, &mut text, &mut form);
        if !tally.sound {
            return false;
        }
    }
    false
}

fn fresh(is_titled: bool) -> Tally {
    Tally {
        accepted: 0,
        refused: 0,
        used: 0,
        due: is_titled,
        sound: true,
    }
}

// Writes the title where it is due.
fn title(rt: &impl Console, mut tally: Tally, name: &[u8]) -> Tally {
    if tally.due {
        tally.due = false;
        tally.sound = told::put_title(rt, b"desk", name);
    }
    tally
}

// Lists the records at the front of their space.
fn list_all(
    rt: &impl Console,
    tally: Tally,
    setting: Streams,
    records: &[u8; RECORDS],
    n: usize,
    text: &mut [u8; TEXT],
    form: &mut [u8; FORM],
) -> Tally {
    list_records(rt, tally, setting, told::front(records, n), text, form)
}

#[tactic(auto, using(captures::proofs::Spanning::span_within))]
fn list_records(
    rt: &impl Console,
    mut tally: Tally,
    setting: Streams,
    records: &[u8],
    text: &mut [u8],
    form: &mut [u8],
) -> Tally {
    let mut at = 0;
    // Kept: each turn goes to the next record, and records differ in length.
    while at < records.len() {
        let span = captures::span_at(setting, records, at);
        tally = list_record(
            rt,
            tally,
            setting,
            span.stream,
            &records[span.from..span.next],
            text,
            form,
        );
        at = span.next;
    }
    tally
}

// Lists a record where block reading accepts it.
fn list_record(
    rt: &impl Console,
    tally: Tally,
    setting: Streams,
    stream: u8,
    record: &[u8],
    text: &mut [u8],
    form: &mut [u8],
) -> Tally {
    match table::read_block(setting.application, record, form) {
        Ok(Taken { written, mended }) => {
            let second = blocks::second_of(record);
            let tally = make_room(rt, tally, text);
            let at = put_stream(setting, stream, text, tally.used);
            let form = told::front(form, written);
            list_form(tally, form, mended, second, text, at)
        }
        Err(_) => refuse(tally),
    }
}

// Puts the line of a stream at a place of the text where two are read, and answers the place behind it (SCOPE 27.8).
fn put_stream(setting: Streams, stream: u8, text: &mut [u8], at: usize) -> usize
    requires { at ≤ length text.old }
    ensures { result ≤ length text.old }
{
    if captures::is_one(setting) {
        return at;
    }
    let mut digits = [0u8; 20];
    let n = io::decimal(stream as u64, &mut digits);
    let at = put(b"stream=", text, at);
    let at = put(&digits[..n], text, at);
    put(b"\n", text, at)
}

// Puts bytes at a place of the text, and answers the place behind them; the text's end where they don't fit.
fn put(bytes: &[u8], text: &mut [u8], at: usize) -> usize
    requires { at ≤ length text.old }
    ensures { result ≤ length text.old }
{
    if text.len() - at < bytes.len() {
        return text.len();
    }
    let end = at + bytes.len();
    text[at..end].copy_from_slice(bytes);
    end
}

// Lists a table from a place of the text on, behind what waits there.
fn list_form(
    tally: Tally,
    form: &[u8],
    mended: u16,
    second: u8,
    text: &mut [u8],
    at: usize,
) -> Tally
    requires { at ≤ length text.old }
{
    match listing::list_table(form, mended, second, &mut text[at..]) {
        Ok(more) => accept(tally, at, more, text.len()),
        Err(_) => refuse(tally),
    }
}

// The text then waits up to so many bytes behind a place.
fn accept(mut tally: Tally, at: usize, more: usize, room: usize) -> Tally
    requires { at ≤ room }
{
    if room - at < more {
        return refuse(tally);
    }
    tally.accepted = tally.accepted.saturating_add(1);
    tally.used = at + more;
    tally
}

fn refuse(mut tally: Tally) -> Tally {
    tally.refused = tally.refused.saturating_add(1);
    tally
}

// Writes the text out where less room is left than one table may need.
fn make_room(rt: &impl Console, tally: Tally, text: &[u8]) -> Tally
    ensures { result.used ≤ length text.now }
{
    if text.len() < tally.used || text.len() - tally.used < LINES {
        flush(rt, tally, text)
    } else {
        tally
    }
}

// Writes the text out, unless standard output failed before.
fn flush(rt: &impl Console, mut tally: Tally, text: &[u8]) -> Tally
    ensures { result.used ≡ 0 }
{
    if tally.sound {
        tally.sound = told::put(rt, b"desk", told::front(text, tally.used));
    }
    tally.used = 0;
    tally
}

// The capture has ended, or nothing more is read of it.
fn end(
    rt: &impl Console,
    came: Came,
    why: Error,
    tally: Tally,
    text: &[u8; TEXT],
    name: &[u8],
    course: Course,
    pages: &[u16; PAGES],
) -> bool {
    match came {
        Came::Records(_) => true,
        Came::Ended(short) => {
            if !put_end(rt, tally, text, course, short) {
                return false;
            }
            says::lacking(rt, name, course, pages, short > 0);
            true
        }
        Came::Unread => {
            told::tell(rt, b"desk", name, why);
            stop(rt, tally, text)
        }
        Came::Stuck => {
            told::tell_stuck(rt, b"desk", name);
            stop(rt, tally, text)
        }
    }
}

// Writes what is left of a list that lacks its last line.
fn stop(rt: &impl Console, tally: Tally, text: &[u8]) -> bool {
    flush(rt, tally, text).sound
}

// Writes what is left of a list, its last line, and the line of counts where that is asked for.
fn put_end(rt: &impl Console, tally: Tally, text: &[u8], course: Course, short: usize) -> bool {
    let tally = flush(rt, tally, text);
    let counts = course.sight.counts;
    tally.sound
        && says::put_last(rt, tally.accepted, tally.refused, short as u64)
        && (!course.verbose
            || says::put_counts(
                rt,
                counts.packets,
                counts.ours,
                counts.unreadable,
                course.dropped,
            ))
}
