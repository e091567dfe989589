// One capture: its records are pulled, and each TI table that comes goes out as its descriptor. Counts that a room hands back are held against
// the space that they count in, so that no proof here has to know the room's definitions; a count that doesn't fit never comes.
use crate::says;
use blocks::Taken;
use captures::{Came, PIECE, RECORDS, Source};
use dvb_descriptor::LONGEST;
use forms::TI;
use packet::two::Streams;
use std::io::Error;
use told::Console;

// More than the longest table form.
const FORM: usize = 2048;

// How many TI tables were accepted and how many of them were left out, whether the title is still to be written, and whether standard output
// took all that was written so far.
#[derive(Clone, Copy)]
struct Tally {
    tables: u64,
    over: u64,
    due: bool,
    sound: bool,
}

// Writes the lines of the capture that comes from a source, under a line with its name where that is asked for. A read that fails is
// told with the name, and the last line is then missing. Answers whether standard output took all.
pub fn list<F: std::io::Read>(
    rt: &impl Console,
    source: &mut Source<F>,
    name: &[u8],
    is_titled: bool,
    setting: Streams,
) -> bool {
    let mut piece = [0u8; PIECE];
    let mut records = [0u8; RECORDS];
    let mut pages = sight::pages(setting);
    let mut form = [0u8; FORM];
    let mut capture = captures::start(setting, false);
    let mut tally = fresh(is_titled);
    for _ in 0..u64::MAX {
        let turn = captures::next(source, capture, &mut piece, &mut records, &mut pages);
        capture = turn.capture;
        let came = turn.came;
        let Came::Records(n) = came else {
            return end(rt, came, source.why, tally, name);
        };
        tally = title(rt, tally, name);
        tally = list_all(rt, tally, name, setting, &records, n, &mut form);
        if !tally.sound {
            return false;
        }
    }
    false
}

fn fresh(is_titled: bool) -> Tally {
    Tally {
        tables: 0,
        over: 0,
        due: is_titled,
        sound: true,
    }
}

// Writes the title where it is due.
fn title(rt: &impl Console, mut tally: Tally, name: &[u8]) -> Tally {
    if tally.due {
        tally.due = false;
        tally.sound = told::put_title(rt, b"dvb", name);
    }
    tally
}

// Goes along the records at the front of their space.
fn list_all(
    rt: &impl Console,
    tally: Tally,
    name: &[u8],
    setting: Streams,
    records: &[u8; RECORDS],
    n: usize,
    form: &mut [u8; FORM],
) -> Tally {
    list_records(rt, tally, name, setting, told::front(records, n), form)
}

#[tactic(auto, using(captures::proofs::Spanning::span_within))]
fn list_records(
    rt: &impl Console,
    mut tally: Tally,
    name: &[u8],
    setting: Streams,
    records: &[u8],
    form: &mut [u8],
) -> Tally {
    let mut at = 0;
    // Kept: each turn goes to the next record, and records differ in length.
    while at < records.len() {
        let span = captures::span_at(setting, records, at);
        tally = list_record(
            rt,
            tally,
            name,
            setting.application,
            &records[span.from..span.next],
            form,
        );
        at = span.next;
    }
    tally
}

// A record where block reading accepts it, until standard output has failed. A block that isn't a table of ours is passed over.
fn list_record(
    rt: &impl Console,
    tally: Tally,
    name: &[u8],
    application: u8,
    record: &[u8],
    form: &mut [u8],
) -> Tally {
    if !tally.sound {
        return tally;
    }
    match table::read_block(application, record, form) {
        Ok(Taken { written, mended: _ }) => list_form(rt, tally, name, told::front(form, written)),
        Err(_) => tally,
    }
}

// A table; one of languages alone is passed over.
fn list_form(rt: &impl Console, tally: Tally, name: &[u8], form: &[u8]) -> Tally {
    if lent_bytes::byte_at(form, 0) != TI {
        return tally;
    }
    let mut descriptor = [0u8; LONGEST];
    match dvb_descriptor::write_descriptor(form, &mut descriptor) {
        Ok(n) => put(rt, tally, form, told::front(&descriptor, n)),
        Err(_) => leave_out(rt, tally, name, form),
    }
}

// The line of a table goes out.
fn put(rt: &impl Console, mut tally: Tally, form: &[u8], descriptor: &[u8]) -> Tally {
    tally.tables = tally.tables.saturating_add(1);
    tally.sound = says::put_table(rt, network(form), block(form), descriptor);
    tally
}

// A table has more subtitles than a descriptor can hold (26), which is told. None is refused for another cause: block reading hands out forms that
// can be written, and there is room for the longest descriptor.
fn leave_out(rt: &impl Console, mut tally: Tally, name: &[u8], form: &[u8]) -> Tally {
    tally.tables = tally.tables.saturating_add(1);
    tally.over = tally.over.saturating_add(1);
    says::say_over(rt, name, network(form), block(form));
    tally
}

fn network(form: &[u8]) -> u64 {
    lent_bytes::byte_at(form, 4) as u64
}

fn block(form: &[u8]) -> u64 {
    (lent_bytes::byte_at(form, 2) + 256 * lent_bytes::byte_at(form, 3)) as u64
}

// The capture has ended, or nothing more is read of it.
fn end(rt: &impl Console, came: Came, why: Error, tally: Tally, name: &[u8]) -> bool {
    match came {
        Came::Records(_) => true,
        Came::Ended(_) => says::put_last(rt, tally.tables, tally.over),
        Came::Unread => {
            told::tell(rt, b"dvb", name, why);
            true
        }
        Came::Stuck => {
            told::tell_stuck(rt, b"dvb", name);
            true
        }
    }
}
