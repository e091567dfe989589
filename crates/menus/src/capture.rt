// One capture: its records are pulled, the menus that come are kept, and one of them is listed with those that it links to. Counts that a
// room hands back are held against the space that they count in, so that no proof here has to know the room's definitions; a count that
// doesn't fit never comes.
use crate::kept::{FORM, Kept, NUMBERS, SHELF};
use crate::{Asked, kept, says};
use blocks::Taken;
use captures::{Came, PIECE, RECORDS, Source};
use packet::two::Streams;
use shelf::HEADS;
use std::io::Error;
use told::Console;

// The longest listing that is printed.
const TEXT: usize = 1048576;

// Lists the menu of a block that comes from a source, under a line with its name where that is asked for. A read that fails is told with
// the name, and nothing is listed. Answers whether standard output took all.
pub fn list<F: std::io::Read>(
    rt: &impl Console,
    source: &mut Source<F>,
    name: &[u8],
    is_titled: bool,
    asked: Asked,
) -> bool {
    let mut heads = [0u8; HEADS];
    let mut store = [0u8; SHELF];
    let kept = gather(rt, source, name, asked, &mut heads, &mut store);
    if !kept.whole {
        return true;
    }
    says::say_left(rt, name, is_titled, kept.left);
    if !kept.came {
        let first = kept.first;
        says::note(rt, name, asked.block, kept.count, &first);
    }
    list_kept(rt, name, is_titled, asked, &heads, &store, kept.used)
}

fn list_kept(
    rt: &impl Console,
    name: &[u8],
    is_titled: bool,
    asked: Asked,
    heads: &[u8; HEADS],
    store: &[u8; SHELF],
    used: usize,
) -> bool {
    let mut text = [0u8; TEXT];
    show(
        rt,
        name,
        is_titled,
        asked,
        heads,
        told::front(store, used),
        &mut text,
    )
}

// Prints the listing of a block, if it isn't too long.
fn show(
    rt: &impl Console,
    name: &[u8],
    is_titled: bool,
    asked: Asked,
    heads: &[u8; HEADS],
    shelf: &[u8],
    text: &mut [u8; TEXT],
) -> bool {
    let block = asked.block;
    let levels = asked.levels;
    match menu_listing::list_kept(block, levels, heads, shelf, text) {
        Ok(n) => says::put_listing(rt, name, is_titled, told::front(text, n)),
        Err(_) => {
            says::refuse(rt, name, block, fitting(block, levels, heads, shelf, text));
            true
        }
    }
}

// The greatest number of levels below the one that was asked for with which the listing fits, if any.
fn fitting(block: u16, levels: u8, heads: &[u8], shelf: &[u8], text: &mut [u8]) -> Option<u8> {
    (1..levels).rev().find(|fewer| menu_listing::list_kept(
        block, *fewer, heads, shelf, text,
    ).is_ok())
}

// The menus that come from a source.
fn gather<F: std::io::Read>(
    rt: &impl Console,
    source: &mut Source<F>,
    name: &[u8],
    asked: Asked,
    heads: &mut [u8; HEADS],
    store: &mut [u8; SHELF],
) -> Kept {
    let mut piece = [0u8; PIECE];
    let mut records = [0u8; RECORDS];
    let mut pages = sight::pages(asked.setting);
    let mut form = [0u8; FORM];
    let mut numbers = [false; NUMBERS];
    let mut capture = captures::start(asked.setting, false);
    let mut kept = kept::none(asked.block);
    for _ in 0..u64::MAX {
        let turn = captures::next(source, capture, &mut piece, &mut records, &mut pages);
        capture = turn.capture;
        let came = turn.came;
        let Came::Records(n) = came else {
            return end(rt, came, source.why, kept, name);
        };
        kept = keep_all(
            kept,
            asked,
            &records,
            n,
            &mut form,
            heads,
            store,
            &mut numbers,
        );
    }
    kept
}

// The capture has ended, or nothing more is read of it.
fn end(rt: &impl Console, came: Came, why: Error, kept: Kept, name: &[u8]) -> Kept {
    match came {
        Came::Records(_) => kept,
        Came::Ended(_) => kept::ended(kept),
        Came::Unread => {
            told::tell(rt, b"menus", name, why);
            kept
        }
        Came::Stuck => {
            told::tell_stuck(rt, b"menus", name);
            kept
        }
    }
}

// Keeps the menus among the records at the front of their space.
fn keep_all(
    kept: Kept,
    asked: Asked,
    records: &[u8; RECORDS],
    n: usize,
    form: &mut [u8; FORM],
    heads: &mut [u8; HEADS],
    store: &mut [u8; SHELF],
    numbers: &mut [bool; NUMBERS],
) -> Kept {
    keep_records(
        kept,
        asked.setting,
        told::front(records, n),
        form,
        heads,
        store,
        numbers,
    )
}

#[tactic(auto, using(captures::proofs::Spanning::span_within))]
fn keep_records(
    mut kept: Kept,
    setting: Streams,
    records: &[u8],
    form: &mut [u8],
    heads: &mut [u8],
    store: &mut [u8],
    numbers: &mut [bool],
) -> Kept {
    let mut at = 0;
    // Kept: each turn goes to the next record, and records differ in length.
    while at < records.len() {
        let span = captures::span_at(setting, records, at);
        kept = keep_record(
            kept,
            setting.application,
            &records[span.from..span.next],
            form,
            heads,
            store,
            numbers,
        );
        at = span.next;
    }
    kept
}

// Keeps a record where menu reading accepts it. A block that isn't a menu of ours is passed over.
fn keep_record(
    kept: Kept,
    application: u8,
    record: &[u8],
    form: &mut [u8],
    heads: &mut [u8],
    store: &mut [u8],
    numbers: &mut [bool],
) -> Kept {
    match menu_reader::read_menu(application, record, form) {
        Ok(Taken { written, mended: _ }) => {
            kept::keep(
                kept,
                record.len(),
                told::front(form, written),
                heads,
                store,
                numbers,
            )
        }
        Err(_) => kept,
    }
}
