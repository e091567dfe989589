// One capture: its records are pulled, the blocks that decide are kept, and the verdict on them is printed.
use crate::kept::{Kept, STORE};
use crate::{kept, says};
use captures::{Came, PIECE, RECORDS, Source};
use packet::two::Streams;
use std::io::Error;
use told::Console;

// The longest text of a verdict: a no.
const TEXT: usize = 28;

// The verdict on what comes from a source, under a line with its name where that is asked for. A read that fails is told with the name, and
// nothing is printed. Answers whether standard output took all.
pub fn judge<F: std::io::Read>(
    rt: &impl Console,
    source: &mut Source<F>,
    name: &[u8],
    is_titled: bool,
    setting: Streams,
) -> bool {
    let mut store = [0u8; STORE];
    let kept = gather(rt, source, name, setting, &mut store);
    if !kept.whole {
        return true;
    }
    if kept.full {
        says::tell_full(rt, name);
        return true;
    }
    judge_kept(rt, name, is_titled, setting.application, &store, kept)
}

fn judge_kept(
    rt: &impl Console,
    name: &[u8],
    is_titled: bool,
    application: u8,
    store: &[u8; STORE],
    kept: Kept,
) -> bool {
    let mut text = [0u8; TEXT];
    match broadcast::lawful(application, told::front(store, kept.used), &mut text) {
        Ok(n) => {
            let numbers = kept.numbers;
            if !says::put_verdict(rt, name, is_titled, told::front(&text, n), &numbers) {
                return false;
            }
            says::tell_no(rt, name, told::front(&text, n));
            true
        }
        Err(why) => {
            says::tell_none(rt, name, why.no);
            true
        }
    }
}

// The blocks that come from a source.
fn gather<F: std::io::Read>(
    rt: &impl Console,
    source: &mut Source<F>,
    name: &[u8],
    setting: Streams,
    store: &mut [u8; STORE],
) -> Kept {
    let mut piece = [0u8; PIECE];
    let mut records = [0u8; RECORDS];
    let mut pages = sight::pages(setting);
    let mut capture = captures::start(setting, false);
    let mut kept = kept::none();
    for _ in 0..u64::MAX {
        let turn = captures::next(source, capture, &mut piece, &mut records, &mut pages);
        capture = turn.capture;
        let came = turn.came;
        let Came::Records(n) = came else {
            return end(rt, came, source.why, kept, name);
        };
        kept = keep_all(kept, setting, &records, n, store);
    }
    kept
}

// The capture has ended, or nothing more is read of it.
fn end(rt: &impl Console, came: Came, why: Error, kept: Kept, name: &[u8]) -> Kept {
    match came {
        Came::Records(_) => kept,
        Came::Ended(_) => kept::ended(kept),
        Came::Unread => {
            told::tell(rt, b"lawful", name, why);
            kept
        }
        Came::Stuck => {
            told::tell_stuck(rt, b"lawful", name);
            kept
        }
    }
}

// Keeps what decides among the records at the front of their space.
fn keep_all(
    kept: Kept,
    setting: Streams,
    records: &[u8; RECORDS],
    n: usize,
    store: &mut [u8; STORE],
) -> Kept {
    keep_records(kept, setting, told::front(records, n), store)
}

#[tactic(auto, using(captures::proofs::Spanning::span_within))]
fn keep_records(mut kept: Kept, setting: Streams, records: &[u8], store: &mut [u8]) -> Kept {
    let mut at = 0;
    // Kept: each turn goes to the next record, and records differ in length.
    while at < records.len() {
        let span = captures::span_at(setting, records, at);
        kept = kept::keep(
            kept,
            setting.application,
            &records[span.from..span.next],
            store,
        );
        at = span.next;
    }
    kept
}
