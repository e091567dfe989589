// One capture: the room `captures` reads it, and each table that comes is kept and added to the sheet. Counts that a room hands back are held
// against the space that they count in, so that no proof here has to know the room's definitions; a count that doesn't fit never comes.
ghost use Rattle.std.specs.Prelude.{◌≤◌};

use crate::work::Work;
use crate::{kept, says, standing, work};
use answer::Refusal;
use blocks::Taken;
use captures::{Came, Capture, Course, PIECE, RECORDS};
use packet::two::Streams;
use sheet_entry::Form;
use sight::PAGES;
use std::env::Env;
use std::io::Error;
use std::rt::Files;
use told::Console;

// More than the longest table form.
const FORM: usize = 2048;

// What a capture's tables are added under: its stamp, and the word that names it.
#[derive(Clone, Copy)]
pub struct Source {
    pub stamp: u32,
    pub word: usize,
}

// Where a capture stands, what was done, how many tables there were before it, and whether more may come.
#[derive(Drop)]
struct Going {
    capture: Capture,
    work: Work,
    before: u64,
    on: bool,
}

// What was done, and the refusal of a table, where one was refused.
#[derive(Drop)]
struct Added {
    work: Work,
    refused: Option<Refused>,
}

// Why a table was refused, and the word that names its capture.
#[derive(Drop)]
struct Refused {
    why: Refusal,
    word: usize,
}

// What was done, and whether more may come.
#[derive(Drop)]
struct Step {
    work: Work,
    on: bool,
}

// What was done, and in which slot a form is kept: one that there isn't where it isn't.
#[derive(Drop)]
struct Kept {
    work: Work,
    at: usize,
}

// Adds the tables of the capture of a name, unless something failed before. The name is told with a `?` for each byte that isn't
// printed.
pub fn open(
    rt: &(impl Files + Console),
    word: &mut [u8; 4096],
    n: usize,
    source: Source,
    setting: Streams,
    work: Work,
    sheet: &mut [u8],
    spare: &mut [u8],
    kept: &mut [u8],
) -> Work {
    if !work.sound {
        return work;
    }
    let opened = told::open(rt, told::front(word, n));
    told::plain(word);
    match opened {
        Ok(file) => {
            let mut from = captures::Source::new(file);
            read(
                rt,
                &mut from,
                told::front(word, n),
                source,
                setting,
                work,
                sheet,
                spare,
                kept,
            )
        }
        Err(why) => {
            says::fail(
                rt,
                told::front(word, n),
                b"it can't be opened, and the sheet stays as it was",
                why,
            );
            work::broken(work)
        }
    }
}

fn read<F: std::io::Read>(
    rt: &impl Console,
    from: &mut captures::Source<F>,
    name: &[u8],
    source: Source,
    setting: Streams,
    work: Work,
    sheet: &mut [u8],
    spare: &mut [u8],
    kept: &mut [u8],
) -> Work {
    let mut piece = [0u8; PIECE];
    let mut records = [0u8; RECORDS];
    let mut pages = sight::pages(setting);
    let mut form = [0u8; FORM];
    let mut going = begin(setting, work);
    for _ in 0..u64::MAX {
        going = pull(
            rt,
            from,
            name,
            source,
            going,
            &mut piece,
            &mut records,
            &mut pages,
            &mut form,
            sheet,
            spare,
            kept,
        );
        if !going.on {
            break;
        }
    }
    end(going)
}

fn begin(setting: Streams, work: Work) -> Going {
    Going {
        capture: captures::start(setting, false),
        work: work::capture(work),
        before: work.tables,
        on: true,
    }
}

// Where more may come, the capture didn't end.
fn end(going: Going) -> Work {
    let work = going.work;
    if going.on {
        return work::broken(work);
    }
    work
}

// One call of the room, and what it is for.
fn pull<F: std::io::Read>(
    rt: &impl Console,
    from: &mut captures::Source<F>,
    name: &[u8],
    source: Source,
    going: Going,
    piece: &mut [u8; PIECE],
    records: &mut [u8; RECORDS],
    pages: &mut [u16; PAGES],
    form: &mut [u8; FORM],
    sheet: &mut [u8],
    spare: &mut [u8],
    kept: &mut [u8],
) -> Going {
    let work = going.work;
    let before = going.before;
    let turn = captures::next(from, going.capture, piece, records, pages);
    let capture = turn.capture;
    let came = turn.came;
    let course = capture.course;
    let step = heed(
        rt, name, source, course, before, work, came, from.why, records, pages, form, sheet, spare,
        kept,
    );
    let work = step.work;
    Going {
        capture,
        work,
        before,
        on: step.on,
    }
}

// What came of the capture. Whatever fails is told, and ends it.
fn heed(
    rt: &impl Console,
    name: &[u8],
    source: Source,
    course: Course,
    before: u64,
    work: Work,
    came: Came,
    why: Error,
    records: &[u8; RECORDS],
    pages: &[u16; PAGES],
    form: &mut [u8; FORM],
    sheet: &mut [u8],
    spare: &mut [u8],
    kept: &mut [u8],
) -> Step {
    match came {
        Came::Records(n) => {
            let finished = told::front(records, n);
            let added = add_records(
                done(work),
                source,
                course.setting,
                finished,
                form,
                sheet,
                spare,
                kept,
            );
            judge(rt, name, added)
        }
        Came::Ended(short) => {
            tell_end(rt, name, course, pages, work.tables > before, short);
            Step { work, on: false }
        }
        Came::Unread => {
            says::fail(
                rt,
                name,
                b"it can't be read, and the sheet stays as it was",
                why,
            );
            stop(work)
        }
        Came::Stuck => {
            says::stuck(rt, name);
            stop(work)
        }
    }
}

// A capture that gave no table is told, and bytes at its end that make no packet are noted.
fn tell_end(
    rt: &impl Console,
    name: &[u8],
    course: Course,
    pages: &[u16; PAGES],
    has_tables: bool,
    short: usize,
) {
    if !has_tables {
        says::no_table(rt, name, course, pages, short > 0);
    }
    if short > 0 {
        says::note_left(rt, name, short as u64);
    }
}

// It goes on where no table was refused.
fn judge(rt: &impl Console, name: &[u8], added: Added) -> Step {
    let Added { work, refused } = added;
    match refused {
        Some(Refused { why, word: _ }) => {
            says::refuse_table(rt, name, why.no, why.at);
            stop(work)
        }
        None => Step { work, on: true },
    }
}

fn stop(work: Work) -> Step {
    Step {
        work: work::broken(work),
        on: false,
    }
}

#[tactic(auto, using(captures::proofs::Spanning::span_within))]
fn add_records(
    mut added: Added,
    source: Source,
    setting: Streams,
    records: &[u8],
    form: &mut [u8],
    sheet: &mut [u8],
    spare: &mut [u8],
    kept: &mut [u8],
) -> Added {
    let mut at = 0;
    // Kept: each turn goes to the next record, and records differ in length.
    while at < records.len() {
        let span = captures::span_at(setting, records, at);
        added = add_record(
            added,
            source,
            setting.application,
            &records[span.from..span.next],
            form,
            sheet,
            spare,
            kept,
        );
        at = span.next;
    }
    added
}

// Adds the table of a record where block reading accepts it, unless one was refused before. A block that isn't a table of ours is passed over.
fn add_record(
    added: Added,
    source: Source,
    application: u8,
    record: &[u8],
    form: &mut [u8],
    sheet: &mut [u8],
    spare: &mut [u8],
    kept: &mut [u8],
) -> Added {
    if added.refused.is_some() {
        return added;
    }
    match table::read_block(application, record, form) {
        Ok(Taken { written, mended }) => {
            take(
                added,
                source,
                mended,
                told::front(form, written),
                sheet,
                spare,
                kept,
            )
        }
        Err(_) => added,
    }
}

// A table that was accepted, with so many mended bytes, is kept and added.
fn take(
    added: Added,
    source: Source,
    mended: u16,
    form: &[u8],
    sheet: &mut [u8],
    spare: &mut [u8],
    kept: &mut [u8],
) -> Added {
    let one = keep(added.work, source, mended, form, kept);
    add_form(one.work, one.at, source, mended, form, sheet, spare, kept)
}

// Keeps a table: its form, unless that was kept before, which it is, and its number where that fell.
fn keep(work: Work, source: Source, mended: u16, form: &[u8], kept: &mut [u8]) -> Kept {
    let at = kept::find(kept, work.since, work.kept, work.next, form);
    let one = keep_form(work, at, source, form, kept);
    note(one.work, one.at, mended, kept)
}

fn note(work: Work, at: usize, mended: u16, kept: &mut [u8]) -> Kept {
    let has_fallen = kept::is_fallen(kept, at, mended);
    let mut work = note_number(work, has_fallen, mended, kept);
    let is_noted = kept::note(kept, work.came, at, has_fallen);
    work.next = kept::after(at);
    if is_noted {
        work.came = kept::after(work.came);
        return Kept { work, at };
    }
    work.whole = false;
    Kept { work, at }
}

fn note_number(mut work: Work, has_fallen: bool, mended: u16, kept: &mut [u8]) -> Work {
    if !has_fallen {
        return work;
    }
    if kept::keep_number(kept, work.fallen, mended) {
        return work::falls(work);
    }
    work.whole = false;
    work
}

// A form that isn't kept yet gets the next slot.
fn keep_form(work: Work, at: usize, source: Source, form: &[u8], kept: &mut [u8]) -> Kept {
    if at < work.kept {
        return Kept { work, at };
    }
    if kept::keep(kept, work.kept, source.stamp, source.word, form) {
        return in_slot(work);
    }
    keep_first(work::forget(work), source, form, kept)
}

// Where there is no more room, a form gets the first slot, in the place of all others.
fn keep_first(work: Work, source: Source, form: &[u8], kept: &mut [u8]) -> Kept {
    if kept::keep(kept, 0, source.stamp, source.word, form) {
        return in_slot(work);
    }
    Kept {
        work,
        at: usize::MAX,
    }
}

// The next slot is taken.
fn in_slot(mut work: Work) -> Kept {
    let at = work.kept;
    work.kept = kept::after(at);
    Kept { work, at }
}

// Adds what was kept to another sheet. A refusal is told with the capture's name.
pub fn add_again(
    rt: &(impl Env + Console),
    work: Work,
    sheet: &mut [u8],
    spare: &mut [u8],
    kept: &mut [u8],
) -> Work {
    let mut form = [0u8; FORM];
    let mut added = done(work);
    for i in 0..work.came {
        added = add_kept(added, i, &mut form, sheet, spare, kept);
    }
    end_again(rt, added)
}

// One of the tables that were kept, unless one was refused before.
fn add_kept(
    added: Added,
    i: usize,
    form: &mut [u8; FORM],
    sheet: &mut [u8],
    spare: &mut [u8],
    kept: &mut [u8],
) -> Added {
    if added.refused.is_some() {
        return added;
    }
    add_noted(added.work, i, form, sheet, spare, kept)
}

fn add_noted(
    work: Work,
    i: usize,
    form: &mut [u8; FORM],
    sheet: &mut [u8],
    spare: &mut [u8],
    kept: &mut [u8],
) -> Added {
    let at = kept::noted(kept, i);
    let work = fall_again(work, i, at, kept);
    add_slot(work, at, form, sheet, spare, kept)
}

// The form in a slot, with the least number with which it came so far.
fn add_slot(
    work: Work,
    at: usize,
    form: &mut [u8; FORM],
    sheet: &mut [u8],
    spare: &mut [u8],
    kept: &mut [u8],
) -> Added {
    let mended = kept::least_at(kept, at);
    let long = copy_form(kept, at, form);
    let source = Source {
        stamp: kept::stamp_at(kept, at),
        word: kept::word_at(kept, at),
    };
    add_form(
        work,
        at,
        source,
        mended,
        told::front(form, long),
        sheet,
        spare,
        kept,
    )
}

// A number that fell when the table came falls again.
fn fall_again(work: Work, i: usize, at: usize, kept: &mut [u8]) -> Work {
    if !kept::has_fallen(kept, i) {
        return work;
    }
    let mended = kept::number_at(kept, work.fallen);
    kept::put_least(kept, at, mended);
    work::falls(work)
}

fn end_again(rt: &(impl Env + Console), added: Added) -> Work {
    let Added { work, refused } = added;
    let Some(Refused { why, word }) = refused else {
        return work;
    };
    let mut name = io::buffer();
    let n = told::argument(rt, word, &mut name);
    told::plain(&mut name);
    says::refuse_table(rt, told::front(&name, n), why.no, why.at);
    work::broken(work)
}

// Takes a form out of its slot, and answers how long it is.
fn copy_form(kept: &[u8], at: usize, form: &mut [u8]) -> usize {
    let from = kept::form_at(kept, at);
    lent_bytes::copy(from, 0, from.len(), form, 0);
    from.len()
}

// A table that was accepted. One of which it is known how it stands changes nothing.
fn add_form(
    work: Work,
    at: usize,
    source: Source,
    mended: u16,
    form: &[u8],
    sheet: &mut [u8],
    spare: &mut [u8],
    kept: &mut [u8],
) -> Added {
    let work = work::table(work);
    match kept::stands(kept, at, mended, work.changes) {
        Some(is_same) => done(work::stays(work, is_same)),
        None => add_other(work, at, source, mended, form, sheet, spare, kept),
    }
}

fn done(work: Work) -> Added {
    Added {
        work,
        refused: None,
    }
}

// Adds a table to the sheet. What stands there of it is asked before, as long as that can be seen.
fn add_other(
    work: Work,
    at: usize,
    source: Source,
    mended: u16,
    form: &[u8],
    sheet: &mut [u8],
    spare: &mut [u8],
    kept: &mut [u8],
) -> Added {
    let stamp = source.stamp;
    let stood = standing::number(stamp, form, told::front(sheet, work.length), spare);
    add_beside(work, at, source, mended, stood, form, sheet, spare, kept)
}

fn add_beside(
    work: Work,
    at: usize,
    source: Source,
    mended: u16,
    stood: Option<u16>,
    form: &[u8],
    sheet: &mut [u8],
    spare: &mut [u8],
    kept: &mut [u8],
) -> Added {
    let stamp = source.stamp;
    match sheet_joins::add(
        Form::New,
        stamp,
        mended,
        told::front(sheet, work.length),
        form,
        spare,
    ) {
        Ok(n) => done(settle(work, at, mended, stood, n, sheet, spare, kept)),
        Err(why) => Added {
            work,
            refused: Some(Refused {
                why,
                word: source.word,
            }),
        },
    }
}

// The sheet with the table is in the first n bytes of the spare space. Where an entry with its stamp and lines stood, that has this number.
fn settle(
    work: Work,
    at: usize,
    mended: u16,
    stood: Option<u16>,
    n: usize,
    sheet: &mut [u8],
    spare: &[u8],
    kept: &mut [u8],
) -> Work {
    if told::front(spare, n) == told::front(sheet, work.length) {
        kept::judge(kept, at, stood, work.changes);
        return work::stays(work, stood.is_some());
    }
    lent_bytes::copy(spare, 0, n, sheet, 0);
    let work = changed(work, stood, n, spare);
    kept::judge(kept, at, Some(mended), work.changes);
    work
}

// The sheet has n bytes now. Where the entry stood but for its number, nothing else has changed.
fn changed(work: Work, stood: Option<u16>, n: usize, spare: &[u8]) -> Work {
    match stood {
        Some(_) => work::lowered(work, n),
        None => work::changed(work, n, texts::entries(told::front(spare, n)) as u64),
    }
}
