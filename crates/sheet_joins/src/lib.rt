// Day sheets joined (SCOPE 20.8, 30.2), and one entry added: two sheets in form are merged along their texts, whole entries passed and copied
// by their places.
#![tactic(auto)]

pub mod adding;

ghost use Rattle.std.specs.Prelude.{◌≡◌, ◌∷◌, [], ◌+◌, ◌≤◌, leb, length, take, drop};
ghost use Rattle.std.specs.declared.result.Result.TheVariants.{Ok};
ghost use Rattle.std.proofs.lemmas.List.Edits.{sets};
ghost use Rattle.laws.specs.Orders.{before};
ghost use Rattle.answer.specs.Rules.{rule, judged};
ghost use Rattle.answer.specs.Values.{refused};
ghost use Rattle.answer.specs.Writing.{answered, left};
ghost use Rattle.day_sheet.specs.Entries.{sheet_text, entry_limit, byte_limit};
ghost use Rattle.sheet_joins.specs.Calls.{join_rules, join_result};
ghost use Rattle.day_sheet.specs.Internal.{Halfway};
ghost use Rattle.sheet_joins.specs.Internal.{Lies, Met, lines_stay, second_stays, turn_text};
ghost use Rattle.sheet_joins.specs.Turns.{next_of, turn_of, first_long, second_long};

pub use adding::add;
use answer::{Answer, Reason};
use day_sheet::ENTRIES;
use sheet_entry::{Form, Found, NoEntry};
use std::cmp::Ordering;

// How many entries, and how long they are in all.
#[derive(Drop)]
pub struct Size {
    pub entries: usize,
    pub long: usize,
}

// What has the next key, of each sheet: its entry, or why there is none.
#[derive(Clone, Copy)]
pub struct Next {
    pub first: Result<Found, NoEntry>,
    pub second: Result<Found, NoEntry>,
}

// The same where one has an entry: of the first sheet, of the second, or one of each.
#[derive(Clone, Copy)]
pub enum Turn {
    First(Found),
    Second(Found),
    Both(Found, Found),
}

impl Turn {
    // How far it goes on in the first sheet, and in the second.
    pub fn passed(self) -> (usize, usize)
        ensures { (result.0 ≡ first_long self) × (result.1 ≡ second_long self) }
    {
        match self {
            Turn::First(a) => (a.long, 0),
            Turn::Second(b) => (0, b.long),
            Turn::Both(a, b) => (a.long, b.long),
        }
    }
}

// The two sheets joined, to the front of `out`: for each key the greater entry (SCOPE 20.8).
pub fn join(form: Form, first: &[u8], second: &[u8], out: &mut [u8]) -> Answer
    ensures answer { result
        ≡ answered (join_rules form first.now second.now)
        (sheet_text form (join_result form first.now second.now)) out.old }
    ensures output { out.new
        ≡ left (join_rules form first.now second.now)
        (sheet_text form (join_result form first.now second.now)) out.old }
{
    let n = judge_join(form, first, second)?;
    if out.len() < n {
        return Reason::NoRoom.refuse(0);
    }
    put_joined(form, first, second, out);
    Ok(n)
}

// Which of the rules refuses, but for the room; otherwise how long the joined sheet is.
fn judge_join(form: Form, first: &[u8], second: &[u8]) -> Answer
    ensures { result
        ≡ judged refused (join_rules form first.now second.now)
        (Ok (length (sheet_text form (join_result form first.now second.now)))) }
{
    if day_sheet::limit(form) < second.len() {
        return Reason::SheetSize.refuse(0);
    }
    day_sheet::count(form, first)?;
    day_sheet::count(form, second)?;
    let size = measure(form, first, second);
    judge_size(form, size.entries, size.long)
}

// How large the joined sheet is: the walk that puts it, with next to no room.
fn measure(form: Form, first: &[u8], second: &[u8]) -> Size
    requires { Halfway form first.now 0 × Halfway form second.now 0 }
    ensures { (result.entries ≡ length (join_result form first.now second.now))
        × (result.long ≡ length (sheet_text form (join_result form first.now second.now))) }
{
    let mut scrap = [0u8; 1];
    put_joined(form, first, second, &mut scrap)
}

// Whether a sheet may be so large.
fn judge_size(form: Form, entries: usize, long: usize) -> Answer
    ensures { result ≡ judged refused (rule (leb entries entry_limit) 21 0 ∷ rule (leb long (byte_limit form)) 21 0 ∷ []) (Ok long) }
{
    if ENTRIES < entries {
        return Reason::SheetSize.refuse(0);
    }
    if day_sheet::limit(form) < long {
        return Reason::SheetSize.refuse(0);
    }
    Ok(long)
}

// Puts the joined sheet to the front of `out`, as far as there is room, and answers its size.
fn put_joined(form: Form, first: &[u8], second: &[u8], out: &mut [u8]) -> Size
    requires { Halfway form first.now 0 × Halfway form second.now 0 }
    ensures { (out.new ≡ sets out.old 0 (sheet_text form (join_result form first.now second.now)))
        × (result.entries ≡ length (join_result form first.now second.now))
        × (result.long ≡ length (sheet_text form (join_result form first.now second.now))) }
{
    let mut i = 0;
    let mut j = 0;
    let mut n = 0;
    let mut q = 0;
    // Kept: no count of places: each step is as long as the entries that stand there. `changes::put_changes` has such a loop, too: what the two share
    // is `turn_at` and `passed`, and a closure that puts into `out` at each step would leave the proof without what it put.
    while let Some(t) = turn_at(form, first, i, second, j) {
        q = put_turn(first, i, second, j, t, out, q);
        let (a, b) = t.passed();
        i += a;
        j += b;
        n += 1;
    }
    Size {
        entries: n,
        long: q,
    }
}

// Puts the entry that stays of a turn, and answers the place after it.
fn put_turn(
    first: &[u8],
    i: usize,
    second: &[u8],
    j: usize,
    t: Turn,
    out: &mut [u8],
    q: usize,
) -> usize
    requires { Met first.now i second.now j t × (q + first_long t + second_long t ≤ 200000) }
    ensures { (out.new ≡ sets out.old q (turn_text t (drop i first.now) (drop j second.now)))
        × (result ≡ q + length (turn_text t (drop i first.now) (drop j second.now))) }
{
    match t {
        Turn::First(a) => put_found(first, i, a, out, q),
        Turn::Second(b) => put_found(second, j, b, out, q),
        Turn::Both(a, b) => {
            if second_stays(first, i, a, second, j, b) {
                put_found(second, j, b, out, q)
            } else {
                put_found(first, i, a, out, q)
            }
        }
    }
}

// Puts the entry that was found at a place, and answers the place after it.
fn put_found(sheet: &[u8], at: usize, f: Found, out: &mut [u8], q: usize) -> usize
    requires { Lies sheet.now at f × (q + f.long ≤ 200000) }
    ensures { (out.new ≡ sets out.old q (take f.long (drop at sheet.now)))
        × (result ≡ q + length (take f.long (drop at sheet.now))) }
{
    lent_bytes::copy(sheet, at, f.long, out, q);
    q + f.long
}

// What has the next key from these places on: an entry of the first sheet, of the second, or one of each. Of a sheet that has none there it
// says why; of one whose entry comes later, what is said at a sheet's end.
pub fn next_turn(form: Form, first: &[u8], i: usize, second: &[u8], j: usize) -> Next
    ensures { result ≡ next_of form (drop i first.now) (drop j second.now) }
{
    match (
        sheet_entry::entry_at(form, first, i, 0),
        sheet_entry::entry_at(form, second, j, 0),
    ) {
        (Ok(a), Ok(b)) => match a.key.cmp(&b.key) {
            Ordering::Less => Next {
                first: Ok(a),
                second: Err(NoEntry::End),
            },
            Ordering::Greater => Next {
                first: Err(NoEntry::End),
                second: Ok(b),
            },
            Ordering::Equal => Next {
                first: Ok(a),
                second: Ok(b),
            },
        },
        (Ok(a), Err(w)) => Next {
            first: Ok(a),
            second: Err(w),
        },
        (Err(w), found) => Next {
            first: Err(w),
            second: found,
        },
    }
}

// The same as a turn, where either sheet has an entry.
pub fn turn_at(form: Form, first: &[u8], i: usize, second: &[u8], j: usize) -> Option<Turn>
    ensures { result ≡ turn_of form (drop i first.now) (drop j second.now) }
{
    let next = next_turn(form, first, i, second, j);
    match (next.first, next.second) {
        (Ok(a), Ok(b)) => Some(Turn::Both(a, b)),
        (Ok(a), Err(_)) => Some(Turn::First(a)),
        (Err(_), Ok(b)) => Some(Turn::Second(b)),
        (Err(_), Err(_)) => None,
    }
}

// Of two entries of one key, whether it is the second's that stays: by the stamps, then by the table's lines and what was
// mended.
fn second_stays(first: &[u8], i: usize, a: Found, second: &[u8], j: usize, b: Found) -> bool
    requires { Lies first.now i a × Lies second.now j b }
    ensures { result ≡ second_stays (drop i first.now) a (drop j second.now) b }
{
    match a.stamp.cmp(&b.stamp) {
        Ordering::Less => true,
        Ordering::Greater => false,
        Ordering::Equal => {
            let from = i + a.head;
            let to = i + (a.long - 1);
            let begin = j + b.head;
            let end = j + (b.long - 1);
            lines_stay(&first[from..to], a.mended, &second[begin..end], b.mended)
        }
    }
}

// Of two tables' lines, each with what was mended, whether it is the second's that stay: the later lines, then the smaller number.
fn lines_stay(a: &[u8], mended: usize, b: &[u8], other: usize) -> bool
    ensures { result ≡ lines_stay a.now mended b.now other }
{
    is_before(a, b) && (!is_before(b, a) || other <= mended)
}

// Whether the first of two texts comes before the second, byte by byte, a prefix first, or is the same.
#[tactic(auto, using(crate::proofs::Comparing::slices_before))]
fn is_before(a: &[u8], b: &[u8]) -> bool
    ensures { result ≡ before a.now b.now }
{
    a <= b
}
