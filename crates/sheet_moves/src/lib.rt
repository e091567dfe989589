// A sheet moved to the other form: the same entries, written in it (SCOPE 30.6). One walk for both ways: of each entry what stands before the
// line of what was mended is copied, then that line as the other form has it is put, then what stands behind it is copied.
#![tactic(auto)]

ghost use Rattle.std.specs.Prelude.{true, ◌≡◌, ◌+◌, ◌≤◌, length, drop};
ghost use Rattle.answer.specs.Writing.{answered, left};
ghost use Rattle.text_lines.specs.Putting.{Put};
ghost use Rattle.day_sheet.specs.Entries.{sheet_text, byte_limit};
ghost use Rattle.day_sheet.specs.Calls.{limited, entries_of};
ghost use Rattle.day_sheet.specs.Internal.{Halfway};
ghost use Rattle.sheet_moves.specs.Moving.{unmended, up_rules, up_text, down_rules, down_text};
ghost use Rattle.sheet_moves.specs.Internal.{move_rules, mark_text, marks_of, front_text, Plainly, Stood};

use answer::{Answer, Reason};
use day_sheet::ENTRIES;
use sheet_entry::Form;

// The bytes of the line `mended=0`.
const MARK: usize = 9;

// A sheet of the old form in the new one, to the front of `out`: each entry with `mended=0`.
pub fn up(old: &[u8], out: &mut [u8]) -> Answer
    ensures answer { result ≡ answered (up_rules old.now) (up_text old.now) out.old }
    ensures output { out.new ≡ left (up_rules old.now) (up_text old.now) out.old }
{
    carry(Form::Old, Form::New, old, out)
}

// A sheet of the new form in the old one, to the front of `out`, where every entry says `mended=0`: a number is never lost.
pub fn down(new: &[u8], out: &mut [u8]) -> Answer
    ensures answer { result ≡ answered (down_rules new.now) (down_text new.now) out.old }
    ensures output { out.new ≡ left (down_rules new.now) (down_text new.now) out.old }
{
    carry(Form::New, Form::Old, new, out)
}

// Both of them.
fn carry(from: Form, to: Form, sheet: &[u8], out: &mut [u8]) -> Answer
    ensures answer { result
        ≡ answered (move_rules from to sheet.now) (sheet_text to (entries_of from sheet.now))
        out.old }
    ensures output { out.new
        ≡ left (move_rules from to sheet.now) (sheet_text to (entries_of from sheet.now))
        out.old }
{
    let held = day_sheet::count(from, sheet)?;
    if !none_mended(from, sheet) {
        return Reason::MendedLost.refuse(0);
    }
    carry_counted(from, to, held, sheet, out)
}

// Whether every entry of a sheet in form has the number 0.
fn none_mended(form: Form, sheet: &[u8]) -> bool
    requires { Halfway form sheet.now 0 }
    ensures { result ≡ unmended (entries_of form sheet.now) }
{
    let mut at = 0;
    // Kept: no count of places: each step is as long as the entry that stands there.
    while let Ok(e) = sheet_entry::entry_at(form, sheet, at, 0) {
        if e.mended != 0 {
            return false;
        }
        at += e.long;
    }
    true
}

// The move of a sheet in form with so many entries, whose numbers are all 0.
fn carry_counted(from: Form, to: Form, count: usize, sheet: &[u8], out: &mut [u8]) -> Answer
    requires { Plainly from sheet.now 0 × (length sheet.now ≤ byte_limit from) × (count ≡ length (entries_of from sheet.now)) }
    ensures answer { result
        ≡ answered (limited to (entries_of from sheet.now)) (sheet_text to (entries_of from sheet.now))
        out.old }
    ensures output { out.new
        ≡ left (limited to (entries_of from sheet.now)) (sheet_text to (entries_of from sheet.now))
        out.old }
{
    if ENTRIES < count {
        return Reason::SheetSize.refuse(0);
    }
    let less = marks(from, count);
    let more = marks(to, count);
    let n = sheet.len() - less + more;
    if day_sheet::limit(to) < n {
        return Reason::SheetSize.refuse(0);
    }
    if out.len() < n {
        return Reason::NoRoom.refuse(0);
    }
    put_carried(from, to, sheet, out);
    Ok(n)
}

// How many bytes the lines of what was mended take of so many entries.
fn marks(form: Form, count: usize) -> usize
    requires { count ≤ 64 }
    ensures { (result ≡ marks_of form count) × (result ≤ 576) }
{
    match form {
        Form::Old => 0,
        Form::New => MARK * count,
    }
}

// Puts the entries, and answers the place after them.
fn put_carried(from: Form, to: Form, sheet: &[u8], out: &mut [u8]) -> usize
    requires { Plainly from sheet.now 0 }
    ensures { Put out.old 0 (sheet_text to (entries_of from sheet.now)) out.new result }
{
    let mut at = 0;
    let mut q = 0;
    // Kept: no count of places, as above; what the two walks share is the step alone.
    while let Ok(e) = sheet_entry::entry_at(from, sheet, at, 0) {
        q = put_entry(from, to, sheet, at, e.long, out, q);
        at += e.long;
    }
    q
}

// Puts the entry at a place, which is so long, and answers the place after it.
fn put_entry(
    from: Form,
    to: Form,
    sheet: &[u8],
    at: usize,
    long: usize,
    out: &mut [u8],
    q: usize,
) -> usize
    requires { Stood from sheet.now at long × (q ≤ 700000) }
    ensures { Put out.old q (front_text to (entries_of from (drop at sheet.now))) out.new result
        × (result ≤ q + long + 9) }
{
    let stamp = listing_reader::number_at(sheet, at, b"stamp=", 4294967295);
    let a = stamp.long;
    let begin = a + marks(from, 1);
    let rest = long - begin;
    lent_bytes::copy(sheet, at, a, out, q);
    let p = put_mark(to, out, q + a);
    lent_bytes::copy(sheet, at + begin, rest, out, p);
    p + rest
}

// Puts the line of the number 0, which the old form doesn't have.
fn put_mark(form: Form, out: &mut [u8], q: usize) -> usize
    requires { q ≤ 800000 }
    ensures { Put out.old q (mark_text form) out.new result × (result ≤ q + 9) }
{
    match form {
        Form::Old => q,
        Form::New => text_lines::put_number(b"mended=", 0, out, q),
    }
}
