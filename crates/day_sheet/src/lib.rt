// The day sheet (SCOPE 20): text of all tables, an entry for each key, read, written again and dropped from, in either form (SCOPE 30).
#![tactic(auto)]

pub mod dropping;
mod entries;

ghost use Rattle.std.specs.Prelude.{◌≡◌, ◌≤◌, length};
ghost use Rattle.answer.specs.Rules.{judged};
ghost use Rattle.answer.specs.Values.{refused};
ghost use Rattle.answer.specs.Writing.{answered, left};
ghost use Rattle.std.specs.declared.result.Result.TheVariants.{Ok};
ghost use Rattle.day_sheet.specs.Entries.{byte_limit};
ghost use Rattle.day_sheet.specs.Calls.{entries_of, count_rules, rewrite_rules, rewritten};

use answer::{Answer, Reason};
pub use dropping::drop;
use sheet_entry::Form;

// The limits of a sheet, and of a result: its bytes in the old form and in the new one, its entries.
pub const BYTES: usize = 16384;

pub const NEW_BYTES: usize = 17152;

pub const ENTRIES: usize = 64;

// A sheet, read and written again to the front of `out`: the same bytes.
pub fn rewrite(form: Form, sheet: &[u8], out: &mut [u8]) -> Answer
    ensures answer { result ≡ answered (rewrite_rules form sheet.now) (rewritten form sheet.now) out.old }
    ensures output { out.new ≡ left (rewrite_rules form sheet.now) (rewritten form sheet.now) out.old }
{
    judge(form, sheet)?;
    let n = sheet.len();
    if out.len() < n {
        return Reason::NoRoom.refuse(0);
    }
    lent_bytes::copy(sheet, 0, n, out, 0);
    Ok(n)
}

// 21, 20, 21: whether a sheet can be written again; then its length.
pub fn judge(form: Form, sheet: &[u8]) -> Answer
    ensures { result ≡ judged refused (rewrite_rules form sheet.now) (Ok (length sheet.now)) }
{
    let held = count(form, sheet)?;
    if ENTRIES < held {
        return Reason::SheetSize.refuse(0);
    }
    Ok(sheet.len())
}

// 21, 20: whether a sheet isn't too long and every line of it is in form and in order; then the number of its entries.
pub fn count(form: Form, sheet: &[u8]) -> Answer
    ensures { result ≡ judged refused (count_rules form sheet.now) (Ok (length (entries_of form sheet.now))) }
{
    if limit(form) < sheet.len() {
        return Reason::SheetSize.refuse(0);
    }
    match entries::read(form, sheet) {
        Ok(count) => Ok(count),
        Err(at) => Reason::SheetLine.refuse(at),
    }
}

// The most bytes of a sheet.
pub fn limit(form: Form) -> usize
    ensures { (result ≡ byte_limit form) × (result ≤ 17152) }
{
    match form {
        Form::Old => BYTES,
        Form::New => NEW_BYTES,
    }
}
