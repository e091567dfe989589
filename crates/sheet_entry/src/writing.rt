// The text of an entry (SCOPE 20.2 to 20.4, 30.1), of a table form, its stamp and what was mended of it.
ghost use Rattle.std.specs.Prelude.{◌≡◌, [], ◌+◌, ◌≤◌, length};
ghost use Rattle.answer.specs.Rules.{judged};
ghost use Rattle.answer.specs.Values.{refused};
ghost use Rattle.answer.specs.Writing.{answered, left};
ghost use Rattle.forms.specs.Form.{table_in};
ghost use Rattle.text_lines.specs.Putting.{Put};
ghost use Rattle.listing.specs.Lines.{kind_line, descriptor_lines_of};
ghost use Rattle.sheet_entry.specs.Entries.{head_lines, entry_text, mended_head, mended_most};
ghost use Rattle.sheet_entry.specs.Writing.{stamped, entry_rules};
ghost use Rattle.sheet_entry.specs.Internal.{Judged, head_room, entry_room};

use crate::{Form, MENDED};
use answer::{Answer, Reason};

// The longest entry, of both forms.
pub const ENTRY: usize = 5936;

// The entry of a table form, its stamp and what was mended of it, to the front of `out`.
pub fn write_entry(form: Form, stamp: u32, mended: u16, table: &[u8], out: &mut [u8]) -> Answer
    ensures answer { result
        ≡ answered (entry_rules form mended table.now) (entry_text form (stamped stamp mended table.now))
        out.old }
    ensures output { out.new
        ≡ left (entry_rules form mended table.now) (entry_text form (stamped stamp mended table.now))
        out.old }
{
    judge_entry(form, mended as usize, table)?;
    write_judged(form, stamp, mended as usize, table, out)
}

// Which of the rules refuses, but for the room.
fn judge_entry(form: Form, mended: usize, table: &[u8]) -> Answer
    ensures { result ≡ judged refused (entry_rules form mended table.now) (Ok 0) }
{
    forms::judge_form(table)?;
    if mended_most(form) < mended {
        return Reason::Value.refuse(0);
    }
    Ok(0)
}

// The greatest number that a form can say.
pub(crate) fn mended_most(form: Form) -> usize
    ensures { result ≡ mended_most form }
{
    match form {
        Form::Old => 0,
        Form::New => MENDED,
    }
}

// The same, of what was judged.
fn write_judged(form: Form, stamp: u32, mended: usize, table: &[u8], out: &mut [u8]) -> Answer
    requires { Judged table.now × (mended ≤ mended_most form) }
    ensures answer { result ≡ answered [] (entry_text form (stamped stamp mended table.now)) out.old }
    ensures output { out.new ≡ left [] (entry_text form (stamped stamp mended table.now)) out.old }
{
    let mut text = [0u8; ENTRY];
    let n = put_entry(form, stamp, mended, table, &mut text);
    if out.len() < n {
        return Reason::NoRoom.refuse(0);
    }
    lent_bytes::copy(&text, 0, n, out, 0);
    Ok(n)
}

// Puts the text of an entry, and answers how long it is.
fn put_entry(form: Form, stamp: u32, mended: usize, table: &[u8], out: &mut [u8]) -> usize
    requires { Judged table.now × (mended ≤ mended_most form) × (length out.old ≡ entry_room) }
    ensures { Put out.old 0 (entry_text form (stamped stamp mended table.now)) out.new result × (result ≤ entry_room) }
{
    let at = put_head(form, stamp, mended, table, out);
    let end = put_table(table, out, at);
    text_lines::put(b"\n", out, end)
}

// The lines of stamp, what was mended, kind, network and block.
fn put_head(form: Form, stamp: u32, mended: usize, table: &[u8], out: &mut [u8]) -> usize
    requires { mended ≤ mended_most form }
    ensures { Put out.old 0 (head_lines form (stamped stamp mended table.now)) out.new result × (result ≤ head_room) }
{
    let kind = lent_bytes::byte_at(table, 0);
    let block = lent_bytes::byte_at(table, 2) + 256 * lent_bytes::byte_at(table, 3);
    let network = lent_bytes::byte_at(table, 4);
    let a = text_lines::put_number(b"stamp=", stamp as usize, out, 0);
    let b = put_mended(form, mended, out, a);
    let c = listing::put_kind(kind, out, b);
    let d = text_lines::put_number(b"network=", network, out, c);
    text_lines::put_number(b"block=", block, out, d)
}

// The line of what was mended, which the old form doesn't have.
fn put_mended(form: Form, mended: usize, out: &mut [u8], q: usize) -> usize
    requires { q ≤ 100 }
    ensures { Put out.old q ((mended_head form).text mended) out.new result × (result ≤ q + 100) }
{
    match form {
        Form::Old => q,
        Form::New => text_lines::put_number(b"mended=", mended, out, q),
    }
}

// The table's lines from a place on, where there is room for them.
fn put_table(table: &[u8], out: &mut [u8], at: usize) -> usize
    requires { Judged table.now × (length out.old ≡ entry_room) × (at ≤ head_room) }
    ensures { Put out.old at (descriptor_lines_of (table_in table.now)) out.new result × (result + 1 ≤ entry_room) }
{
    match listing::list_descriptors(table, &mut out[at..]) {
        Ok(n) => at + n,
        Err(_) => at,
    }
}
