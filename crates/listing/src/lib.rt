// A table as the desk's lines (SCOPE 13, 19.7, 26.6).
#![tactic(auto)]

ghost use Rattle.std.specs.Prelude.{IfSome, true, ◌≡◌, ◌+◌, ◌*◌, ◌/◌, ◌<◌, ◌≤◌, ltb, length, get_or, drop};
ghost use Rattle.answer.specs.Writing.{answered, left};
ghost use Rattle.forms.specs.Tables.{per, fits};
ghost use Rattle.forms.specs.Form.{form, words_in, table_in};
ghost use Rattle.forms.specs.Internal.{descriptor_most, form_most};
ghost use Rattle.forms.specs.Writing.{form_rules};
ghost use Rattle.listing.specs.Lines.{kind_line, joined_line, entry_lines, descriptor_line, head_lines, descriptor_lines_of, lines_of};
ghost use Rattle.listing.specs.Internal.{lines_from, head_most, joined_most, entry_most, descriptor_lines_most};
ghost use Rattle.text_lines.specs.Putting.{Put, reach, within};

use answer::{Answer, Reason};
use forms::{OPENING, TI};
use text_lines::REACH;

// What the head's lines say besides the table: how many bytes of its block were mended, and its record's second byte.
#[derive(Clone, Copy)]
struct Head {
    mended: u16,
    second: u8,
}

// The lines of the table of this form, of whose block so many bytes were mended and whose record has this second byte, to the front of `out`.
pub fn list_table(table: &[u8], mended: u16, second: u8, out: &mut [u8]) -> Answer
    ensures answer { result ≡ answered (form_rules table.now) (lines_of mended second (table_in table.now)) out.old }
    ensures output { out.new ≡ left (form_rules table.now) (lines_of mended second (table_in table.now)) out.old }
{
    list(table, Some(Head { mended, second }), out)
}

// Of these lines those from `descriptor=` on, to the front of `out`.
pub fn list_descriptors(table: &[u8], out: &mut [u8]) -> Answer
    ensures answer { result ≡ answered (form_rules table.now) (descriptor_lines_of (table_in table.now)) out.old }
    ensures output { out.new
        ≡ left (form_rules table.now) (descriptor_lines_of (table_in table.now)) out.old }
{
    list(table, None, out)
}

// The line of a table's kind.
pub fn put_kind(kind: usize, out: &mut [u8], q: usize) -> usize
    ensures { Put out.old q (within q (kind_line kind)) out.new result × (result ≤ q + 8) }
{
    if q > REACH {
        return q;
    }
    if kind == TI {
        text_lines::put(b"kind=TI\n", out, q)
    } else {
        text_lines::put(b"kind=LI\n", out, q)
    }
}

// The lines of a table, with those of its head or without.
fn list(table: &[u8], head: Option<Head>, out: &mut [u8]) -> Answer
    requires { IfSome head (λ h. h.mended < 65536) }
    ensures answer { result ≡ answered (form_rules table.now) (lines_from head (table_in table.now)) out.old }
    ensures output { out.new
        ≡ left (form_rules table.now) (lines_from head (table_in table.now)) out.old }
{
    forms::judge_form(table)?;
    if is_short(table, head, out.len()) {
        return Reason::NoRoom.refuse(0);
    }
    Ok(put_lines(table, head, out))
}

// Whether the lines are longer than the room. Nine bytes for each of the form are always enough, and the
// lines are then not measured.
fn is_short(table: &[u8], head: Option<Head>, room: usize) -> bool
    requires { (length table.now ≡ length (form (table_in table.now)))
        × (fits (table_in table.now) ≡ true)
        × IfSome head (λ h. h.mended < 65536) }
    ensures { result ≡ ltb room (length (lines_from head (table_in table.now))) }
{
    room / 9 < table.len() && room < measure(table, head)
}

// How long the lines are: the walk that writes them, with next to no room.
fn measure(table: &[u8], head: Option<Head>) -> usize
    ensures { result ≡ length (lines_from head (table_in table.now)) }
{
    let mut scrap = [0u8; 1];
    put_lines(table, head, &mut scrap)
}

// Puts the lines as far as there is room, and answers how long they are.
fn put_lines(table: &[u8], head: Option<Head>, out: &mut [u8]) -> usize
    ensures { Put out.old 0 (lines_from head (table_in table.now)) out.new result }
{
    match head {
        Some(head) => {
            let at = put_head(table, head, out);
            put_descriptors(table, out, at)
        }
        None => put_descriptors(table, out, 0),
    }
}

// The lines of kind, block, network and mended bytes, and that of the second byte.
fn put_head(table: &[u8], head: Head, out: &mut [u8]) -> usize
    ensures { Put out.old 0 (head_lines head.mended head.second (table_in table.now)) out.new result × (result ≤ head_most) }
{
    let kind = lent_bytes::byte_at(table, 0);
    let block = lent_bytes::byte_at(table, 2) + 256 * lent_bytes::byte_at(table, 3);
    let network = lent_bytes::byte_at(table, 4);
    let a = put_kind(kind, out, 0);
    let b = text_lines::put_number(b"block=", block, out, a);
    let c = text_lines::put_number(b"network=", network, out, b);
    let d = text_lines::put_number(b"mended=", head.mended as usize, out, c);
    put_joined(head.second, out, d)
}

// The line of a second byte of 1; any other gives none.
fn put_joined(second: u8, out: &mut [u8], q: usize) -> usize
    requires { q ≤ reach }
    ensures { Put out.old q (joined_line second) out.new result × (result ≤ q + joined_most) }
{
    if second != 1 {
        return q;
    }
    text_lines::put_number(b"joined=", second as usize, out, q)
}

// The lines from `descriptor=` on.
fn put_descriptors(table: &[u8], out: &mut [u8], q: usize) -> usize
    requires { q ≤ head_most }
    ensures { Put out.old q (descriptor_lines_of (table_in table.now)) out.new result }
{
    let kind = lent_bytes::byte_at(table, 0);
    let mut i = OPENING;
    let mut p = q;
    for _ in 0..lent_bytes::byte_at(table, 5) {
        let entries = lent_bytes::byte_at(table, i + 1);
        p = put_descriptor(table, kind, i, entries, out, p);
        i += 2 + 3 * forms::words_of(kind, entries);
    }
    p
}

// The lines of the descriptor at the place i of a form.
fn put_descriptor(
    table: &[u8],
    kind: usize,
    i: usize,
    entries: usize,
    out: &mut [u8],
    q: usize,
) -> usize
    requires { (i ≤ form_most) × (entries < 256) × (q + descriptor_lines_most ≤ reach) }
    ensures { Put out.old q
        (descriptor_line kind (get_or table.now i 0) (words_in (per kind * entries) (drop (i + 2) table.now)))
        out.new result
        × (result ≤ q + descriptor_lines_most) }
{
    let id = lent_bytes::byte_at(table, i);
    let at = text_lines::put_number(b"descriptor=", id, out, q);
    put_entries(table, kind, i + 2, entries, out, at)
}

// The lines of the k entries from the place `from` of a form on.
fn put_entries(table: &[u8], kind: usize, from: usize, k: usize, out: &mut [u8], q: usize) -> usize
    requires { (from ≤ form_most + 2) × (k < 256) × (q + entry_most * k ≤ reach) }
    ensures { Put out.old q (entry_lines kind (words_in (per kind * k) (drop from table.now))) out.new result
        × (result ≤ q + entry_most * k) }
{
    let step = 3 * forms::words_of(kind, 1);
    let mut i = from;
    let mut p = q;
    for _ in 0..k {
        p = put_entry(table, kind, i, out, p);
        i += step;
    }
    p
}

// The lines of the entry at the place i of a form.
fn put_entry(table: &[u8], kind: usize, i: usize, out: &mut [u8], q: usize) -> usize
    requires { (i ≤ form_most + descriptor_most) × (q + entry_most ≤ reach) }
    ensures { Put out.old q (entry_lines kind (words_in (per kind) (drop i table.now))) out.new result
        × (result ≤ q + entry_most) }
{
    let at = text_lines::put_language(forms::word_at(table, i), out, q);
    if kind != TI {
        return at;
    }
    text_lines::put_page(forms::word_at(table, i + 3), out, at)
}
