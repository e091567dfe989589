// The lines of one key: its own, and those of its table as they stand in a sheet (SCOPE 28.2).
ghost use Rattle.std.specs.Prelude.{◌≡◌, ◌+◌, ◌≤◌, length, drop};
ghost use Rattle.texts.specs.Texts.{same_text};
ghost use Rattle.text_lines.specs.Putting.{Put};
ghost use Rattle.sheet_joins.specs.Internal.{Lies, found_lines};
ghost use Rattle.changes.specs.Lines.{kind_word};
ghost use Rattle.changes.specs.Internal.{kind_in, front_of, key_text, both_text, place_most};

use sheet_entry::Found;

// The longest line of a key, and more.
const LINE: usize = 60;

// Puts what stands of one key in both sheets: nothing, where the tables' lines are the same.
pub(crate) fn put_both(
    first: &[u8],
    i: usize,
    a: Found,
    second: &[u8],
    j: usize,
    b: Found,
    out: &mut [u8],
    q: usize,
) -> usize
    requires { Lies first.now i a × Lies second.now j b × (q ≤ place_most) }
    ensures { Put out.old q (both_text (drop i first.now) a (drop j second.now) b) out.new result }
{
    if same_lines(first, i, a, second, j, b) {
        return q;
    }
    let at = put_key(b"changed=", b.key, out, q);
    let end = put_lines(first, i, a, out, at);
    put_lines(second, j, b, out, end)
}

// Whether two entries have the same lines of their tables.
fn same_lines(first: &[u8], i: usize, a: Found, second: &[u8], j: usize, b: Found) -> bool
    requires { Lies first.now i a × Lies second.now j b }
    ensures { result ≡ same_text (found_lines (drop i first.now) a) (found_lines (drop j second.now) b) }
{
    let from = i + a.head;
    let to = i + (a.long - 1);
    let begin = j + b.head;
    let end = j + (b.long - 1);
    texts::same(&first[from..to], &second[begin..end])
}

// The lines of the table of an entry that was found at a place.
pub(crate) fn put_lines(sheet: &[u8], at: usize, f: Found, out: &mut [u8], q: usize) -> usize
    requires { Lies sheet.now at f × (q ≤ place_most + place_most) }
    ensures { Put out.old q (found_lines (drop at sheet.now) f) out.new result × (result ≤ q + 65000) }
{
    let n = f.long - 1 - f.head;
    lent_bytes::copy(sheet, at + f.head, n, out, q);
    q + n
}

// The line of a key.
pub(crate) fn put_key(name: &[u8], key: usize, out: &mut [u8], q: usize) -> usize
    requires { (length name.now ≤ 8) × (q ≤ place_most) }
    ensures { Put out.old q (key_text name.now key) out.new result × (result ≤ q + 60) }
{
    let mut line = [0u8; LINE];
    let end = put_front(name, key, &mut line);
    text_lines::put_number(&line[..end], key % 65536, out, q)
}

// Its name, its kind and its network, a comma behind each of these.
fn put_front(name: &[u8], key: usize, line: &mut [u8]) -> usize
    requires { length name.now ≤ 8 }
    ensures { Put line.old 0 (front_of name.now key) line.new result × (result ≤ 32) }
{
    let a = text_lines::put(name, line, 0);
    let b = put_word(key, line, a);
    let c = text_lines::put_number(b"", key / 65536 / 2, line, b);
    text_lines::put(b",", line, c - 1)
}

// The word of its kind, and the comma behind it.
fn put_word(key: usize, line: &mut [u8], q: usize) -> usize
    requires { q ≤ 8 }
    ensures { Put line.old q (kind_word (kind_in key)) line.new result × (result ≤ q + 3) }
{
    if key / 65536 % 2 == 1 {
        text_lines::put(b"TI,", line, q)
    } else {
        text_lines::put(b"LI,", line, q)
    }
}
