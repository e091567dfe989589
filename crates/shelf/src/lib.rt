// Menus kept by number (SCOPE 23.9). `shelf` has an entry for each: three bytes that name the entry before it in its row, then its form. `heads` has
// three bytes for each of 256 rows, which name the row's last entry. An entry is named by its place, counted from 1; 0 names none. Both
// lists are the caller's, who begins with heads of zeros and no byte in use.
#![tactic(auto)]

ghost use Rattle.std.specs.Prelude.{◌≡◌, ◌+◌, ◌*◌, ◌≤◌, eqb, leb, length, drop};
ghost use Rattle.std.proofs.lemmas.List.Edits.{sets};
ghost use Rattle.laws.specs.Pick.{both};
ghost use Rattle.shelf.specs.Shelf.{three as shelf_three, three_of, number_in, standing, place_of};
ghost use Rattle.shelf.specs.Putting.{row_in, entry_of, put_answer, heads_after, shelf_after, heads_length, shelf_most};

use answer::{Answer, Reason};

// The rows, and the bytes of their heads.
const ROWS: usize = 256;

pub const HEADS: usize = 768;

// The bytes that name an entry.
const LINK: usize = 3;

// The longest shelf that `put` takes: three bytes name each place.
pub const MOST: usize = 16777215;

// The bytes of a form up to its number.
const NUMBERED: usize = 4;

// The place of the form with a number in the shelf; 0 where there is none, which no form's place is. Any two lists of bytes are taken.
// Kept: 0 and no Option: it is what `place_of` says, and no form stands there.
pub fn find(number: u16, heads: &[u8], shelf: &[u8]) -> usize
    ensures place { result ≡ place_of number heads.now shelf.now }
    ensures within { result ≤ length shelf.now }
{
    let wanted = number as usize;
    let mut p = three(heads, LINK * (wanted % ROWS));
    // Kept: the step is no count: each entry names the one before it.
    while stands(p, shelf) {
        if number_at(shelf, p + 2) == wanted {
            return p + 2;
        }
        let before = three(shelf, p - 1);
        if p <= before {
            return 0;
        }
        p = before;
    }
    0
}

// Puts a form behind the bytes in use and at the head of its row. Where it is accepted, so many bytes more are in use.
pub fn put(form: &[u8], used: usize, heads: &mut [u8], shelf: &mut [u8]) -> Answer
    ensures answer { result ≡ put_answer form.now used heads.old shelf.old }
    ensures heads { heads.new ≡ heads_after form.now used heads.old shelf.old }
    ensures shelf { shelf.new ≡ shelf_after form.now used heads.old shelf.old }
{
    if !is_sized(used, heads, shelf) {
        return Reason::Range.refuse(0);
    }
    if form.len() < NUMBERED {
        return Reason::Length.refuse(0);
    }
    let need = LINK + form.len();
    if shelf.len() - used < need {
        return Reason::NoRoom.refuse(0);
    }
    put_entry(form, used, heads, shelf);
    Ok(need)
}

// Writes the entry of a form, and names it at the head of its row.
fn put_entry(form: &[u8], used: usize, heads: &mut [u8], shelf: &mut [u8])
    requires { (length heads.old ≡ heads_length) × (length shelf.old ≤ shelf_most) × (4 ≤ length form.now) × (used + (3 + length form.now) ≤ length shelf.old) }
    ensures heads { heads.new ≡ sets heads.old (3 * row_in form.now) (three_of (used + 1)) }
    ensures shelf { shelf.new ≡ sets shelf.old used (entry_of form.now heads.old) }
{
    let row = LINK * (number_at(form, 0) % ROWS);
    let last = three(heads, row);
    put_three(used + 1, heads, row);
    put_three(last, shelf, used);
    lent_bytes::copy(form, 0, form.len(), shelf, used + LINK);
}

// Whether the heads are whole, and the bytes in use are within a shelf that isn't too long.
fn is_sized(used: usize, heads: &[u8], shelf: &[u8]) -> bool
    ensures { result
        ≡ both (eqb (length heads.now) heads_length)
        (both (leb used (length shelf.now)) (leb (length shelf.now) shelf_most)) }
{
    heads.len() == HEADS && used <= shelf.len() && shelf.len() <= MOST
}

// Whether the entry named p lies within the shelf.
fn stands(p: usize, shelf: &[u8]) -> bool
    requires { p ≤ shelf_most }
    ensures { result ≡ standing p shelf.now }
{
    1 <= p && p + 6 <= shelf.len()
}

// The number of the menu whose form begins at a place.
fn number_at(list: &[u8], at: usize) -> usize
    requires { at ≤ shelf_most + 2 }
    ensures { result ≡ number_in (drop at list.now) }
{
    lent_bytes::byte_at(list, at + 2) + 256 * lent_bytes::byte_at(list, at + 3)
}

// Three bytes at a place, low byte first.
fn three(list: &[u8], at: usize) -> usize
    requires { at ≤ shelf_most }
    ensures { (result ≡ shelf_three list.now at) × (result ≤ shelf_most) }
{
    let low = lent_bytes::byte_at(list, at);
    let middle = lent_bytes::byte_at(list, at + 1);
    let high = lent_bytes::byte_at(list, at + 2);
    low + 256 * middle + 65536 * high
}

// Writes a number as three bytes.
// Kept: byte by byte: no integer has three.
fn put_three(v: usize, list: &mut [u8], at: usize)
    requires { (v ≤ shelf_most) × (at + 3 ≤ length list.old) }
    ensures { list.new ≡ sets list.old at (three_of v) }
{
    let low = (v % 256) as u8;
    let middle = (v / 256 % 256) as u8;
    let high = (v / 256 / 256 % 256) as u8;
    list[at] = low;
    list[at + 1] = middle;
    list[at + 2] = high;
}
