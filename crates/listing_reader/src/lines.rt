// A line at a place of a sheet (SCOPE 20.6). A value is read from it, spelled, and compared with what stands there: the line is in form
// exactly where the two are the same.
ghost use Rattle.std.specs.Prelude.{◌≡◌, ◌+◌, ◌≤◌, ◌<◌, drop};
ghost use Rattle.texts.specs.Texts.{begins_with};
ghost use Rattle.listing_reader.specs.Lines.{line_of, digits_most, number_from, number_at, kind_at, nibble_of, hex_byte, hex_word, language_in, language_at, page_at};
ghost use Rattle.listing_reader.specs.Internal.{Inside, place_most};

// 11.12.3: the datatype_id of a Language table.
const LI: usize = 7;

// The most digits that a number in form has: a stamp's.
const DIGITS: usize = 10;

// The value that was read, and how long the line is; a line that isn't in form has length 0.
// Kept: a length of 0 for none: `number_at` and its kin of specs/Lines.antt say so, and the value is read all the same.
#[derive(Drop)]
pub struct Line {
    pub value: usize,
    pub long: usize,
}

// A name and a number up to `most`.
pub fn number_at(sheet: &[u8], at: usize, name: &[u8], most: usize) -> Line
    ensures { result ≡ number_at name.now most (drop at sheet.now) }
{
    if sheet.len() <= at {
        return Line { value: 0, long: 0 };
    }
    let from = at + name.len();
    let n = number_from(sheet, from);
    if most < n || !starts_at(sheet, at, name) {
        return Line { value: n, long: 0 };
    }
    let mut text = [0u8; 32];
    let long = text_lines::put_number(b"", n, &mut text, 0);
    if !starts_at(sheet, from, &text[..long]) {
        return Line { value: n, long: 0 };
    }
    Line {
        value: n,
        long: name.len() + long,
    }
}

// `kind=TI`, `kind=LI`.
pub fn kind_at(sheet: &[u8], at: usize) -> Line
    ensures { result ≡ kind_at (drop at sheet.now) }
{
    if starts_at(sheet, at, b"kind=TI\n") {
        return Line {
            value: forms::TI,
            long: 8,
        };
    }
    line_of(sheet, at, LI, b"kind=LI\n")
}

// A language, of three letters or in hex.
// Kept: `page_at` goes the same way by another reader, another printer and a shorter text; closures for the three are no plainer.
pub(crate) fn language_at(sheet: &[u8], at: usize) -> Line
    requires { Inside sheet.now at }
    ensures { result ≡ language_at (drop at sheet.now) }
{
    let w = language_in(sheet, at + 9);
    let mut text = [0u8; 16];
    let long = text_lines::put_language(w, &mut text, 0);
    line_of(sheet, at, w, &text[..long])
}

// A page, in hex.
pub(crate) fn page_at(sheet: &[u8], at: usize) -> Line
    requires { Inside sheet.now at }
    ensures { result ≡ page_at (drop at sheet.now) }
{
    let w = hex_word(sheet, at + 5);
    let mut text = [0u8; 12];
    let long = text_lines::put_page(w, &mut text, 0);
    line_of(sheet, at, w, &text[..long])
}

// The line, where its text stands at the place.
fn line_of(sheet: &[u8], at: usize, value: usize, text: &[u8]) -> Line
    ensures { result ≡ line_of (begins_with text.now (drop at sheet.now)) value text.now }
{
    let long = if starts_at(sheet, at, text) {
        text.len()
    } else {
        0
    };
    Line { value, long }
}

// Whether a text stands at the place.
fn starts_at(sheet: &[u8], at: usize, text: &[u8]) -> bool
    ensures { result ≡ begins_with text.now (drop at sheet.now) }
{
    match sheet.get(at..) {
        Some(rest) => texts::begins(rest, text),
        None => text.is_empty(),
    }
}

// The number of the digits from a place on, of ten at most.
fn number_from(sheet: &[u8], from: usize) -> usize
    ensures { result ≡ number_from digits_most 0 (drop from sheet.now) }
{
    if sheet.len() <= from {
        return 0;
    }
    let mut n = 0;
    for seen in 0..DIGITS {
        let b = lent_bytes::byte_at(sheet, from + seen);
        if b < 48 || 57 < b {
            return n;
        }
        n = n * 10 + (b - 48);
    }
    n
}

// The language at a place: three letters where the line ends behind them, otherwise six hex digits.
fn language_in(sheet: &[u8], i: usize) -> usize
    requires { i ≤ place_most }
    ensures { result ≡ language_in sheet.now i }
{
    if lent_bytes::byte_at(sheet, i + 3) == 10 {
        forms::word_at(sheet, i)
    } else {
        hex_word(sheet, i)
    }
}

// The word of the six hex digits at a place.
fn hex_word(sheet: &[u8], i: usize) -> usize
    requires { i ≤ place_most }
    ensures { result ≡ hex_word sheet.now i }
{
    let high = hex_byte(sheet, i);
    let middle = hex_byte(sheet, i + 2);
    let low = hex_byte(sheet, i + 4);
    ((high * 256 + middle) * 256 + low) % 16777216
}

// The byte of the two hex digits at a place.
fn hex_byte(sheet: &[u8], i: usize) -> usize
    requires { i ≤ place_most + 4 }
    ensures { (result ≡ hex_byte sheet.now i) × (result < 65536) }
{
    nibble_of(lent_bytes::byte_at(sheet, i)) * 16 + nibble_of(lent_bytes::byte_at(sheet, i + 1))
}

// A hex digit's value; of any other byte, some number.
fn nibble_of(b: usize) -> usize
    requires { b < 256 }
    ensures { (result ≡ nibble_of b) × (result < 256) }
{
    if b < 58 {
        b.saturating_sub(48)
    } else {
        b.saturating_sub(87)
    }
}
