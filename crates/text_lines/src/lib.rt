// Text put into lent bytes at a place, piece by piece, as far as there is room: a line each of a name
// and a number, of a language, of a page.
//
// Each call answers the place after what it puts, and that goes on where there is no room, so that one
// walk both measures and writes. At a place past `REACH` nothing is put.
#![tactic(auto)]

pub mod puts;

ghost use Rattle.std.specs.Prelude.{◌≡◌, ◌∷◌, [], ◌++◌, ◌+◌, ◌^◌, ◌≤◌, ◌<◌, length, drop};
ghost use Rattle.text_lines.specs.Lines.{digit_most, decimal, digit as lines_digit, hexed, word_bytes, letter as lines_letter, letters as lines_letters, number_line, language_of, language_line, page_line};
ghost use Rattle.text_lines.specs.Putting.{Put, within};

pub use puts::put;

// No place that a list's lines take is further on.
pub const REACH: usize = 4000000;

// The most digits that a number has.
const DIGITS: usize = 20;

// A line of a name and a number.
pub fn put_number(name: &[u8], n: usize, out: &mut [u8], q: usize) -> usize
    ensures { Put out.old q (within q (number_line name.now n)) out.new result
        × (result ≤ q + length name.now + digit_most + 1) }
{
    if q > REACH {
        return q;
    }
    let at = puts::put(name, out, q);
    put_decimal(n, out, at)
}

// A line of a language.
pub fn put_language(w: usize, out: &mut [u8], q: usize) -> usize
    ensures { Put out.old q (within q (language_line w)) out.new result × (result ≤ q + 16) }
{
    if q > REACH {
        return q;
    }
    let at = puts::put(b"language=", out, q);
    put_name(w, out, at)
}

// A line of a page, in hex.
pub fn put_page(w: usize, out: &mut [u8], q: usize) -> usize
    ensures { Put out.old q (within q (page_line w)) out.new result × (result ≤ q + 12) }
{
    if q > REACH {
        return q;
    }
    let at = puts::put(b"page=", out, q);
    put_hex(w, out, at)
}

// A language, three of a..z as they are, others in hex, and the end of the line.
fn put_name(w: usize, out: &mut [u8], q: usize) -> usize
    requires { q + 7 < 2 ^ 64 }
    ensures { Put out.old q (language_of w ++ (10 ∷ [])) out.new result × (result ≤ q + 7) }
{
    if !letters(w) {
        return put_hex(w, out, q);
    }
    let line = [
        (w / 256 / 256 % 256) as u8,
        (w / 256 % 256) as u8,
        (w % 256) as u8,
        10,
    ];
    puts::put(&line, out, q)
}

// Whether the bytes of a word are three of a..z.
fn letters(w: usize) -> bool
    ensures { result ≡ lines_letters (word_bytes w) }
{
    if !letter(w / 256 / 256 % 256) {
        return false;
    }
    if !letter(w / 256 % 256) {
        return false;
    }
    letter(w % 256)
}

fn letter(b: usize) -> bool
    ensures { result ≡ lines_letter b }
{
    if b < 97 {
        return false;
    }
    b <= 122
}

// A word as its six hex digits, and the end of the line.
fn put_hex(w: usize, out: &mut [u8], q: usize) -> usize
    requires { q + 7 < 2 ^ 64 }
    ensures { Put out.old q (hexed (word_bytes w) ++ (10 ∷ [])) out.new result × (result ≤ q + 7) }
{
    let a = w / 256 / 256 % 256;
    let b = w / 256 % 256;
    let c = w % 256;
    let line = [
        digit(a / 16),
        digit(a % 16),
        digit(b / 16),
        digit(b % 16),
        digit(c / 16),
        digit(c % 16),
        10,
    ];
    puts::put(&line, out, q)
}

fn digit(n: usize) -> u8
    requires { n < 16 }
    ensures { result ≡ lines_digit n }
{
    if n < 10 {
        (48 + n) as u8
    } else {
        (87 + n) as u8
    }
}

// A number in decimal, and the end of the line.
fn put_decimal(n: usize, out: &mut [u8], q: usize) -> usize
    requires { q + digit_most + 1 < 2 ^ 64 }
    ensures { Put out.old q (decimal n ++ (10 ∷ [])) out.new result × (result ≤ q + digit_most + 1) }
{
    let mut line = [10u8; DIGITS + 1];
    let from = set_digits(n, &mut line);
    puts::put(&line[from..], out, q)
}

// Sets a number's digits, the last one at the line's last byte but one, and answers where they begin.
fn set_digits(n: usize, line: &mut [u8]) -> usize
    requires { length line.old ≡ digit_most + 1 }
    ensures { (result < digit_most) × (drop result line.new ≡ decimal n ++ drop digit_most line.old) }
{
    let mut at = DIGITS;
    let mut m = n;
    // Kept: a turn a digit, from the last on; how many there are isn't known before, so a count is no plainer.
    while 10 <= m {
        at -= 1;
        line[at] = (48 + m % 10) as u8;
        m /= 10;
    }
    at -= 1;
    line[at] = (48 + m) as u8;
    at
}
