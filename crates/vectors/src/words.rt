// Words, numbers and bytes put into a line of text that is lent: each call takes a place in the text and answers the
// place after what it put; what doesn't fit is left out.
ghost use Rattle.io.specs.Counts.{IsPrefixLen};

// Puts a name, and yes or no after it.
pub(crate) fn put_yes(text: &mut [u8], at: usize, name: &[u8], yes: bool) -> usize
    ensures { IsPrefixLen result text.new }
{
    let n = put(text, at, name);
    if yes {
        put(text, n, b"yes")
    } else {
        put(text, n, b"no")
    }
}

// Puts a name, and a number in decimal after it.
pub(crate) fn put_number(text: &mut [u8], at: usize, name: &[u8], number: u64) -> usize
    ensures { IsPrefixLen result text.new }
{
    let n = put(text, at, name);
    let mut digits = [0u8; 20];
    let k = io::decimal(number, &mut digits);
    put(text, n, &digits[..k])
}

// Puts a word into text at a place, and answers the place after it.
pub(crate) fn put(text: &mut [u8], at: usize, word: &[u8]) -> usize
    ensures { IsPrefixLen result text.new }
{
    let at = at.min(text.len());
    let n = word.len().min(text.len() - at);
    text[at..at + n].copy_from_slice(&word[..n]);
    at + n
}

// Puts the first n bytes in hex, lower case, two digits a byte.
pub(crate) fn put_hex(text: &mut [u8], at: usize, bytes: &[u8], n: usize) -> usize
    ensures { IsPrefixLen result text.new }
{
    let mut to = at.min(text.len());
    for b in bytes.iter().take(n) {
        if text.len() - to < 2 {
            return to;
        }
        text[to] = digit(b / 16);
        text[to + 1] = digit(b % 16);
        to += 2;
    }
    to
}

// A digit in hex, lower case.
fn digit(d: u8) -> u8 {
    match d % 16 {
        n @ 0..=9 => b'0' + n,
        n => b'a' - 10 + n,
    }
}
