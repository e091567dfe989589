// Two sheets held side by side: what changed from the first to the second goes to standard output in one piece (SCOPE 28.7). No file changes.
use crate::files::SHEET;
use crate::help::PROGRAM;
use crate::says;
use captures::{Got, Source};
use sheet_entry::Form;
use sheet_file::modes;
use std::rt::Files;
use told::Console;

// The most that is printed: two sheets together.
const PRINT: usize = 34304;

// Compares the sheets of two names.
pub fn compare(
    rt: &(impl Files + Console),
    name: &mut [u8; 4096],
    n: usize,
    other: &mut [u8; 4096],
    m: usize,
) {
    let mut first = [0u8; SHEET];
    let mut second = [0u8; SHEET];
    let Some(a) = open(rt, name, n, &mut first) else {
        return;
    };
    let Some(b) = open(rt, other, m, &mut second) else {
        return;
    };
    print(rt, name, n, &first, a, other, m, &second, b);
}

// Reads the sheet of a name, and answers how long it is. What can't be read, or is no plain file, is told.
fn open(
    rt: &(impl Files + Console),
    word: &mut [u8; 4096],
    n: usize,
    sheet: &mut [u8; SHEET],
) -> Option<usize> {
    let opened = modes::open_plain(rt, told::front(word, n));
    told::plain(word);
    match opened {
        Ok(Some(file)) => {
            let mut source = Source::new(file);
            fill(rt, &mut source, told::front(word, n), sheet)
        }
        Ok(None) => {
            says::tell(rt, told::front(word, n), b"it is no plain file");
            None
        }
        Err(why) => {
            says::fail(rt, told::front(word, n), b"it can't be opened", why);
            None
        }
    }
}

fn fill<F: std::io::Read>(
    rt: &impl Console,
    source: &mut Source<F>,
    name: &[u8],
    sheet: &mut [u8; SHEET],
) -> Option<usize> {
    let got = captures::fill(source, sheet);
    let Got::Bytes(length) = got else {
        says::fail(rt, name, b"it can't be read", source.why);
        return None;
    };
    Some(length)
}

// Prints what changed, or tells which sheet is at fault.
fn print(
    rt: &impl Console,
    name: &[u8; 4096],
    n: usize,
    first: &[u8; SHEET],
    a: usize,
    other: &[u8; 4096],
    m: usize,
    second: &[u8; SHEET],
    b: usize,
) {
    let mut out = [0u8; PRINT];
    let first = told::front(first, a);
    let second = told::front(second, b);
    let found = changes::compare(Form::New, first, second, &mut out);
    let sheet = found.sheet;
    let answer = found.answer;
    match answer {
        Ok(n) => {
            told::put(rt, &PROGRAM, told::front(&out, n));
        }
        Err(r) => {
            if sheet == 2 {
                says::refuse_compared(rt, told::front(other, m), r.no, r.at, second);
                return;
            }
            says::refuse_compared(rt, told::front(name, n), r.no, r.at, first);
        }
    }
}
