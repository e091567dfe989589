// The line that a program try_NAME prints for a case: `op=N no=N at=N out=HEX kept=yes`, with ` blocks=N dropped=yes`,
// ` mended=N joined=N` or ` sheet=N` behind it for some calls, or `op=N unknown`;
// for a case that the end of input cuts short it is `short=N`, with the number of bytes left over.
//
// A line is put together in lent space and written to standard output by one call. 131,200 bytes hold the
// longest: 131,072 digits of 65,536 bytes, and what stands before and after them. What doesn't fit is left
// out, but for the line's end. No contract can say what is written to standard output.
ghost use Rattle.io.specs.Counts.{IsPrefixLen};
ghost use Rattle.vectors.specs.Ending.{EndsLine};

use crate::{lent, words};
use answer::Answer;
use std::io::Print;

// What a line tells.
#[derive(Drop)]
pub enum Line {
    // A call's answer.
    Answered {
        op: u8,
        answer: Answer,
    },
    // A fed packet's answer, how many blocks it finished, and whether one was dropped.
    Fed {
        op: u8,
        answer: Answer,
        blocks: usize,
        dropped: bool,
    },
    // A block's answer, how many of its bytes were mended, and its record's second byte.
    Counted {
        op: u8,
        answer: Answer,
        mended: u16,
        joined: u8,
    },
    // The answer of two sheets compared, and the number of the sheet at fault; 0 where it is neither.
    Compared {
        op: u8,
        answer: Answer,
        sheet: usize,
    },
    // An op that the program doesn't know, or whose payload is too short.
    Unknown(u8),
    // So many bytes are left over that are no whole case.
    Short(usize),
}

// Writes a line. A call's has its number and offset, the bytes that it reports as written at the front of
// the lent output, and whether the rest is as before. Answers how long the line is.
pub fn tell(rt: &impl Print, line: Line, out: &[u8], text: &mut [u8]) -> usize
    ensures prefix_len { IsPrefixLen result text.new }
    ensures ends_line { EndsLine result text.new }
{
    let n = put_line(line, out, text);
    let n = end(text, n);
    let _ = rt.write_all(&text[..n]);
    n
}

// Puts a line without its end.
fn put_line(line: Line, out: &[u8], text: &mut [u8]) -> usize
    ensures { IsPrefixLen result text.new }
{
    match line {
        Line::Answered { op, answer } => put_answer(op, answer, out, text),
        Line::Fed {
            op,
            answer,
            blocks,
            dropped,
        } => {
            let n = put_answer(op, answer, out, text);
            let n = words::put_number(text, n, b" blocks=", blocks as u64);
            words::put_yes(text, n, b" dropped=", dropped)
        }
        Line::Counted {
            op,
            answer,
            mended,
            joined,
        } => {
            let n = put_answer(op, answer, out, text);
            let n = words::put_number(text, n, b" mended=", mended as u64);
            words::put_number(text, n, b" joined=", joined as u64)
        }
        Line::Compared { op, answer, sheet } => {
            let n = put_answer(op, answer, out, text);
            put_sheet(sheet, text, n)
        }
        Line::Unknown(op) => {
            let n = words::put_number(text, 0, b"op=", op as u64);
            words::put(text, n, b" unknown")
        }
        Line::Short(left) => words::put_number(text, 0, b"short=", left as u64),
    }
}

// Puts the number of the sheet at fault, where one is.
fn put_sheet(sheet: usize, text: &mut [u8], n: usize) -> usize
    requires { IsPrefixLen n text.old }
    ensures { IsPrefixLen result text.new }
{
    if sheet == 0 {
        return n;
    }
    words::put_number(text, n, b" sheet=", sheet as u64)
}

// Puts a call's answer, up to `kept=yes`.
fn put_answer(op: u8, answer: Answer, out: &[u8], text: &mut [u8]) -> usize
    ensures { IsPrefixLen result text.new }
{
    match answer {
        Ok(written) => put_call(op, 0, 0, out, written, text),
        Err(r) => put_call(op, r.no, r.at, out, 0, text),
    }
}

fn put_call(op: u8, no: u8, at: usize, out: &[u8], written: usize, text: &mut [u8]) -> usize
    ensures { IsPrefixLen result text.new }
{
    let n = words::put_number(text, 0, b"op=", op as u64);
    let n = words::put_number(text, n, b" no=", no as u64);
    let n = words::put_number(text, n, b" at=", at as u64);
    let n = words::put(text, n, b" out=");
    let n = words::put_hex(text, n, out, written);
    words::put_yes(text, n, b" kept=", lent::kept(out, written))
}

// Ends the line that is put up to a place, over its last byte where the text is full.
fn end(text: &mut [u8], at: usize) -> usize
    ensures prefix_len { IsPrefixLen result text.new }
    ensures ends_line { EndsLine result text.new }
{
    if text.is_empty() {
        return 0;
    }
    let last = at.min(text.len() - 1);
    text[last] = b'\n';
    last + 1
}
