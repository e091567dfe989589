// The line of a sheet that is at fault, as it is told: its number, and itself (SCOPE 20.17).
ghost use Rattle.std.specs.Prelude.{◌≤◌, length};

use told::{Console, say, say_number};

const LINE_END: u8 = 10;

// So many bytes of a line are told.
const SHOWN: usize = 100;

// Goes on behind an offset: the line that begins there, and that it is at fault.
pub fn say_fault(rt: &impl Console, sheet: &[u8], at: usize) {
    say(rt, b": line ");
    say_number(rt, number(told::front(sheet, at)));
    if sheet.len() <= at {
        say(rt, b" is missing");
        return;
    }
    say(rt, b", \"");
    say_line(rt, &sheet[at..]);
    say(rt, b"\", is out of form or order");
}

// The number of the line behind a text: one more than the lines that end in it.
fn number(text: &[u8]) -> u64 {
    1 + text.iter().filter(|b| **b == LINE_END).count() as u64
}

// The first line of a text, with a `?` for each byte that isn't printed; of a long one its first bytes.
fn say_line(rt: &impl Console, text: &[u8]) {
    let mut line = [0u8; SHOWN];
    let long = length_of(text);
    lent_bytes::copy(text, 0, long, &mut line, 0);
    told::plain(&mut line);
    if long <= SHOWN {
        say(rt, told::front(&line, long));
        return;
    }
    say(rt, &line);
    say(rt, b"..");
}

// How long the first line of a text is, without its end.
fn length_of(text: &[u8]) -> usize
    ensures { result ≤ length text.now }
{
    text.iter()
        .position(|b| *b == LINE_END)
        .unwrap_or(text.len())
}
