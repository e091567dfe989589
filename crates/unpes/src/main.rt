// PES packets, one after the other, each as long as its own length field says, to the 42-byte packets that they
// carry, on standard output, ready for the desk. They come from standard input, or from each file that is named.
//
// A refused PES packet is a loss that no reader could see: with the packets before and after it fitting, the halves of
// two tables could join. So ONE packet that can't be decoded goes out for each, all 16 hex, and a reader drops what it
// holds. So does one for each place where no packet begins, for a packet that is cut short, and between two files.
// The last line on standard error counts the packets read, those refused with their numbers, and the bytes left over.
//
// A line on standard error that tells of a failure begins `unpes: `. Once standard output has failed, nothing more goes
// out: a packet that is missing in the middle is what nobody could see.
#![tactic(auto)]

mod capture;
mod help;

use capture::Tally;
use std::env::Env;
use std::rt::Files;
use told::Console;
use words::Said;

// What the program can be told: no options, and any number of files.
const OPTIONS: [u32; 0] = [];

const ROWS: [u8; 5] = *b"  *f\n";

// Where the second hearing stands: the words so far, whether one of them was a name, and the counts.
#[derive(Drop)]
struct Unpacked {
    said: Said,
    named: bool,
    tally: Tally,
}

fn main(rt: HostRuntime) {
    if command_line::is_first(&rt, b"--help") {
        help::put(&rt);
        return;
    }
    if command_line::is_first(&rt, b"--version") {
        told::put_version(&rt, &help::PROGRAM);
        return;
    }
    if !words::is_good(&ROWS, command_line::hear_all(&rt, &OPTIONS, &ROWS)) {
        told::begin(&rt, &help::PROGRAM);
        told::say(&rt, &help::USAGE);
        return;
    }
    let mut seen = [false; 17];
    let tally = unpack_all(&rt, &mut seen);
    if tally.sound {
        capture::sum_up(&rt, tally, &seen);
    }
}

// Goes through each file that is named, or standard input where none is.
fn unpack_all(rt: &(impl Env + Files + Input + Console), seen: &mut [bool; 17]) -> Tally {
    let count = told::argument_count(rt);
    let mut unpacked = Unpacked {
        said: words::start(&ROWS),
        named: false,
        tally: capture::none(),
    };
    for i in 1..count {
        unpacked = visit(rt, unpacked, i, seen);
    }
    let tally = unpacked.tally;
    if unpacked.named {
        return tally;
    }
    capture::unpack(rt, &mut rt.reader(), b"standard input", tally, seen)
}

// Hears a word again, and goes through the file where it is a name.
fn visit(
    rt: &(impl Env + Files + Console),
    unpacked: Unpacked,
    i: usize,
    seen: &mut [bool; 17],
) -> Unpacked {
    let mut word = io::buffer();
    let tally = unpacked.tally;
    let heard = command_line::hear(rt, &OPTIONS, &ROWS, unpacked.said, i, &mut word);
    let said = heard.said;
    if heard.place == 0 {
        return Unpacked {
            said,
            named: unpacked.named,
            tally,
        };
    }
    let tally = unpack_file(rt, &mut word, heard.long, tally, seen);
    Unpacked {
        said,
        named: true,
        tally,
    }
}

// Goes through the file of a name, unless standard output failed before.
fn unpack_file(
    rt: &(impl Files + Console),
    word: &mut [u8; 4096],
    n: usize,
    tally: Tally,
    seen: &mut [bool; 17],
) -> Tally {
    if !tally.sound {
        return tally;
    }
    let opened = told::open(rt, told::front(word, n));
    told::plain(word);
    match opened {
        Ok(mut file) => capture::unpack(rt, &mut file, told::front(word, n), tally, seen),
        Err(e) => {
            told::tell(rt, &help::PROGRAM, told::front(word, n), e);
            tally
        }
    }
}
