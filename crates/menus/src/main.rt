// The menus of teletext captures, as a listing: menu `-b N` and what its events link to, `-l N` levels of it (SCOPE 23.10). A capture is a list
// of 42-byte packets: standard input, or each file that is named. Every capture gets a fresh reader and its own listing.
//
// Words that the program is called with are heard twice: first all are judged, then the files are listed.
//
// A line on standard error that tells of a failure begins `menus: `, and one that tells of none `note: `. Once standard output has failed,
// nothing more goes out.
#![tactic(auto)]

mod capture;
mod help;
mod kept;
mod says;

use captures::Source;
use packet::two::Streams;
use std::env::Env;
use std::rt::Files;
use told::Console;
use words::Said;

// The options, five numbers each: letter, form, least, greatest and usual value (words::options).
const OPTIONS: [u32; 30] = [
    109, // m, the magazine
    1, 1, 8, 1, 112, // p, the page: two hex digits
    2, 0, 255, 0xDF, 115, // s, the stream, or two
    3, 0, 15, 1, 97, // a, the application
    1, 0, 31, 1, 98, // b, the block
    1, 0, 65535, 0, 108, // l, the levels
    1, 1, 8, 8,
];

// No task's word, the options, and any number of files.
const TASKS: [u8; 10] = *b" mpsabl *f";

// Where the second hearing stands: the words so far, whether one of them was a name, and whether
// standard output still takes what is written.
#[derive(Drop)]
struct Listed {
    said: Said,
    named: bool,
    sound: bool,
}

// What is asked for of each capture: the menu of a block, and how many levels of it.
#[derive(Clone, Copy)]
pub struct Asked {
    pub setting: Streams,
    pub block: u16,
    pub levels: u8,
}

fn main(rt: HostRuntime) {
    if command_line::is_first(&rt, b"--help") {
        help::put(&rt);
        return;
    }
    if command_line::is_first(&rt, b"--version") {
        told::put_version(&rt, b"menus");
        return;
    }
    let said = command_line::hear_all(&rt, &OPTIONS, &TASKS);
    if words::is_good(&TASKS, said) {
        list_all(&rt, asked_by(said));
        return;
    }
    told::begin(&rt, b"menus");
    told::say(&rt, &help::USAGE);
}

fn asked_by(said: Said) -> Asked {
    Asked {
        setting: command_line::setting(&OPTIONS, said),
        block: (words::value(&OPTIONS, said, 4) % 65536) as u16,
        levels: command_line::byte(&OPTIONS, said, 5),
    }
}

// Lists each file that is named, or standard input where none is.
fn list_all(rt: &(impl Env + Files + Input + Console), asked: Asked) {
    let mut listed = Listed {
        said: words::start(&TASKS),
        named: false,
        sound: true,
    };
    for i in 1..told::argument_count(rt) {
        listed = visit(rt, listed, i, asked);
    }
    if !listed.named {
        let mut source = Source::new(rt.reader());
        capture::list(rt, &mut source, b"standard input", false, asked);
    }
}

// Hears a word again, and lists the file where it is a name.
fn visit(rt: &(impl Env + Files + Console), mut listed: Listed, i: usize, asked: Asked) -> Listed {
    let mut word = io::buffer();
    let heard = command_line::hear(rt, &OPTIONS, &TASKS, listed.said, i, &mut word);
    listed.said = heard.said;
    if heard.place == 0 {
        return listed;
    }
    listed.named = true;
    if listed.sound {
        listed.sound = list_file(rt, &mut word, heard.long, asked);
    }
    listed
}

// Lists the file of a name, which is told with a `?` for each byte that isn't printed. Answers whether standard output took all.
fn list_file(rt: &(impl Files + Console), word: &mut [u8; 4096], n: usize, asked: Asked) -> bool {
    let opened = told::open(rt, told::front(word, n));
    told::plain(word);
    match opened {
        Ok(file) => {
            let mut source = Source::new(file);
            capture::list(rt, &mut source, told::front(word, n), true, asked)
        }
        Err(e) => {
            told::tell(rt, b"menus", told::front(word, n), e);
            true
        }
    }
}
