// The subtitles of teletext captures, for digital sets: each TI table that comes as a teletext descriptor, on a line of its own (SCOPE 29). A
// capture is a list of 42-byte packets: standard input, or each file that is named. Every capture gets a fresh reader and its own lines.
//
// Words that the program is called with are heard twice: first all are judged, then the files are listed.
//
// A line on standard error that tells of a failure begins `dvb: `. Once standard output has failed, nothing more goes out.
#![tactic(auto)]

mod capture;
mod help;
mod says;

use captures::Source;
use packet::two::Streams;
use std::env::Env;
use std::rt::Files;
use told::Console;
use words::Said;

// The options, five numbers each: letter, form, least, greatest and usual value (words::options).
const OPTIONS: [u32; 20] = [
    109, // m, the magazine
    1, 1, 8, 1, 112, // p, the page: two hex digits
    2, 0, 255, 0xDF, 115, // s, the stream, or two
    3, 0, 15, 1, 97, // a, the application
    1, 0, 31, 1,
];

// No task's word, the options, and any number of files.
const TASKS: [u8; 8] = *b" mpsa *f";

// Where the second hearing stands: the words so far, whether one of them was a name, and whether
// standard output still takes what is written.
#[derive(Drop)]
struct Listed {
    said: Said,
    named: bool,
    sound: bool,
}

fn main(rt: HostRuntime) {
    if command_line::is_first(&rt, b"--help") {
        help::put(&rt);
        return;
    }
    if command_line::is_first(&rt, b"--version") {
        told::put_version(&rt, b"dvb");
        return;
    }
    let said = command_line::hear_all(&rt, &OPTIONS, &TASKS);
    if words::is_good(&TASKS, said) {
        list_all(&rt, command_line::setting(&OPTIONS, said));
        return;
    }
    told::begin(&rt, b"dvb");
    told::say(&rt, &help::USAGE);
}

// Lists each file that is named, or standard input where none is.
fn list_all(rt: &(impl Env + Files + Input + Console), setting: Streams) {
    let mut listed = Listed {
        said: words::start(&TASKS),
        named: false,
        sound: true,
    };
    for i in 1..told::argument_count(rt) {
        listed = visit(rt, listed, i, setting);
    }
    if !listed.named {
        let mut source = Source::new(rt.reader());
        capture::list(rt, &mut source, b"standard input", false, setting);
    }
}

// Hears a word again, and lists the file where it is a name.
fn visit(
    rt: &(impl Env + Files + Console),
    mut listed: Listed,
    i: usize,
    setting: Streams,
) -> Listed {
    let mut word = io::buffer();
    let heard = command_line::hear(rt, &OPTIONS, &TASKS, listed.said, i, &mut word);
    listed.said = heard.said;
    if heard.place == 0 {
        return listed;
    }
    listed.named = true;
    if listed.sound {
        listed.sound = list_file(rt, &mut word, heard.long, setting);
    }
    listed
}

// Lists the file of a name, which is told with a `?` for each byte that isn't printed. Answers whether standard output took all.
fn list_file(
    rt: &(impl Files + Console),
    word: &mut [u8; 4096],
    n: usize,
    setting: Streams,
) -> bool {
    let opened = told::open(rt, told::front(word, n));
    told::plain(word);
    match opened {
        Ok(file) => {
            let mut source = Source::new(file);
            capture::list(rt, &mut source, told::front(word, n), true, setting)
        }
        Err(e) => {
            told::tell(rt, b"dvb", told::front(word, n), e);
            true
        }
    }
}
