// Whether teletext captures carry a lawful guide: the verdict of annex D on the blocks that count, and how many count of each kind that can fail
// (SCOPE 31). A capture is a list of 42-byte packets: standard input, or each file that is named. Every capture gets a fresh reader and its own
// verdict.
//
// Words that the program is called with are heard twice: first all are judged, then the files are.
//
// A line on standard error that tells of a failure begins `lawful: `; a capture that isn't lawful is one. Once standard output has failed, nothing
// more goes out.
#![tactic(auto)]

mod capture;
mod help;
mod kept;
mod says;

use captures::Source;
use packet::two::Streams;
use std::env::Env;
use std::rt::Files;
use told::Console;
use words::Said;

// The options, five numbers each: letter, form, least, greatest and usual value (words::options).
const OPTIONS: [u32; 20] = [
    109, // m, the magazine
    1, 1, 8, 1, 112, // p, the page: two hex digits
    2, 0, 255, 0xDF, 115, // s, the stream, or two
    3, 0, 15, 1, 97, // a, the application
    1, 0, 31, 1,
];

// No task's word, the options, and any number of files.
const TASKS: [u8; 8] = *b" mpsa *f";

// Where the second hearing stands: the words so far, whether one of them was a name, and whether
// standard output still takes what is written.
#[derive(Drop)]
struct Judged {
    said: Said,
    named: bool,
    sound: bool,
}

fn main(rt: HostRuntime) {
    if command_line::is_first(&rt, b"--help") {
        help::put(&rt);
        return;
    }
    if command_line::is_first(&rt, b"--version") {
        told::put_version(&rt, b"lawful");
        return;
    }
    let said = command_line::hear_all(&rt, &OPTIONS, &TASKS);
    if words::is_good(&TASKS, said) {
        judge_all(&rt, command_line::setting(&OPTIONS, said));
        return;
    }
    told::begin(&rt, b"lawful");
    told::say(&rt, &help::USAGE);
}

// Judges each file that is named, or standard input where none is.
fn judge_all(rt: &(impl Env + Files + Input + Console), setting: Streams) {
    let mut judged = Judged {
        said: words::start(&TASKS),
        named: false,
        sound: true,
    };
    for i in 1..told::argument_count(rt) {
        judged = visit(rt, judged, i, setting);
    }
    if !judged.named {
        let mut source = Source::new(rt.reader());
        capture::judge(rt, &mut source, b"standard input", false, setting);
    }
}

// Hears a word again, and judges the file where it is a name.
fn visit(
    rt: &(impl Env + Files + Console),
    mut judged: Judged,
    i: usize,
    setting: Streams,
) -> Judged {
    let mut word = io::buffer();
    let heard = command_line::hear(rt, &OPTIONS, &TASKS, judged.said, i, &mut word);
    judged.said = heard.said;
    if heard.place == 0 {
        return judged;
    }
    judged.named = true;
    if judged.sound {
        judged.sound = judge_file(rt, &mut word, heard.long, setting);
    }
    judged
}

// Judges the file of a name, which is told with a `?` for each byte that isn't printed. Answers whether standard output took all.
fn judge_file(
    rt: &(impl Files + Console),
    word: &mut [u8; 4096],
    n: usize,
    setting: Streams,
) -> bool {
    let opened = told::open(rt, told::front(word, n));
    told::plain(word);
    match opened {
        Ok(file) => {
            let mut source = Source::new(file);
            capture::judge(rt, &mut source, told::front(word, n), true, setting)
        }
        Err(e) => {
            told::tell(rt, b"lawful", told::front(word, n), e);
            true
        }
    }
}
