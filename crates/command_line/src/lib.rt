// The words that a program was called with, heard by its options and rows (SCOPE 13.12), once for all programs. A program hears them
// twice: first all are judged, then it goes along them once more, word by word, for its names.
#![tactic(auto)]

ghost use Rattle.std.specs.Prelude.{◌≡◌};
ghost use Rattle.command_line.specs.Hearing.{heard_word, setting_by, second_by, byte_of};

use packet::two::Streams;
use std::env::Env;
use words::Said;
use words::options::NO_VALUE;

// Which option the streams are.
const STREAM: usize = 2;

// One word: what the words up to it say, the letter of the place that it takes (0 where it is no name), and how many bytes it has.
#[derive(Drop)]
pub struct Heard {
    pub said: Said,
    pub place: u8,
    pub long: usize,
}

// Whether the first word is this one.
pub fn is_first(rt: &impl Env, word: &[u8]) -> bool {
    let mut first = io::buffer();
    let n = told::argument(rt, 1, &mut first);
    told::front(&first, n) == word
}

// All words.
pub fn hear_all(rt: &impl Env, options: &[u32], tasks: &[u8]) -> Said {
    let mut word = io::buffer();
    let mut said = words::start(tasks);
    for i in 1..told::argument_count(rt) {
        said = hear(rt, options, tasks, said, i, &mut word).said;
    }
    said
}

// One more word, which is left at the start of the buffer.
pub fn hear(
    rt: &impl Env,
    options: &[u32],
    tasks: &[u8],
    said: Said,
    i: usize,
    word: &mut [u8; 4096],
) -> Heard
    ensures { result ≡ heard_word options.now tasks.now said result.long word.new }
{
    let long = told::argument(rt, i, word);
    let place = words::place(tasks, said, told::front(word, long));
    let said = words::next(options, tasks, said, told::front(word, long));
    Heard { said, place, long }
}

// What a reader is set to, where a program's first options are magazine, page, stream and application. Where one stream was said, it stands
// for both.
pub fn setting(options: &[u32], said: Said) -> Streams
    ensures { result ≡ setting_by options.now said }
{
    Streams {
        magazine: byte(options, said, 0),
        page: byte(options, said, 1),
        first: byte(options, said, STREAM),
        second: second(options, said),
        application: byte(options, said, 3),
    }
}

// The second stream, or the first where there is one alone.
fn second(options: &[u32], said: Said) -> u8
    ensures { result ≡ second_by options.now said }
{
    match words::second(said, STREAM) {
        NO_VALUE => byte(options, said, STREAM),
        second => (second % 256) as u8,
    }
}

// The value of option k, of which no program's is over 255 where it asks for a byte.
pub fn byte(options: &[u32], said: Said, k: usize) -> u8
    ensures { result ≡ byte_of options.now said k }
{
    (words::value(options, said, k) % 256) as u8
}
