// What a program can be told, as data, which it lends with each call (SCOPE 13.12).
//
//   options   five numbers an option, at most eight options: its letter, its form, its least and greatest value, its usual one
//   tasks     rows, each ended by an LF: the task's word, a space, the letters of the options that it takes, a space, its places
//
// A place is `s` a stamp, `k` a kind, `n` a number up to 255, `b` one up to 65535; any other letter is a file, so that a program can tell
// its files apart. `+` stands before the places that come once or more, `*` before those that come any number of times. A program
// without tasks has one row without a word: the desk's is ` mpsav *f`, and the sheet's first `add mpsa f+sc`.
//
// One word is heard at a time. The program hears them all, and asks is_good, before it opens anything; then it goes through them again
// for the names, and asks of each which place it takes.
#![tactic(auto)]

pub mod numbers;
pub mod options;
pub mod places;
mod rows;

ghost use Rattle.std.specs.Prelude.{◌≡◌};
ghost use Rattle.laws.specs.Pick.{pick};
ghost use Rattle.texts.specs.Texts.{same_text};
ghost use Rattle.words.specs.Rows.{word_at};
ghost use Rattle.words.specs.Words.{start_said, heard, place_of, is_good, value_at, second_at, chosen, heard_option, heard_letter, heard_last, named, is_name, letter_now, is_whole};

pub use numbers::{kind_of, number_of};
pub use places::Spot;

// What may come next.
#[derive(Clone, Copy)]
pub enum Stage {
    // The word of a task.
    Task,
    // An option, `--` or a name.
    Options,
    // The value of that option.
    Value(usize),
    // A name or `--`, but no option: a name came.
    Names,
    // A name, whatever it looks like: `--` came.
    AllNames,
    // Nothing: a word was bad.
    Bad,
}

// What the words heard so far say: what may come next, where the task's row begins, where the next name stands in it, and the values. Of
// option k they stand at 2 k and, the second of a pair, at 2 k + 1.
#[derive(Clone, Copy)]
pub struct Said {
    pub stage: Stage,
    pub row: usize,
    pub spot: Spot,
    pub values: [u32; 16],
}

const DASH: u8 = b'-';

// Nothing is heard yet. Where the first row has no word, the program has no tasks.
pub fn start(tasks: &[u8]) -> Said
    ensures { result ≡ start_said tasks.now }
{
    let stage = if places::byte_at(tasks, 0) == b' ' {
        Stage::Options
    } else {
        Stage::Task
    };
    Said {
        stage,
        row: 0,
        spot: Spot { at: 0, group: 0 },
        values: [options::NO_VALUE; 16],
    }
}

// One more word is heard.
pub fn next(options: &[u32], tasks: &[u8], said: Said, word: &[u8]) -> Said
    ensures { result ≡ heard options.now tasks.now said word.now said.stage }
{
    let stage = said.stage;
    match stage {
        Stage::Task => choose(tasks, said, word),
        Stage::Options => hear(options, tasks, said, word),
        Stage::Value(k) => options::say(options, said, k, word),
        Stage::Names => hear_last(tasks, said, word),
        Stage::AllNames => name(tasks, said, Stage::AllNames, word),
        Stage::Bad => said,
    }
}

// The letter of the place that the word takes, if it is heard next; 0 where it is no name.
pub fn place(tasks: &[u8], said: Said, word: &[u8]) -> u8
    ensures { result ≡ place_of tasks.now said word.now said.stage }
{
    let stage = said.stage;
    match stage {
        Stage::Options | Stage::Names => place_of_name(tasks, said, word),
        Stage::AllNames => letter(tasks, said),
        Stage::Task | Stage::Value(_) | Stage::Bad => 0,
    }
}

// Whether the words may end here: a task was said, none was bad, no option lacks its value, and every name came.
pub fn is_good(tasks: &[u8], said: Said) -> bool
    ensures { result ≡ is_good tasks.now said said.stage }
{
    let stage = said.stage;
    match stage {
        Stage::Options | Stage::Names | Stage::AllNames => is_whole(tasks, said),
        Stage::Task | Stage::Value(_) | Stage::Bad => false,
    }
}

// Whether the task is this one; a program asks it once the words are good.
pub fn is_task(tasks: &[u8], said: Said, word: &[u8]) -> bool
    ensures { result ≡ same_text word.now (word_at tasks.now said.row) }
{
    rows::has_word(tasks, said.row, word)
}

// The value of option k: what was said last, or the usual one.
pub fn value(options: &[u32], said: Said, k: usize) -> u32
    ensures { result ≡ value_at options.now said k }
{
    if k >= options::OPTIONS {
        return options::NO_VALUE;
    }
    let i = 2 * k;
    let value = said.values[i];
    if value != options::NO_VALUE {
        return value;
    }
    options::entry(options, 5 * k + 4)
}

// The second of the two numbers that were said last for option k; NO_VALUE where there was one or none.
pub fn second(said: Said, k: usize) -> u32
    ensures { result ≡ second_at said k }
{
    if k >= options::OPTIONS {
        return options::NO_VALUE;
    }
    let i = 2 * k + 1;
    said.values[i]
}

// The word of a task.
fn choose(tasks: &[u8], said: Said, word: &[u8]) -> Said
    ensures { result ≡ chosen tasks.now said word.now }
{
    let row = rows::row_of(tasks, word);
    if row >= tasks.len() {
        return options::bad(said);
    }
    Said {
        stage: Stage::Options,
        row,
        ..said
    }
}

// A word where options may stand.
fn hear(options: &[u32], tasks: &[u8], said: Said, word: &[u8]) -> Said
    ensures { result ≡ heard_option options.now tasks.now said word.now }
{
    if word.len() != 2 {
        return hear_last(tasks, said, word);
    }
    if word[0] != DASH {
        return hear_last(tasks, said, word);
    }
    if word[1] == DASH {
        return hear_last(tasks, said, word);
    }
    hear_letter(options, tasks, said, word[1])
}

// The letter of an option.
fn hear_letter(options: &[u32], tasks: &[u8], said: Said, letter: u8) -> Said
    ensures { result ≡ heard_letter options.now tasks.now said letter }
{
    let k = options::option_of(options, letter);
    if k >= options::OPTIONS {
        return options::bad(said);
    }
    if !rows::takes(tasks, said.row, letter) {
        return options::bad(said);
    }
    if options::form_of(options, k) == options::FLAG {
        return options::put_one(options, said, k, 1);
    }
    options::to_stage(said, Stage::Value(k))
}

// A word where only a name or `--` may stand.
fn hear_last(tasks: &[u8], said: Said, word: &[u8]) -> Said
    ensures { result ≡ heard_last tasks.now said word.now }
{
    if looks_like_name(word) {
        return name(tasks, said, Stage::Names, word);
    }
    if !texts::same(word, b"--") {
        return options::bad(said);
    }
    options::to_stage(said, Stage::AllNames)
}

// A name, and what may come behind it.
fn name(tasks: &[u8], said: Said, stage: Stage, word: &[u8]) -> Said
    ensures { result ≡ named tasks.now said stage word.now }
{
    let spot = said.spot;
    let places = rows::places(tasks, said.row);
    if !places::fits(places::letter_at(places, spot), word) {
        return options::bad(said);
    }
    let spot = places::after(places, spot);
    Said {
        stage,
        spot,
        ..said
    }
}

fn place_of_name(tasks: &[u8], said: Said, word: &[u8]) -> u8
    ensures { result ≡ pick (is_name word.now) (letter_now tasks.now said) 0 }
{
    if looks_like_name(word) {
        letter(tasks, said)
    } else {
        0
    }
}

fn letter(tasks: &[u8], said: Said) -> u8
    ensures { result ≡ letter_now tasks.now said }
{
    places::letter_at(rows::places(tasks, said.row), said.spot)
}

fn is_whole(tasks: &[u8], said: Said) -> bool
    ensures { result ≡ is_whole tasks.now said }
{
    places::may_end(rows::places(tasks, said.row), said.spot)
}

// Whether a word doesn't begin with `-`.
fn looks_like_name(word: &[u8]) -> bool
    ensures { result ≡ is_name word.now }
{
    word.is_empty() || word[0] != DASH
}
