// A program's options: five numbers each, its letter, its form, its least and its greatest value, and its usual one.
ghost use Rattle.std.specs.Prelude.{◌≡◌, true, ◌≤◌, get_or};
ghost use Rattle.words.specs.Options.{option_of, form_of, is_in, put_one, put_two, said_by, kept, to_stage, bad};

use crate::{Said, Stage, numbers, rows};

// How many options a program may have.
pub(crate) const OPTIONS: usize = 8;

// The forms: no value, two hex digits, one or two different numbers with a comma between. Any other form is a decimal number.
pub(crate) const FLAG: u32 = 0;

const HEX_PAIR: u32 = 2;

const PAIR: u32 = 3;

const COMMA: u8 = b',';

// No value was said.
// Kept: it is the number of the definition `value_at`, and the values stand in one array of fixed length (no heap).
pub const NO_VALUE: u32 = 4294967295;

// The number of the option with a letter, OPTIONS where there is none.
// Kept: OPTIONS is what the definition `option_of` answers, not a None.
pub(crate) fn option_of(options: &[u32], letter: u8) -> usize
    ensures { result ≡ option_of options.now letter }
{
    for k in 0..OPTIONS {
        if entry(options, 5 * k) == letter as u32 {
            return k;
        }
    }
    OPTIONS
}

// The form of an option.
pub(crate) fn form_of(options: &[u32], k: usize) -> u32
    ensures { result ≡ form_of options.now k }
{
    if k >= OPTIONS {
        return FLAG;
    }
    entry(options, 5 * k + 1)
}

// The option is set to what the word says.
pub(crate) fn say(options: &[u32], said: Said, k: usize, word: &[u8]) -> Said
    ensures { result ≡ said_by options.now said k word.now }
{
    let form = form_of(options, k);
    if form == HEX_PAIR {
        return put_one(options, said, k, numbers::hex_pair(word));
    }
    if form != PAIR {
        return put_one(options, said, k, numbers::decimal(word));
    }
    if rows::before(word, COMMA) >= word.len() {
        return put_one(options, said, k, numbers::decimal(word));
    }
    let first = numbers::decimal(rows::up_to(word, COMMA));
    let second = numbers::decimal(rows::behind(word, COMMA));
    put_two(options, said, k, first, second)
}

// One number; a bad word where the option doesn't take it.
pub(crate) fn put_one(options: &[u32], said: Said, k: usize, number: u64) -> Said
    ensures { result ≡ put_one options.now said k number }
{
    if !is_in(options, k, number) {
        return bad(said);
    }
    keep(said, k, number as u32, NO_VALUE)
}

// Two numbers; a bad word where the option doesn't take each, or they are the same.
fn put_two(options: &[u32], said: Said, k: usize, first: u64, second: u64) -> Said
    ensures { result ≡ put_two options.now said k first second }
{
    if !is_in(options, k, first) {
        return bad(said);
    }
    if !is_in(options, k, second) {
        return bad(said);
    }
    if first == second {
        return bad(said);
    }
    keep(said, k, first as u32, second as u32)
}

// The option has these two numbers, and options may follow.
fn keep(said: Said, k: usize, first: u32, second: u32) -> Said
    requires { k ≤ 7 }
    ensures { result ≡ kept said k first second }
{
    let mut values = said.values;
    let i = 2 * k;
    let j = i + 1;
    values[i] = first;
    values[j] = second;
    Said {
        stage: Stage::Options,
        values,
        ..said
    }
}

// Whether an option takes a number.
fn is_in(options: &[u32], k: usize, number: u64) -> bool
    ensures { (result ≡ is_in options.now k number) × (result ≡ true → (k ≤ 7) × (number ≤ 4294967295)) }
{
    if k >= OPTIONS {
        return false;
    }
    let least = wide(entry(options, 5 * k + 2));
    if number < least {
        return false;
    }
    let most = wide(entry(options, 5 * k + 3));
    number <= most
}

// A word was bad.
pub(crate) fn bad(said: Said) -> Said
    ensures { result ≡ bad said }
{
    to_stage(said, Stage::Bad)
}

// The same words, and what may come next.
pub(crate) fn to_stage(said: Said, stage: Stage) -> Said
    ensures { result ≡ to_stage stage said }
{
    Said { stage, ..said }
}

fn wide(n: u32) -> u64
    ensures { (result ≡ n) × (result ≤ 4294967295) }
{
    n as u64
}

// The number at a place of the options; 0 past their end.
pub(crate) fn entry(options: &[u32], i: usize) -> u32
    ensures { result ≡ get_or options.now i 0 }
{
    if i < options.len() { options[i] } else { 0 }
}
