// Where the names of a row stand: a letter for each place, `+` or `*` before those that come again and again.
ghost use Rattle.std.specs.Prelude.{◌≡◌, get_or};
ghost use Rattle.words.specs.Places.{is_mark, passed, letter_at, turned, after, may_end, is_kind, fits};

use crate::numbers;

// Where the next name stands among a row's places, and where the group begins that comes again: 0 until its mark is passed.
#[derive(Clone, Copy)]
pub struct Spot {
    pub at: usize,
    pub group: usize,
}

const ONCE_OR_MORE: u8 = b'+';

const ANY_NUMBER: u8 = b'*';

// The letter of the next name's place, 0 where no name may come.
pub(crate) fn letter_at(places: &[u8], spot: Spot) -> u8
    ensures { result ≡ letter_at places.now spot }
{
    let at = spot.at;
    byte_at(places, passed(places, at, at))
}

// Where the name after the next stands.
pub(crate) fn after(places: &[u8], spot: Spot) -> Spot
    ensures { result ≡ after places.now spot }
{
    let at = spot.at;
    let here = passed(places, at, at);
    let group = passed(places, at, spot.group);
    let end = places.len();
    if end <= here {
        return turned(end, group);
    }
    if end - here == 1 {
        return turned(end, group);
    }
    Spot {
        at: here + 1,
        group,
    }
}

// Behind the last place: the group again, or no further place where there is no group.
fn turned(end: usize, group: usize) -> Spot
    ensures { result ≡ turned end group }
{
    if group == 0 {
        return Spot { at: end, group };
    }
    Spot { at: group, group }
}

// Whether the names may end here.
pub(crate) fn may_end(places: &[u8], spot: Spot) -> bool
    ensures { result ≡ may_end places.now spot }
{
    let at = spot.at;
    let group = spot.group;
    if places.len() <= at {
        return true;
    }
    if places[at] == ANY_NUMBER {
        return true;
    }
    if group == 0 {
        return false;
    }
    at == group
}

// Whether a word can stand at a place.
pub(crate) fn fits(letter: u8, word: &[u8]) -> bool
    ensures { result ≡ fits letter word.now }
{
    match letter {
        0 => false,
        b's' => numbers::number_of(word) <= 4294967295,
        b'b' => numbers::number_of(word) <= 65535,
        b'n' => numbers::number_of(word) <= 255,
        b'k' => is_kind(word),
        _ => true,
    }
}

// Whether a word names a kind of table.
fn is_kind(word: &[u8]) -> bool
    ensures { result ≡ is_kind word.now }
{
    numbers::kind_of(word) != 0
}

// The place behind a mark that stands here; the other where none does.
fn passed(places: &[u8], at: usize, other: usize) -> usize
    ensures { result ≡ passed places.now at other }
{
    if places.len() <= at {
        return other;
    }
    if is_mark(places[at]) {
        return at + 1;
    }
    other
}

fn is_mark(b: u8) -> bool
    ensures { result ≡ is_mark b }
{
    b == ONCE_OR_MORE || b == ANY_NUMBER
}

// The byte at a place of a text; 0 past its end.
pub(crate) fn byte_at(text: &[u8], i: usize) -> u8
    ensures { result ≡ get_or text.now i 0 }
{
    if i < text.len() { text[i] } else { 0 }
}
