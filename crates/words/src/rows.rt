// A program's rows: each is a word, the letters of the options that it takes, and its places, with a space between them.
ghost use Rattle.std.specs.Prelude.{◌≡◌, [], ◌∷◌, ◌≤◌, length, drop};
ghost use Rattle.laws.specs.Pick.{both};
ghost use Rattle.texts.specs.Texts.{same_text, stands_in};
ghost use Rattle.words.specs.Rows.{before, up_to, behind, word_at, letters_at, places_at, row_of};

const SPACE: u8 = b' ';

const LINE_END: u8 = 10;

// Where the row of a word begins; the end of the text where there is none.
pub(crate) fn row_of(tasks: &[u8], word: &[u8]) -> usize
    ensures { result ≡ row_of tasks.now word.now }
{
    let mut begins = true;
    for (i, b) in tasks.iter().enumerate() {
        if is_row(tasks, i, begins, word) {
            return i;
        }
        begins = *b == LINE_END;
    }
    tasks.len()
}

// Whether a row begins here, and has that word.
fn is_row(tasks: &[u8], i: usize, begins: bool, word: &[u8]) -> bool
    ensures { result ≡ both begins (same_text word.now (word_at tasks.now i)) }
{
    begins && has_word(tasks, i, word)
}

// Whether the row that begins here has that word.
pub(crate) fn has_word(tasks: &[u8], row: usize, word: &[u8]) -> bool
    ensures { result ≡ same_text word.now (word_at tasks.now row) }
{
    texts::same(word, up_to(from(tasks, row), SPACE))
}

// Whether the row takes the option of a letter.
pub(crate) fn takes(tasks: &[u8], row: usize, letter: u8) -> bool
    ensures { result ≡ stands_in (letter ∷ []) (letters_at tasks.now row) }
{
    let part = [letter];
    texts::holds(up_to(behind(from(tasks, row), SPACE), SPACE), &part)
}

// The row's places.
pub(crate) fn places(tasks: &[u8], row: usize) -> &[u8]
    ensures { result.now ≡ places_at tasks.now row }
{
    up_to(behind(behind(from(tasks, row), SPACE), SPACE), LINE_END)
}

// A text from a place on; nothing past its end.
pub(crate) fn from(text: &[u8], i: usize) -> &[u8]
    ensures { result.now ≡ drop i text.now }
{
    if text.len() <= i {
        return &text[0..0];
    }
    &text[i..]
}

// What stands before the first of a byte; all where there is none.
pub(crate) fn up_to(text: &[u8], b: u8) -> &[u8]
    ensures { result.now ≡ up_to b text.now }
{
    let n = before(text, b);
    &text[0..n]
}

// What stands behind the first of a byte; nothing where there is none.
pub(crate) fn behind(text: &[u8], b: u8) -> &[u8]
    ensures { result.now ≡ behind b text.now }
{
    let n = before(text, b);
    if text.len() <= n {
        return &text[0..0];
    }
    let next = n + 1;
    &text[next..]
}

// How many bytes stand before the first of a byte; all where there is none.
pub(crate) fn before(text: &[u8], b: u8) -> usize
    ensures { (result ≡ before b text.now) × (result ≤ length text.now) }
{
    for (i, x) in text.iter().enumerate() {
        if *x == b {
            return i;
        }
    }
    text.len()
}
