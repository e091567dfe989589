// Lent texts held against each other: whether two are the same, whether one stands within the other, and how many empty lines there are.
#![tactic(auto)]

ghost use Rattle.std.specs.Prelude.{◌≡◌, ◌≤◌};
ghost use Rattle.laws.specs.Pick.{pick, both};
ghost use Rattle.texts.specs.Texts.{same_text, begins_with, stands_in, empty_lines};

const LINE_END: u8 = 10;

// Whether the two are the same bytes.
pub fn same(text: &[u8], other: &[u8]) -> bool
    ensures { result ≡ same_text text.now other.now }
{
    text == other
}

// Whether the part stands somewhere in the text.
pub fn holds(text: &[u8], part: &[u8]) -> bool
    ensures { result ≡ stands_in part.now text.now }
{
    if part.is_empty() {
        return true;
    }
    for window in text.windows(part.len()) {
        if window == part {
            return true;
        }
    }
    false
}

// How many empty lines the text has behind its first line: in a sheet, how many entries.
pub fn entries(text: &[u8]) -> usize
    ensures { result ≡ empty_lines text.now }
{
    let mut count = 0;
    let mut is_end = false;
    for b in text {
        let ends = *b == LINE_END;
        if ends && is_end {
            count += 1;
        }
        is_end = ends;
    }
    count
}

// Whether the text begins with the part.
pub fn begins(text: &[u8], part: &[u8]) -> bool
    ensures { result ≡ begins_with part.now text.now }
{
    text.starts_with(part)
}
