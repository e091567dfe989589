// The numbers and kinds that words say.
ghost use Rattle.std.specs.Prelude.{◌≡◌};
ghost use Rattle.words.specs.Numbers.{digit_of, decimal_of, hex_pair_of, number_of, kind_of};

// The greatest number that a word can say.
pub const MOST: u64 = 4294967295;

// No number: more than the greatest.
// Kept: it is the number of the definitions `number_of` and `decimal_of`, not a None.
pub const NO_NUMBER: u64 = 4294967296;

const NO_DIGIT: u8 = 16;

// The number that a word says as the day sheet spells it: `0`, or digits without a leading zero. NO_NUMBER where it says none.
pub fn number_of(word: &[u8]) -> u64
    ensures { result ≡ number_of word.now }
{
    if word.len() <= 1 {
        return decimal(word);
    }
    if word[0] == b'0' {
        return NO_NUMBER;
    }
    decimal(word)
}

// The kind of table that a word names: 7 for `LI`, 8 for `TI`, 0 for any other.
pub fn kind_of(word: &[u8]) -> u8
    ensures { result ≡ kind_of word.now }
{
    if texts::same(word, b"LI") {
        return 7;
    }
    if texts::same(word, b"TI") {
        return 8;
    }
    0
}

// The number that decimal digits say, zeros before it allowed. However many they are, nothing is counted past the greatest.
pub(crate) fn decimal(word: &[u8]) -> u64
    ensures { result ≡ decimal_of word.now }
{
    if word.len() == 0 {
        return NO_NUMBER;
    }
    let mut number: u64 = 0;
    for b in word {
        let d = digit(*b);
        if d >= 10 {
            return NO_NUMBER;
        }
        let more = 10 * number + d as u64;
        if more > MOST {
            return NO_NUMBER;
        }
        number = more;
    }
    number
}

// The number that two hex digits say.
pub(crate) fn hex_pair(word: &[u8]) -> u64
    ensures { result ≡ hex_pair_of word.now }
{
    if word.len() != 2 {
        return NO_NUMBER;
    }
    let high = digit(word[0]);
    let low = digit(word[1]);
    if high >= NO_DIGIT {
        return NO_NUMBER;
    }
    if low >= NO_DIGIT {
        return NO_NUMBER;
    }
    16 * high as u64 + low as u64
}

// What a hex digit of either case stands for.
fn digit(b: u8) -> u8
    ensures { result ≡ digit_of b }
{
    match b {
        b'0'..=b'9' => b - b'0',
        b'A'..=b'F' => b - b'A' + 10,
        b'a'..=b'f' => b - b'a' + 10,
        _ => NO_DIGIT,
    }
}
