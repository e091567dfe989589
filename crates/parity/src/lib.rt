// The bytes of strings (SCOPE 23.4): seven bits of a code, and the bit that makes the number of ones odd.
#![tactic(auto)]

ghost use Rattle.std.specs.Prelude.{◌≡◌};
ghost use Rattle.parity.specs.Parity.{is_odd, letter as letter_of, odds as odds_of};

// The byte that is sent for a code; what is above its seven bits doesn't count.
pub fn letter(code: u8) -> u8
    ensures { result ≡ letter_of code }
{
    let c = code % 128;
    if odd(c) { c } else { c + 128 }
}

// How many bytes come before the first of wrong parity.
pub fn odds(s: &[u8]) -> usize
    ensures { result ≡ odds_of s.now }
{
    for (i, b) in s.iter().enumerate() {
        if !odd(*b) {
            return i;
        }
    }
    s.len()
}

// Whether a byte has an odd number of ones.
fn odd(b: u8) -> bool
    ensures { result ≡ is_odd b }
{
    b.count_ones() % 2 == 1
}
