// The fault place of a protected byte, by the parity checks of EN 300 706. It takes any byte and answers; nothing is kept between
// calls.
//
// SCOPE 5.5: the checks as four rows of eight bits. The place that they find agrees with the decoding (`agrees` in claims/proofs/Noise). The
// definitions are in specs/: the bits of a byte and the checks.
ghost use Rattle.std.specs.Prelude.{◌≡◌, [], ◌<◌, ◌≤◌, get_or};
ghost use Rattle.octet.specs.Parity.{checks, column as parity_column, fails as parity_fails, fault_place};

// The parity checks as rows over P1 D1 P2 D2 P3 D3 P4 D4. A right byte has an odd number of ones in
// each.
const CHECKS: [[u8; 8]; 4] = [
    [1, 1, 0, 0, 0, 1, 0, 1],
    [0, 1, 1, 1, 0, 0, 0, 1],
    [0, 1, 0, 1, 1, 1, 0, 0],
    [1, 1, 1, 1, 1, 1, 1, 1],
];

// The bit of b, 0 to 7, at which the parity checks find the one fault; 8 where there is none, and 16
// where b can't be mended.
// Kept: 8 and 16 are the numbers of the definition `fault_place`.
pub fn fault_place(b: u8) -> u8
    ensures { result ≡ fault_place b }
{
    let failing = fails(0, b) + 2 * fails(1, b) + 4 * fails(2, b) + 8 * fails(3, b);
    if failing == 0 {
        return 8;
    }
    for i in 0..8 {
        if column(i) == failing {
            return i;
        }
    }
    16
}

// 1 where check k fails at b: its row multiplied with b's bits is even.
fn fails(k: usize, b: u8) -> u8
    requires { k < 4 }
    ensures value { result ≡ parity_fails (get_or checks k []) b }
    ensures upper_bound { result ≤ 1 }
{
    let mut sum: u8 = 1;
    let mut rest = b;
    for i in 0..8 {
        sum = (sum + check(k, i) * (rest % 2)) % 2;
        rest /= 2;
    }
    sum
}

// The checks that a fault at bit i makes fail, the first check's bit lowest.
fn column(i: u8) -> u8
    requires { i < 8 }
    ensures { result ≡ parity_column i }
{
    let at = i as usize;
    check(0, at) + 2 * check(1, at) + 4 * check(2, at) + 8 * check(3, at)
}

// The bit at place i of check k's row.
fn check(k: usize, i: usize) -> u8
    requires { (k < 4) × (i < 8) }
    ensures value { result ≡ get_or (get_or checks k []) i 0 }
    ensures upper_bound { result ≤ 1 }
{
    CHECKS[k][i]
}
