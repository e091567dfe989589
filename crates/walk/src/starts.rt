// Within a packet: where a block starts in its bytes, and whether what stands before the pointed byte may stand there. A place past the
// end is the end.
ghost use Rattle.std.specs.Prelude.{◌≡◌, not, ◌+◌, ◌≤◌, length, drop};
ghost use Rattle.walk.specs.Places.{fillers, found, ahead_in, next_of, stands};

use crate::{Ahead, Run};

// A start's nibble.
const START: u8 = 12;

// What stands ahead from `from` on where nothing runs.
pub fn find(s: &[u8], from: usize) -> Ahead
    ensures s_value { found (drop from s.now) ≡ ahead_in s.now result }
    ensures from_bound { from + 5 ≤ next_of result (from + 5) }
    ensures result_in_bounds { next_of result 0 ≤ length s.now }
{
    let at = skip(s, from);
    if at >= s.len() {
        return Ahead::Nothing;
    }
    let mark = octet::quick::mark(s[at]);
    if mark % 32 != START {
        return Ahead::Nothing;
    }
    crate::head_on(s, at + 1, 0, 0, mark / 32)
}

// Whether a block that has taken its bytes is lost at the pointed byte: it isn't whole, or more than
// filler follows it.
pub fn falls(run: Run, s: &[u8], next: usize) -> bool
    ensures { result ≡ not (stands run (drop next s.now)) }
{
    match run {
        Run::Idle | Run::Head { .. } => true,
        Run::Body { head, held, .. } => held < (head / 32) as usize || skip(s, next) < s.len(),
    }
}

// The place of the first byte from `from` on that isn't filler: a start, a stray nibble, or the end.
fn skip(s: &[u8], from: usize) -> usize
    ensures { result ≡ from + fillers (drop from s.now) }
{
    for i in from..s.len() {
        if octet::quick::decode(s[i]) != 3 {
            return i;
        }
    }
    from.max(s.len())
}
