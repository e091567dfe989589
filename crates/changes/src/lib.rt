// Two day sheets held side by side (SCOPE 28): what went, what came and what changed from the first to the second.
#![tactic(auto)]

mod lines;

ghost use Rattle.std.specs.Prelude.{◌≡◌, [], ◌≤◌, length, drop};
ghost use Rattle.answer.specs.Writing.{answered, left};
ghost use Rattle.text_lines.specs.Putting.{Put};
ghost use Rattle.day_sheet.specs.Internal.{Halfway};
ghost use Rattle.sheet_joins.specs.Internal.{Met};
ghost use Rattle.changes.specs.Calls.{compare_answer, compare_left, compare_text, fault_in};
ghost use Rattle.changes.specs.Internal.{turn_change, place_most};

use answer::{Answer, Reason};
use sheet_entry::Form;
use sheet_joins::Turn;

// The call's answer, and the number of the sheet at fault; 0 where neither is.
// Kept: the number doesn't say whether the call refuses, as the answer does: where the output has no room neither sheet is at fault.
#[derive(Drop)]
pub struct Compared {
    pub answer: Answer,
    pub sheet: usize,
}

// What changed from the first sheet to the second, to the front of `out`.
pub fn compare(form: Form, first: &[u8], second: &[u8], out: &mut [u8]) -> Compared
    ensures answer { result.answer ≡ compare_answer form first.now second.now out.old }
    ensures sheet { result.sheet ≡ fault_in form first.now second.now }
    ensures output { out.new ≡ compare_left form first.now second.now out.old }
{
    match day_sheet::judge(form, first) {
        Err(why) => Compared {
            answer: Err(why),
            sheet: 1,
        },
        Ok(_) => match day_sheet::judge(form, second) {
            Err(why) => Compared {
                answer: Err(why),
                sheet: 2,
            },
            Ok(_) => {
                let answer = write(form, first, second, out);
                Compared { answer, sheet: 0 }
            }
        },
    }
}

// The same, of two sheets that were judged: only the room decides.
fn write(form: Form, first: &[u8], second: &[u8], out: &mut [u8]) -> Answer
    requires { Halfway form first.now 0 × Halfway form second.now 0 }
    ensures answer { result ≡ answered [] (compare_text form first.now second.now) out.old }
    ensures output { out.new ≡ left [] (compare_text form first.now second.now) out.old }
{
    let n = measure(form, first, second);
    if out.len() < n {
        return Reason::NoRoom.refuse(0);
    }
    put_changes(form, first, second, out);
    Ok(n)
}

// How long the print is: the walk that puts it, with next to no room.
fn measure(form: Form, first: &[u8], second: &[u8]) -> usize
    requires { Halfway form first.now 0 × Halfway form second.now 0 }
    ensures { result ≡ length (compare_text form first.now second.now) }
{
    let mut scrap = [0u8; 1];
    put_changes(form, first, second, &mut scrap)
}

// Puts the print to the front of `out`, as far as there is room, and answers how long it is.
fn put_changes(form: Form, first: &[u8], second: &[u8], out: &mut [u8]) -> usize
    requires { Halfway form first.now 0 × Halfway form second.now 0 }
    ensures { Put out.old 0 (compare_text form first.now second.now) out.new result }
{
    let mut i = 0;
    let mut j = 0;
    let mut q = 0;
    // Kept: no count of places: each step is as long as the entries that stand there; `sheet_joins::put_joined` says why the two loops stay two.
    while let Some(t) = sheet_joins::turn_at(form, first, i, second, j) {
        q = put_change(first, i, second, j, t, out, q);
        let (a, b) = t.passed();
        i += a;
        j += b;
    }
    q
}

// Puts the change of one key, where there is one, and answers the place after it.
fn put_change(
    first: &[u8],
    i: usize,
    second: &[u8],
    j: usize,
    t: Turn,
    out: &mut [u8],
    q: usize,
) -> usize
    requires { Met first.now i second.now j t × (q ≤ place_most) }
    ensures { Put out.old q (turn_change t (drop i first.now) (drop j second.now)) out.new result }
{
    match t {
        Turn::First(a) => lines::put_key(b"gone=", a.key, out, q),
        Turn::Second(b) => {
            let at = lines::put_key(b"new=", b.key, out, q);
            lines::put_lines(second, j, b, out, at)
        }
        Turn::Both(a, b) => lines::put_both(first, i, a, second, j, b, out, q),
    }
}
