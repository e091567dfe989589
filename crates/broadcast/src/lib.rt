// Whether a broadcast is lawful (SCOPE 31): what a block counts as, whether two records are one block, and what annex D's rules say of the blocks
// of a list.
#![tactic(auto)]

pub mod seeing;
mod tallies;

ghost use Rattle.std.specs.Prelude.{◌≡◌, [], length, drop};
ghost use Rattle.laws.specs.Pick.{pick};
ghost use Rattle.answer.specs.Writing.{answered, left};
ghost use Rattle.blocks.specs.Block.{whole, head_length, blocks};
ghost use Rattle.broadcast.specs.Counting.{all_seen};
ghost use Rattle.broadcast.specs.Same.{alike, alikes, same_block};
ghost use Rattle.broadcast.specs.Lawful.{channel_after, channel_from, lawful_rules, lawful_lines};
ghost use Rattle.broadcast.specs.Internal.{tallied, name_by, said};

use answer::{Answer, Reason};
use blocks::{Found, HEAD};
use information_forms::AI;
use seeing::Seen;
pub use seeing::counts;
use tallies::PLACES;

// Whether the blocks of a list of records make a lawful broadcast: a line for the kind of guide, one that says yes or no, and where it is no one
// with the first rule that isn't met, to the front of `out`. Each record counts, equal ones too, and is read once.
pub fn lawful(application: u8, records: &[u8], out: &mut [u8]) -> Answer
    ensures answer { result ≡ answered (lawful_rules application records.now) (lawful_lines application records.now) out.old }
    ensures output { out.new
        ≡ left (lawful_rules application records.now) (lawful_lines application records.now) out.old }
{
    if 32 <= application {
        return Reason::Range.refuse(0);
    }
    let mut tally = [0u16; PLACES];
    let Some(channel) = walk(application, records, &mut tally) else {
        return Reason::Length.refuse(0);
    };
    if tallies::is_none(&tally) {
        return Reason::NoInformation.refuse(0);
    }
    say(tallies::judge(&tally, channel), out)
}

// Goes along the records and tallies what each counts as: this channel, where the list is whole records.
fn walk(application: u8, records: &[u8], tally: &mut [u16]) -> Option<u8>
    ensures answer { result
        ≡ pick (whole records.now) (Some (channel_from 0 (all_seen application (blocks records.now)))) None }
    ensures output { tally.new ≡ tallied tally.old (all_seen application (blocks records.now)) }
{
    let mut at = 0;
    let mut channel = 0;
    // Kept: the step is no count: it goes to the next record.
    loop {
        match blocks::record_at(records, at) {
            Found::End => return Some(channel),
            Found::Broken => return None,
            Found::Record { next, .. } => {
                let seen = seeing::see(application, &records[at..next]);
                channel = channel_after(channel, seen);
                tallies::count(tally, seen);
                at = next;
            }
        }
    }
}

// An AI says which network conveys the guide.
fn channel_after(channel: u8, seen: Seen) -> u8
    ensures { result ≡ channel_after channel seen }
{
    if seen.kind as usize == AI {
        seen.network
    } else {
        channel
    }
}

// The lines of the verdict, by the letter of the rule that isn't met, where there is room.
fn say(letter: Option<u8>, out: &mut [u8]) -> Answer
    ensures answer { result ≡ answered [] (said (name_by letter)) out.old }
    ensures output { out.new ≡ left [] (said (name_by letter)) out.old }
{
    match letter {
        None => put(b"guide=EPG\nlawful=yes\n", out),
        Some(letter) => {
            let mut text = *b"guide=EPG\nlawful=no\nrule=?I\n";
            text[25] = letter;
            put(&text, out)
        }
    }
}

// These bytes, where there is room.
fn put(text: &[u8], out: &mut [u8]) -> Answer
    ensures answer { result ≡ answered [] text.now out.old }
    ensures output { out.new ≡ left [] text.now out.old }
{
    let n = text.len();
    if out.len() < n {
        return Reason::NoRoom.refuse(0);
    }
    lent_bytes::copy(text, 0, n, out, 0);
    Ok(n)
}

// Whether two records are one block, of which the one may have come with bytes that were mended.
#[tactic(auto, unfolding(crate::specs::Same::same_block))]
pub fn same(first: &[u8], second: &[u8]) -> bool
    ensures { result ≡ same_block first.now second.now }
{
    first.len() == second.len()
        && seeing::head_of(first) == seeing::head_of(second)
        && are_alike(first, second)
}

// Whether the raw bytes of two records that are as long are alike.
fn are_alike(first: &[u8], second: &[u8]) -> bool
    requires { length first.now ≡ length second.now }
    ensures { result ≡ alikes (drop head_length first.now) (drop head_length second.now) }
{
    for i in HEAD..first.len() {
        if !is_alike(first[i], second[i]) {
            return false;
        }
    }
    true
}

// Whether two bytes are equal, or both decode to one nibble.
#[tactic(auto, unfolding(crate::specs::Same::alike))]
fn is_alike(a: u8, b: u8) -> bool
    ensures { result ≡ alike a b }
{
    let n = octet::quick::decode(a);
    a == b || (n < 16 && n == octet::quick::decode(b))
}
