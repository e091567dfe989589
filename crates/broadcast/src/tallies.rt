// The blocks of a list, tallied by kind and network, and what annex D's rules say of them (SCOPE 31).
ghost use Rattle.std.specs.Prelude.{◌≡◌, eqb, get_or};
ghost use Rattle.broadcast.specs.Lawful.{limit as lawful_limit, minimum, verdict, each_within};
ghost use Rattle.broadcast.specs.Internal.{noted, network_at, tally as internal_tally, counts_by, name_by};

use crate::seeing::Seen;
use information_forms::AI;

// 11.12.3: the other datatypes whose rules can fail.
const MI: u8 = 5;

const UI: u8 = 6;

const LI: u8 = 7;

const TI: u8 = 8;

// The kinds, what doesn't count among them, and behind them the networks of the kinds up to TI.
const KINDS: usize = 65;

const NETWORKS: usize = 256;

pub(crate) const PLACES: usize = 2369;

// A count goes no further: the greatest that a rule asks for is one less.
const MOST: u16 = 256;

// So many blocks of a kind a network may have, and so many this channel.
const EACH: u16 = 1;

const HERE: u16 = 2;

// Tallies what a record counts as.
pub(crate) fn count(tally: &mut [u16], seen: Seen)
    ensures { tally.new ≡ internal_tally tally.old seen }
{
    note(tally, seen.kind as usize);
    note(tally, network_at(seen.kind, seen.network));
}

// One more at a place, where there is one.
fn note(tally: &mut [u16], place: usize)
    ensures { tally.new ≡ noted tally.old place }
{
    // Kept: by index: a proof knows no element after a slice's `get_mut`.
    if place < tally.len() && tally[place] < MOST {
        tally[place] += 1;
    }
}

// Where a kind's blocks of a network are tallied.
fn network_at(kind: u8, network: u8) -> usize
    ensures { result ≡ network_at kind network }
{
    KINDS + NETWORKS * kind as usize + network as usize
}

// How many are tallied at a place.
fn tallied_at(tally: &[u16], place: usize) -> u16
    ensures { result ≡ get_or tally.now place 0 }
{
    tally.get(place).copied().unwrap_or(0)
}

// Whether no AI counts.
pub(crate) fn is_none(tally: &[u16]) -> bool
    ensures { result ≡ eqb (get_or tally.now 1 0) 0 }
{
    tallied_at(tally, AI) == 0
}

// The first letter of the first rule that isn't met, in the order of table D.1. The kinds of which there may be any number can't fail.
pub(crate) fn judge(tally: &[u16], channel: u8) -> Option<u8>
    ensures { name_by result ≡ verdict (counts_by tally.now channel) minimum }
{
    if tallied_at(tally, AI) != 1 {
        return Some(b'A');
    }
    if 255 < tallied_at(tally, MI as usize) {
        return Some(b'M');
    }
    if 1 < tallied_at(tally, UI as usize) {
        return Some(b'U');
    }
    if !is_met(tally, LI, channel) {
        return Some(b'L');
    }
    if !is_met(tally, TI, channel) {
        return Some(b'T');
    }
    None
}

// Whether there is at most one block of a kind for each network, and two for this channel.
fn is_met(tally: &[u16], kind: u8, channel: u8) -> bool
    ensures { result ≡ each_within (counts_by tally.now channel) kind 1 2 }
{
    for network in 0..NETWORKS {
        let network = network as u8;
        if limit(network, channel) < tallied_at(tally, network_at(kind, network)) {
            return false;
        }
    }
    true
}

// How many blocks of a network there may be.
fn limit(network: u8, channel: u8) -> u16
    ensures { result ≡ lawful_limit 1 2 channel network }
{
    if network == channel { HERE } else { EACH }
}
