// What a record counts as (SCOPE 31).
ghost use Rattle.std.specs.Prelude.{◌≡◌, ◌<◌, eqb};
ghost use Rattle.blocks.specs.Block.{head_of};
ghost use Rattle.broadcast.specs.Counting.{has_kind, is_read, seen as counting_seen, unseen as counting_unseen, counts_as};
ghost use Rattle.broadcast.specs.Internal.{network_in, is_accepted};

use answer::{Reason, Refusal};
use blocks::{HEAD, Read};
use information_forms::AI;
use menu_forms::NI;

// What a record counts as that doesn't.
const UNCOUNTED: u8 = 64;

// The place of datatype_id, and its width, in bits.
const KIND: usize = 18;

const WIDE: usize = 6;

// The places of this_network_operator in an AI, and of netwop_no in an LI or a TI.
const THIS_NETWORK: usize = 144;

const NETWORK: usize = 44;

// What a record counts as: its datatype, or 64; and the network that it speaks of, which is 0 but in an AI, an LI and a TI.
// Kept: 64 and no Option: `counts_as` says 64, and the tally has a place for it.
#[derive(Clone, Copy)]
pub(crate) struct Seen {
    pub kind: u8,
    pub network: u8,
}

// The datatype that a record counts as, 64 where it doesn't.
pub fn counts(application: u8, rec: &[u8]) -> u8
    ensures { result ≡ counts_as application rec.now }
{
    let seen = see(application, rec);
    seen.kind
}

pub(crate) fn see(application: u8, rec: &[u8]) -> Seen
    ensures { result ≡ counting_seen application rec.now }
{
    if !has_kind(application, rec) {
        return unseen();
    }
    let kind = fields::field_of(&rec[HEAD..], KIND, WIDE) as u8;
    if !is_read(application, kind, rec) {
        return unseen();
    }
    let network = network_in(kind, &rec[HEAD..]);
    Seen { kind, network }
}

// It doesn't count.
fn unseen() -> Seen
    ensures { result ≡ counting_unseen }
{
    Seen {
        kind: UNCOUNTED,
        network: 0,
    }
}

// Whether a record is a whole block of ours with a kind.
#[tactic(auto, unfolding(crate::specs::Counting::has_kind))]
fn has_kind(application: u8, rec: &[u8]) -> bool
    ensures { result ≡ has_kind application rec.now }
{
    let head = head_of(rec);
    application < 32
        && rec.len() == HEAD + head / 32
        && head % 32 == application as usize
        && 8 <= head / 32
        && blocks::sums::sound(&rec[HEAD..12]) == 8
}

// The 16 bits of a record's head.
pub(crate) fn head_of(rec: &[u8]) -> usize
    ensures { (result ≡ head_of rec.now) × (result < 65536) }
{
    lent_bytes::byte_at(rec, 0) + 256 * lent_bytes::byte_at(rec, 1)
}

// The network that a kind speaks of, by its place.
fn network_in(kind: u8, raw: &[u8]) -> u8
    ensures { result ≡ network_in kind raw.now }
{
    if kind as usize == AI {
        fields::field_of(raw, THIS_NETWORK, 8) as u8
    } else if forms::known(kind as usize) {
        fields::field_of(raw, NETWORK, 8) as u8
    } else {
        0
    }
}

// Whether reading accepts it, of the kinds that are read. No room is lent, so that all other rules are judged and nothing is written.
fn is_read(application: u8, kind: u8, rec: &[u8]) -> bool
    ensures { result ≡ is_read application kind rec.now }
{
    let mut none = [0u8; 0];
    match kind as usize {
        AI => is_accepted(information::read_information(application, rec, &mut none)),
        NI => is_accepted(menu_reader::read_menu(application, rec, &mut none)),
        other if forms::known(other) => {
            is_accepted(table::read_block(application, rec, &mut none))
        }
        _ => true,
    }
}

// Whether every rule but the room holds.
fn is_accepted(read: Read) -> bool
    ensures { result ≡ is_accepted read }
{
    match read {
        Ok(_) => true,
        Err(why) => is_room(why),
    }
}

fn is_room(why: Refusal) -> bool
    ensures { result ≡ eqb why.no 1 }
{
    why.no == u8::from(Reason::NoRoom)
}
