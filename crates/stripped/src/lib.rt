// What goes out for a PES packet on its way to a teletext reader: the 42-byte packets that it carries; or, where it is
// refused, ONE packet that can't be decoded, so that a reader notices the loss. Every public call takes any bytes and
// answers.
//
// The definitions are in specs/Stripped.antt.
#![tactic(auto)]

pub mod loss;

ghost use Rattle.std.specs.Prelude.{◌≡◌, ◌≤◌, length};
ghost use Rattle.std.proofs.lemmas.List.Edits.{sets};
ghost use Rattle.answer.specs.Rules.{Every};
ghost use Rattle.pes.specs.Reading.{units_rules};
ghost use Rattle.stripped.specs.Stripped.{packets_of, values_of, answer_of, packets_after};

use answer::{Reason, Refusal};
use loss::PACKET;
pub use loss::blank;
use pes::{FIRST, RECORD};
use units::DataUnit;

// What went out for a PES packet.
// Kept: an enum of three cases, of which two hold a refusal: a loss goes out, and is no refusal of the call.
#[derive(Drop)]
pub enum Stripped {
    // So many bytes: the packets that it carries.
    Packets(usize),
    // One packet that can't be decoded, for a PES packet that is refused so.
    Lost(Refusal),
    // Nothing: the output is shorter than what would go out.
    Refused(Refusal),
}

// What goes out for a PES packet, into the front of `packets`. The PES packet is judged first and the room last, by
// what would go out: 42 bytes for each text unit, or 42 for the packet that stands for a loss.
pub fn strip(pes: &[u8], packets: &mut [u8]) -> Stripped
    ensures answer { result ≡ answer_of pes.now packets.old }
    ensures packets { packets.new ≡ packets_after pes.now packets.old }
    ensures within { (values_of result).bytes ≤ length packets.new }
{
    match pes::judge(pes) {
        Err(r) => {
            if packets.len() < PACKET {
                return Stripped::Refused(Refusal {
                    no: u8::from(Reason::NoRoom),
                    at: 0,
                });
            }
            blank(packets);
            Stripped::Lost(r)
        }
        Ok(records) => {
            let need = records / RECORD * PACKET;
            if packets.len() < need {
                return Stripped::Refused(Refusal {
                    no: u8::from(Reason::NoRoom),
                    at: 0,
                });
            }
            put_packets(pes, packets);
            Stripped::Packets(need)
        }
    }
}

// Writes the packets of a PES packet that is accepted, where they have room.
fn put_packets(pes: &[u8], packets: &mut [u8])
    requires { Every (units_rules pes.now) × (length (packets_of pes.now) ≤ length packets.old) }
    ensures { packets.new ≡ sets packets.old 0 (packets_of pes.now) }
{
    let mut at = FIRST;
    let mut to = 0;
    // Kept: a `while`, since a turn goes on to the next unit and not to the next place; the walk of `pes` writes
    // other bytes, and one walk for both would be a public call that takes what writes.
    while let Ok(unit) = units::unit_at(pes, at) {
        match unit {
            DataUnit::End => return,
            DataUnit::Text(next) => {
                pes::turn_run(pes, at + 4, packets, to);
                to += PACKET;
                at = next;
            }
            DataUnit::Stuffing(next) => {
                at = next;
            }
        }
    }
}
