// PES packets of teletext to 44-byte records: EN 300 472, clauses 4.2 to 4.4. The call takes any bytes and
// answers; a refusal leaves the lent output as it was. Writing is crate `pes_writer`.
//
// A record is what stands in a text unit, ready for a teletext reader: the unit's id, the line byte,
// and the 42 bytes after the framing byte, each turned. The definitions are in specs/: Reading.antt has
// the call's rules, in order, and its bytes; Finding.antt says where a packet begins among any bytes.
#![tactic(auto)]

pub mod ebu;

ghost use Rattle.std.specs.Prelude.{◌≡◌, ◌+◌, ◌<◌, ◌≤◌, leb, eqb, length, drop};
ghost use Rattle.std.proofs.lemmas.List.Edits.{sets};
ghost use Rattle.laws.specs.Pick.{both};
ghost use Rattle.answer.specs.Rules.{judged, Every};
ghost use Rattle.answer.specs.Values.{refused};
ghost use Rattle.answer.specs.Writing.{answered, left};
ghost use Rattle.std.specs.declared.result.Result.TheVariants.{Ok};
ghost use Rattle.pes.specs.Finding.{begins_packet, first_in};
ghost use Rattle.pes.specs.Header.{starts_right, pes_length, length_fits, flags_fit};
ghost use Rattle.pes.specs.Reading.{record_at, units_rules, read_rules, records_of};

use answer::{Answer, Reason};
pub use ebu::{is_ebu, turn_run};
use units::DataUnit;

// A record's bytes: a unit's id, its line byte, and the text.
pub const RECORD: usize = 44;

// Where the first unit stands: after the header and data_identifier.
pub const FIRST: usize = 46;

// A packet's length is a multiple of this, what one transport packet carries.
const PART: usize = 184;

// The bytes up to the end of PES_packet_length, which counts those after it.
pub const HEAD: usize = 6;

// The records of a PES packet's text units, 44 bytes each (SCOPE 6.9), into the front of `out`. Goes
// along the packet twice, to judge it and to write, and holds nothing but its place.
pub fn read(pes: &[u8], out: &mut [u8]) -> Answer
    ensures answer { result ≡ answered (read_rules pes.now) (records_of pes.now) out.old }
    ensures bytes { out.new ≡ left (read_rules pes.now) (records_of pes.now) out.old }
{
    let need = judge(pes)?;
    if out.len() < need {
        return Reason::NoRoom.refuse(0);
    }
    put_records(pes, out);
    Ok(need)
}

// Judges a whole packet, writing nothing: its refusal, or how many bytes of records it gives.
#[tactic(auto, using(crate::proofs::Heading::started, crate::proofs::Heading::long_enough), unfolding(crate::specs::Reading::read_rules, crate::specs::Header::header_rules))]
pub fn judge(pes: &[u8]) -> Answer
    ensures { result ≡ judged refused (read_rules pes.now) (Ok (length (records_of pes.now))) }
{
    if !starts(pes) {
        return Reason::NotAPacket.refuse(0);
    }
    if !length_fits(pes) {
        return Reason::PacketLength.refuse(4);
    }
    if !flags_fit(pes[6]) {
        return Reason::PacketFlags.refuse(6);
    }
    if pes[8] != 0x24 {
        return Reason::PacketFlags.refuse(8);
    }
    if !ebu::is_ebu(pes[45]) {
        return Reason::DataIdentifier.refuse(45);
    }
    scan(pes)
}

// The first place from `from` on where a packet begins: 00 00 01 BD, and a length that reading takes. A
// reader of a damaged capture goes on from there.
pub fn find(bytes: &[u8], from: usize) -> Option<usize>
    ensures { result ≡ first_in (drop from bytes.now) from }
{
    for at in from..bytes.len() {
        if begins(&bytes[at..]) {
            return Some(at);
        }
    }
    None
}

// Whether bytes begin as a PES packet of teletext does: 00 00 01 BD.
pub fn has_code(bytes: &[u8]) -> bool
    ensures { result ≡ starts_right bytes.now }
{
    matches!(bytes, [0x00, 0x00, 0x01, 0xBD, ..])
}

// Whether a packet begins at the front.
fn begins(bytes: &[u8]) -> bool
    ensures { result ≡ begins_packet bytes.now }
{
    HEAD <= bytes.len() && has_code(bytes) && is_length(said_length(bytes))
}

// Judges the units from first to last: the first refusal, or how many bytes of records they give.
fn scan(pes: &[u8]) -> Answer
    ensures { result ≡ judged refused (units_rules pes.now) (Ok (length (records_of pes.now))) }
{
    let mut at = FIRST;
    let mut given = 0;
    // Kept: a `loop`, since a turn goes on to the next unit and not to the next place.
    loop {
        match units::unit_at(pes, at)? {
            DataUnit::End => return Ok(given),
            DataUnit::Text(next) => {
                given += RECORD;
                at = next;
            }
            DataUnit::Stuffing(next) => {
                at = next;
            }
        }
    }
}

// Whether a packet has its header's 45 bytes and begins 00 00 01 BD.
fn starts(pes: &[u8]) -> bool
    ensures { result ≡ both (leb 45 (length pes.now)) (starts_right pes.now) }
{
    45 <= pes.len() && has_code(pes)
}

// PES_packet_length, by its two bytes.
fn said_length(bytes: &[u8]) -> usize
    requires { 6 ≤ length bytes.now }
    ensures { result ≡ pes_length bytes.now }
{
    usize::from(bytes[4]) * 256 + usize::from(bytes[5])
}

// Whether PES_packet_length is that of some N times 184 bytes, and the packet is as long as it says.
fn length_fits(pes: &[u8]) -> bool
    requires { 6 ≤ length pes.now }
    ensures { result ≡ both (length_fits (pes_length pes.now)) (eqb (pes_length pes.now + 6) (length pes.now)) }
{
    let size = said_length(pes);
    is_length(size) && size + HEAD == pes.len()
}

// Whether PES_packet_length is N×184−6 with N from 1 to 356.
fn is_length(size: usize) -> bool
    requires { size < 65536 }
    ensures { result ≡ length_fits size }
{
    let n = (size + HEAD) / PART;
    (1..=356).contains(&n) && size == n * PART - HEAD
}

// Whether byte 6 has its leading bits 10 and the alignment bit.
fn flags_fit(b: u8) -> bool
    ensures { result ≡ flags_fit b }
{
    b / 64 == 2 && b / 4 % 2 == 1
}

// Writes the records of a packet that is accepted, where they have room.
fn put_records(pes: &[u8], out: &mut [u8])
    requires { Every (units_rules pes.now) × (length (records_of pes.now) ≤ length out.old) }
    ensures { out.new ≡ sets out.old 0 (records_of pes.now) }
{
    let mut at = FIRST;
    let mut to = 0;
    // Kept: a `while`, as the `loop` of `scan`.
    while let Ok(unit) = units::unit_at(pes, at) {
        match unit {
            DataUnit::End => return,
            DataUnit::Text(next) => {
                put_record(pes, at, out, to);
                to += RECORD;
                at = next;
            }
            DataUnit::Stuffing(next) => {
                at = next;
            }
        }
    }
}

// Writes the record of the text unit at `at`: its id, its line byte as it is, and its 42 bytes turned.
fn put_record(pes: &[u8], at: usize, out: &mut [u8], to: usize)
    requires { (at + 46 ≤ length pes.now) × (to + 44 ≤ length out.old) }
    ensures { out.new ≡ sets out.old to (record_at pes.now at) }
{
    out[to] = pes[at];
    out[to + 1] = pes[at + 2];
    ebu::turn_run(pes, at + 4, out, to + 2);
}
