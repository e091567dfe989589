// 44-byte records to PES packets of teletext, the other way than crate `pes`: SCOPE 6; EN 300 472, clauses 4.2 to 4.4.
// The call takes any bytes and answers; a refusal leaves the lent output as it was.
//
// The definitions are in specs/Writing.antt: the packet's bytes; the call's rules, in order, are
// specs/Records.antt's, and module `writable` judges by them. What reading and writing owe each other is proofs/Statements.antt.
#![tactic(auto)]

mod writable;

ghost use Rattle.std.specs.Prelude.{◌≡◌, ◌+◌, ◌*◌, ◌≤◌, length, replicate};
ghost use Rattle.std.proofs.lemmas.List.Edits.{sets};
ghost use Rattle.answer.specs.Writing.{answered, left};
ghost use Rattle.pes_writer.specs.Writing.{unit_count, write_rules, header_of, unit_of, units_of, stuffing_unit, stuffing_units, packet_of};
ghost use Rattle.pes_writer.specs.Internal.{packet_bytes};

use answer::{Answer, Reason};

// A record's bytes: a unit's id, its line byte, and the text.
const RECORD: usize = 44;

// A unit's bytes as it is written: id, length, and as many as the length 2C says.
const UNIT: usize = 46;

// Where the first unit stands: after the header and data_identifier.
const FIRST: usize = 46;

// A packet's length is a multiple of this, what one transport packet carries.
const PART: usize = 184;

// One PES packet that holds the records, with the least N, filled up with stuffing units. Writes each
// byte of it once.
pub fn write(data_identifier: u8, records: &[u8], out: &mut [u8]) -> Answer
    ensures answer { result ≡ answered (write_rules data_identifier records.now) (packet_of data_identifier records.now) out.old }
    ensures bytes { out.new ≡ left (write_rules data_identifier records.now) (packet_of data_identifier records.now) out.old }
{
    let need = writable::judge_records(data_identifier, records)?;
    if out.len() < need {
        return Reason::NoRoom.refuse(0);
    }
    put_packet(data_identifier, records, out);
    Ok(need)
}

// Writes the whole packet, where it has room.
fn put_packet(d: u8, records: &[u8], out: &mut [u8])
    requires { (unit_count records.now ≤ 1423) × (packet_bytes records.now ≤ length out.old) }
    ensures { out.new ≡ sets out.old 0 (packet_of d records.now) }
{
    let units = records.len() / RECORD;
    let n = units / 4 + 1;
    put_header(n, d, out);
    put_units(records, units, out);
    put_stuffing(FIRST + UNIT * units, 4 * n - 1 - units, out);
}

// Writes the header of a packet of N×184 bytes, and its data_identifier.
fn put_header(n: usize, d: u8, out: &mut [u8])
    requires { (1 ≤ n) × (n ≤ 356) × (46 ≤ length out.old) }
    ensures { out.new ≡ sets out.old 0 (header_of n d) }
{
    let size = n * PART - 6;
    let high = (size / 256) as u8;
    let low = (size % 256) as u8;
    out[..9].copy_from_slice(&[0x00, 0x00, 0x01, 0xBD, high, low, 0x84, 0x00, 0x24]);
    out[9..45].fill(0xFF);
    out[45] = d;
}

// Writes the units of the records, from the packet's first unit on.
fn put_units(records: &[u8], units: usize, out: &mut [u8])
    requires { (44 * units ≤ length records.now) × (46 + 46 * units ≤ length out.old) }
    ensures { out.new ≡ sets out.old 46 (units_of units records.now 0) }
{
    for i in 0..units {
        put_unit(records, RECORD * i, out, FIRST + UNIT * i);
    }
}

// Writes the unit of the record at `at`: its id and line byte as they are, and its 42 bytes turned.
fn put_unit(records: &[u8], at: usize, out: &mut [u8], to: usize)
    requires { (at + 44 ≤ length records.now) × (to + 46 ≤ length out.old) }
    ensures { out.new ≡ sets out.old to (unit_of records.now at) }
{
    out[to] = records[at];
    out[to + 1] = 0x2C;
    out[to + 2] = records[at + 1];
    out[to + 3] = 0xE4;
    pes::turn_run(records, at + 2, out, to + 4);
}

// Writes so many stuffing units.
fn put_stuffing(from: usize, count: usize, out: &mut [u8])
    requires { from + 46 * count ≤ length out.old }
    ensures { out.new ≡ sets out.old from (stuffing_units count) }
{
    for i in 0..count {
        put_stuffing_unit(from + UNIT * i, out);
    }
}

// Writes one stuffing unit.
fn put_stuffing_unit(to: usize, out: &mut [u8])
    requires { to + 46 ≤ length out.old }
    ensures { out.new ≡ sets out.old to stuffing_unit }
{
    out[to] = 0xFF;
    out[to + 1] = 0x2C;
    out[to + 2..to + UNIT].fill(0xFF);
}
