// Whether 44-byte records can be written as a PES packet of teletext, and how long that packet is: EN 300 472,
// clauses 4.2 to 4.4.
//
// The rules, in order, are in specs/Records.antt.
ghost use Rattle.std.specs.Prelude.{◌≡◌, ◌*◌, ◌≤◌, length};
ghost use Rattle.laws.specs.Pick.{both};
ghost use Rattle.answer.specs.Rules.{judged};
ghost use Rattle.answer.specs.Values.{refused};
ghost use Rattle.units.specs.Marks.{text_id, line_fits};
ghost use Rattle.pes_writer.specs.Records.{records_fit, write_rules};
ghost use Rattle.pes_writer.specs.Internal.{packet_bytes};

use answer::{Answer, Reason};

// A record's bytes: a unit's id, its line byte, and the text.
const RECORD: usize = 44;

// A packet's length is a multiple of this, what one transport packet carries.
const PART: usize = 184;

// Judges what is to be written, writing nothing: its refusal, or how many bytes the packet takes.
#[tactic(auto, unfolding(crate::specs::Records::write_rules))]
pub(crate) fn judge_records(data_identifier: u8, records: &[u8]) -> Answer
    ensures { result ≡ judged refused (write_rules data_identifier records.now) (Ok (packet_bytes records.now)) }
{
    if !pes::is_ebu(data_identifier) {
        return Reason::Range.refuse(0);
    }
    if records.len() % RECORD != 0 {
        return Reason::Length.refuse(0);
    }
    let units = records.len() / RECORD;
    if 1423 < units || !records_fit(records, units) {
        return Reason::Value.refuse(0);
    }
    Ok((units / 4 + 1) * PART)
}

// Whether each of the records is one that reading gives.
fn records_fit(records: &[u8], units: usize) -> bool
    requires { 44 * units ≤ length records.now }
    ensures { result ≡ records_fit units records.now 0 }
{
    for i in 0..units {
        if !record_fits(records[RECORD * i], records[RECORD * i + 1]) {
            return false;
        }
    }
    true
}

// Whether an id and a line byte are those of a text unit that reading takes.
fn record_fits(id: u8, line: u8) -> bool
    ensures { result ≡ both (text_id id) (line_fits line) }
{
    units::is_text(id) && units::line_fits(line)
}
