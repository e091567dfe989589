// The data units of a PES packet of teletext, one at a time: SCOPE 6; EN 300 472, clauses 4.3 and 4.4. Every public
// function takes any bytes and answers; nothing is kept between calls.
//
// The definitions are in specs/Units.antt. What a unit that is met tells is in proofs/Meets.antt. What an id and a line byte say alone
// is module `marks`.
#![tactic(auto)]

pub mod marks;

ghost use Rattle.std.specs.Prelude.{◌≡◌, ◌≤◌, length};
ghost use Rattle.std.specs.declared.result.Result.TheVariants.{Ok};
ghost use Rattle.laws.specs.Pick.{either};
ghost use Rattle.answer.specs.Rules.{judged};
ghost use Rattle.units.specs.Units.{text_id, stuffing_id, next_unit, text_rules, bad_unit, unit_at};

use answer::{Reason, Refusal};
pub use marks::{is_text, line_fits};

// What the unit walk finds at a place of a packet, where it refuses nothing. Offsets and places count
// from the packet's first byte.
#[derive(Clone, Copy)]
pub enum DataUnit {
    // No byte is left.
    End,
    // A text unit begins there, and the next unit at the place held.
    Text(usize),
    // A stuffing unit, the same.
    Stuffing(usize),
}

// One step of the unit walk: the unit that begins at `at`, or its refusal. Total over any bytes and any
// place.
#[tactic(auto, unfolding(crate::specs::Units::unit_at, crate::specs::Units::unit_rules))]
pub fn unit_at(pes: &[u8], at: usize) -> Result<DataUnit, Refusal>
    ensures { result ≡ unit_at pes.now at }
{
    if pes.len() <= at {
        return Ok(DataUnit::End);
    }
    if pes.len() - at < 2 {
        return Reason::UnitCut.refuse(at);
    }
    let id = pes[at];
    let next = at + 2 + (pes[at + 1] as usize);
    if !is_unit(id) {
        return Reason::UnitId.refuse(at);
    }
    if pes.len() < next {
        return Reason::UnitCut.refuse(at);
    }
    if id == 0xFF {
        return Ok(DataUnit::Stuffing(next));
    }
    text_at(pes, at)
}

// The text unit at `at`, which doesn't run past the end.
#[tactic(auto, unfolding(crate::specs::Units::text_rules))]
fn text_at(pes: &[u8], at: usize) -> Result<DataUnit, Refusal>
    requires { next_unit pes.now at ≤ length pes.now }
    ensures { result ≡ judged bad_unit (text_rules pes.now at) (Ok (DataUnit.Text (next_unit pes.now at))) }
{
    let size = pes[at + 1];
    if size != 0x2C {
        return Reason::UnitLength.refuse(at);
    }
    let line = at + 2;
    if !marks::line_fits(pes[line]) {
        return Reason::UnitLine.refuse(line);
    }
    let framing = at + 3;
    if pes[framing] != 0xE4 {
        return Reason::UnitLine.refuse(framing);
    }
    Ok(DataUnit::Text(at + 46))
}

// Whether an id is a text unit's or that of stuffing.
fn is_unit(id: u8) -> bool
    ensures { result ≡ either (text_id id) (stuffing_id id) }
{
    marks::is_text(id) || id == 0xFF
}
