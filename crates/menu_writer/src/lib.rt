// Menus to blocks (SCOPE 23.7).
#![tactic(auto)]

mod loops;
mod measuring;
mod putting;

ghost use Rattle.std.specs.Prelude.{◌≡◌, map, ◌∷◌, [], ◌+◌, ◌*◌, ◌/◌, ◌%◌, ◌<◌, ◌≤◌, length, take, drop};
ghost use Rattle.std.proofs.lemmas.List.Edits.{sets};
ghost use Rattle.octet.specs.Decoding.{nib};
ghost use Rattle.octet.specs.Image.{image};
ghost use Rattle.answer.specs.Rules.{judged};
ghost use Rattle.answer.specs.Values.{refused};
ghost use Rattle.answer.specs.Writing.{answered, left};
ghost use Rattle.std.specs.declared.result.Result.TheVariants.{Ok};
ghost use Rattle.fields.specs.Fields.{parts};
ghost use Rattle.blocks.specs.Sums.{checksum};
ghost use Rattle.menu_forms.specs.Menus.{size};
ghost use Rattle.menu_forms.specs.Form.{menu_in};
ghost use Rattle.menu_forms.specs.Block.{record_of};
ghost use Rattle.menu_forms.specs.Writing.{write_rules};
ghost use Rattle.menu_writer.specs.Internal.{Whole};

use answer::{Answer, Reason};
use blocks::HEAD;
use menu_forms::{NI, OPENING};

// The loops of a form.
#[derive(Clone, Copy)]
pub(crate) enum Loop {
    Codes,
    Descriptors,
    Escapes,
    Attributes,
}

// What was passed over: the place behind it, and whether its values fit.
#[derive(Drop)]
pub(crate) struct Passed {
    pub end: usize,
    pub fine: bool,
}

// A place in the form and one in the output.
#[derive(Clone, Copy)]
pub(crate) struct Spot {
    pub at: usize,
    pub to: usize,
}

// A part of a form, measured: the place behind it, the bytes of control data and of strings that it
// takes, and whether its values fit.
#[derive(Clone, Copy)]
pub(crate) struct Tally {
    pub end: usize,
    pub control: usize,
    pub strings: usize,
    pub fine: bool,
}

// One more than block_size can count.
const LIMIT: usize = 2048;

// The record of a menu of this application, from the menu's form, to the front of `out`. Nothing is written before all is judged.
pub fn write_menu(application: u8, form: &[u8], out: &mut [u8]) -> Answer
    ensures answer { result
        ≡ answered (write_rules application form.now) (record_of application (menu_in form.now))
        out.old }
    ensures output { out.new
        ≡ left (write_rules application form.now) (record_of application (menu_in form.now))
        out.old }
{
    let whole = measuring::measure(form);
    let need = judge(application, form, whole)?;
    if out.len() < need {
        return Reason::NoRoom.refuse(0);
    }
    write_record(application, form, whole, out);
    Ok(need)
}

// 16, 13, 15; where all hold, the bytes of the record.
fn judge(application: u8, form: &[u8], whole: Tally) -> Answer
    requires { Whole whole form.now × (whole.control ≤ 600000) × (whole.strings ≤ 70000) }
    ensures { result
        ≡ judged refused (write_rules application form.now)
        (Ok (length (record_of application (menu_in form.now)))) }
{
    if 32 <= application {
        return Reason::Range.refuse(0);
    }
    if form.len() < OPENING {
        return Reason::Length.refuse(0);
    }
    if lent_bytes::byte_at(form, 0) != NI {
        return Reason::Value.refuse(0);
    }
    if form.len() != whole.end {
        return Reason::Length.refuse(0);
    }
    let size = 2 * whole.control + whole.strings;
    if !whole.fine || LIMIT <= size {
        return Reason::Value.refuse(0);
    }
    Ok(HEAD + size)
}

// The record of a form whose menu can be sent.
fn write_record(application: u8, form: &[u8], whole: Tally, out: &mut [u8])
    requires { (application < 32)
        × Whole whole form.now
        × (size (menu_in form.now) < 2048)
        × (4 + size (menu_in form.now) ≤ length out.old) }
    ensures { out.new ≡ sets out.old 0 (record_of application (menu_in form.now)) }
{
    let control = 2 * whole.control;
    let head = application as usize + 32 * (control + whole.strings);
    blocks::put_head(head, out);
    putting::put_control(form, whole.control, out);
    putting::put_all_strings(form, out, HEAD + control);
    blocks::seal(head, control, out);
}
