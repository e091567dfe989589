// Writing Application Information: forms to blocks (EN 300 707, clause 11.2).
#![tactic(auto)]

mod laying;
mod measuring;

ghost use Rattle.std.specs.Prelude.{◌≡◌, ◌+◌, ◌≤◌, ◌<◌, length};
ghost use Rattle.std.proofs.lemmas.List.Edits.{sets};
ghost use Rattle.answer.specs.Rules.{judged};
ghost use Rattle.answer.specs.Values.{refused};
ghost use Rattle.answer.specs.Writing.{answered, left};
ghost use Rattle.std.specs.declared.result.Result.TheVariants.{Ok};
ghost use Rattle.kinds.specs.Kind.{size};
ghost use Rattle.information_forms.specs.Information.{names};
ghost use Rattle.information_forms.specs.Form.{information_in};
ghost use Rattle.information_forms.specs.Kind.{information, content, record_of};
ghost use Rattle.information_forms.specs.Writing.{write_rules};
ghost use Rattle.information_writer.specs.Internal.{Counted};

use answer::{Answer, Reason};
use blocks::HEAD;
use information_forms::{AI, NETWORK, OPENING};

// A form, measured: how many codes its names have, and whether its values fit.
#[derive(Clone, Copy)]
pub(crate) struct Measured {
    pub codes: usize,
    pub fine: bool,
}

// One more than block_size can count.
const LIMIT: usize = 2048;

// The record of Application Information of this application, from its form, to the front of `out`. Nothing is written before all is
// judged.
pub fn write_information(application: u8, form: &[u8], out: &mut [u8]) -> Answer
    ensures answer { result
        ≡ answered (write_rules application form.now) (record_of application (information_in form.now))
        out.old }
    ensures output { out.new
        ≡ left (write_rules application form.now) (record_of application (information_in form.now))
        out.old }
{
    let whole = measuring::measure(form);
    let need = judge(application, form, whole)?;
    if out.len() < need {
        return Reason::NoRoom.refuse(0);
    }
    write_record(application, form, whole.codes, out);
    Ok(need)
}

// 16, 13, 15; where all hold, the bytes of the record.
fn judge(application: u8, form: &[u8], whole: Measured) -> Answer
    requires { Counted whole (information_in form.now) × (whole.codes ≤ 65280) }
    ensures { result
        ≡ judged refused (write_rules application form.now)
        (Ok (length (record_of application (information_in form.now)))) }
{
    if 32 <= application {
        return Reason::Range.refuse(0);
    }
    if form.len() < OPENING {
        return Reason::Length.refuse(0);
    }
    if lent_bytes::byte_at(form, 0) != AI {
        return Reason::Value.refuse(0);
    }
    let networks = lent_bytes::byte_at(form, measuring::NETWORKS);
    if form.len() != OPENING + NETWORK * networks + whole.codes {
        return Reason::Length.refuse(0);
    }
    if !whole.fine {
        return Reason::Value.refuse(0);
    }
    let size = 40 + 25 * networks + networks % 2 + whole.codes;
    if LIMIT <= size {
        return Reason::Value.refuse(0);
    }
    Ok(HEAD + size)
}

// The record of a form that can be sent and whose names have so many codes.
fn write_record(application: u8, form: &[u8], codes: usize, out: &mut [u8])
    requires { (application < 32)
        × (codes ≡ length (names (information_in form.now)))
        × (size information (content (information_in form.now)) < 2048)
        × (4 + size information (content (information_in form.now)) ≤ length out.old)
        × ((information_in form.now).copyright < 2) }
    ensures { out.new ≡ sets out.old 0 (record_of application (information_in form.now)) }
{
    let networks = lent_bytes::byte_at(form, measuring::NETWORKS);
    let name = lent_bytes::byte_at(form, measuring::NAME);
    let control = 20 + (25 * networks + networks % 2) / 2;
    let head = application as usize + 32 * (2 * control + codes);
    blocks::put_head(head, out);
    laying::lay_control(form, control, networks, name, out);
    laying::put_letters(form, OPENING, name, out, HEAD + 2 * control);
    laying::put_names(form, networks, name, out, HEAD + 2 * control);
    blocks::seal(head, 2 * control, out);
}
