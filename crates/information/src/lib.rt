// Reading Application Information: the rules by which a block is taken, the form of what it holds, and how many of its control bytes were
// mended (EN 300 707, clause 11.2).
#![tactic(auto)]

mod spelling;

ghost use Rattle.std.specs.Prelude.{◌≡◌, ◌+◌, ◌^◌, ◌<◌, length, drop};
ghost use Rattle.answer.specs.Rules.{judged};
ghost use Rattle.answer.specs.Values.{refused};
ghost use Rattle.answer.specs.Writing.{answered, left};
ghost use Rattle.std.specs.declared.result.Result.TheVariants.{Ok};
ghost use Rattle.blocks.specs.Block.{head_length};
ghost use Rattle.blocks.specs.Values.{counted};
ghost use Rattle.kinds.specs.Reading.{carried_by, length_rules};
ghost use Rattle.information_forms.specs.Kind.{information};
ghost use Rattle.information_forms.specs.Form.{form};
ghost use Rattle.information.specs.Reading.{read_rules, information_read, mended_control};
ghost use Rattle.information.specs.Internal.{held};

use answer::{Answer, Reason};
use blocks::{HEAD, Read, Taken};
use information_forms::{NETWORK, OPENING};

// The datatype_id of Application Information.
const AI: u8 = 1;

// The Application Information of a block of this application: its form is written to the front of `out`.
pub fn read_information(application: u8, rec: &[u8], out: &mut [u8]) -> Read
    ensures answer { result
        ≡ counted (mended_control rec.now)
        (answered (read_rules application rec.now) (form (information_read (drop head_length rec.now))) out.old) }
    ensures output { out.new
        ≡ left (read_rules application rec.now) (form (information_read (drop head_length rec.now))) out.old }
{
    let written = read_form(application, rec, out)?;
    let mended = kinds::mended_in(true, rec) as u16;
    Ok(Taken { written, mended })
}

// The same but for the count.
fn read_form(application: u8, rec: &[u8], out: &mut [u8]) -> Answer
    ensures answer { result
        ≡ answered (read_rules application rec.now) (form (information_read (drop head_length rec.now))) out.old }
    ensures output { out.new
        ≡ left (read_rules application rec.now) (form (information_read (drop head_length rec.now))) out.old }
{
    let length = kinds::judge(application, AI, AI, true, rec)?;
    let end = HEAD + length;
    read_parts(&rec[HEAD..end], &rec[end..], out)
}

// What is left to be judged of control bytes and string bytes, then the room, then the form.
fn read_parts(control: &[u8], strings: &[u8], out: &mut [u8]) -> Answer
    requires { length control.now + length strings.now < 2 ^ 63 }
    ensures answer { result
        ≡ answered
        (length_rules information (length control.now + length strings.now)
        (carried_by information control.now strings.now))
        (form (held control.now strings.now)) out.old }
    ensures output { out.new
        ≡ left
        (length_rules information (length control.now + length strings.now)
        (carried_by information control.now strings.now))
        (form (held control.now strings.now)) out.old }
{
    let need = judge_lengths(control, strings)?;
    if out.len() < need {
        return Reason::NoRoom.refuse(0);
    }
    spelling::spell(control, strings, out);
    Ok(need)
}

// 14: where both sizes fit, the bytes of the form. It is spelled into no room to find how many codes its names have.
fn judge_lengths(control: &[u8], strings: &[u8]) -> Answer
    requires { length control.now + length strings.now < 2 ^ 63 }
    ensures { result
        ≡ judged refused
        (length_rules information (length control.now + length strings.now)
        (carried_by information control.now strings.now))
        (Ok (length (form (held control.now strings.now)))) }
{
    let mut nowhere = [0u8; 0];
    let names = spelling::spell(control, strings, &mut nowhere);
    let networks = fields::field_of(control, spelling::NETWORKS, 8);
    let size = 20 + (25 * networks + networks % 2) / 2;
    if fields::field_of(control, 8, 10) != size {
        return Reason::Parts.refuse(0);
    }
    if control.len() + strings.len() != 2 * size + names {
        return Reason::Parts.refuse(0);
    }
    Ok(OPENING + NETWORK * networks + names)
}
