// Menu reading: the rules by which a Navigation Information block is taken, the menu that it gives, and how many of its control bytes
// were mended (SCOPE 23.6).
#![tactic(auto)]

mod spelling;

ghost use Rattle.std.specs.Prelude.{◌≡◌, length, drop};
ghost use Rattle.answer.specs.Rules.{judged};
ghost use Rattle.answer.specs.Values.{refused};
ghost use Rattle.answer.specs.Writing.{answered, left};
ghost use Rattle.std.specs.declared.result.Result.TheVariants.{Ok};
ghost use Rattle.blocks.specs.Block.{head_length};
ghost use Rattle.blocks.specs.Values.{counted};
ghost use Rattle.menu_forms.specs.Form.{form};
ghost use Rattle.menu_reader.specs.Reading.{length_rules, read_rules, sent_held, menu_held, menu_read, mended_control};

use answer::{Answer, Reason};
use blocks::{HEAD, Read, Taken};

// The datatype_id of Navigation Information.
const KIND: u8 = 3;

// A place in a block's control data, by nibbles, one in its strings and one in the menu's form.
#[derive(Clone, Copy)]
pub(crate) struct Spot {
    pub at: usize,
    pub from: usize,
    pub to: usize,
}

// The loops of control data whose entries are spelled alone.
#[derive(Clone, Copy)]
pub(crate) enum Loop {
    Descriptors,
    Escapes,
    Attributes,
}

// The menu of a block of this application: its form is written to the front of `out`.
pub fn read_menu(application: u8, rec: &[u8], out: &mut [u8]) -> Read
    ensures answer { result
        ≡ counted (mended_control rec.now)
        (answered (read_rules application rec.now) (form (menu_read (drop head_length rec.now))) out.old) }
    ensures output { out.new
        ≡ left (read_rules application rec.now) (form (menu_read (drop head_length rec.now))) out.old }
{
    let written = read_form(application, rec, out)?;
    let mended = kinds::mended_in(true, rec) as u16;
    Ok(Taken { written, mended })
}

// The same but for the count.
fn read_form(application: u8, rec: &[u8], out: &mut [u8]) -> Answer
    ensures answer { result ≡ answered (read_rules application rec.now) (form (menu_read (drop head_length rec.now))) out.old }
    ensures output { out.new
        ≡ left (read_rules application rec.now) (form (menu_read (drop head_length rec.now))) out.old }
{
    let length = kinds::judge(application, KIND, KIND, true, rec)?;
    let end = HEAD + length;
    read_parts(rec.len() - HEAD, &rec[HEAD..end], &rec[end..], out)
}

// What follows the checksum: the lengths, by a block's size, its control bytes and its string bytes; then the room.
fn read_parts(size: usize, control: &[u8], strings: &[u8], out: &mut [u8]) -> Answer
    ensures answer { result
        ≡ answered (length_rules size (sent_held control.now strings.now))
        (form (menu_held control.now strings.now)) out.old }
    ensures output { out.new
        ≡ left (length_rules size (sent_held control.now strings.now))
        (form (menu_held control.now strings.now)) out.old }
{
    let need = judge_lengths(size, control, strings)?;
    if out.len() < need {
        return Reason::NoRoom.refuse(0);
    }
    spelling::spell(control, strings, out);
    Ok(need)
}

// 14: where header_size is one of 0, 1, 2, and both sizes fit, the bytes of the menu's form. The menu is spelled into no room to find
// what it takes.
fn judge_lengths(size: usize, control: &[u8], strings: &[u8]) -> Answer
    ensures { result
        ≡ judged refused
        (length_rules size (sent_held control.now strings.now))
        (Ok (length (form (menu_held control.now strings.now)))) }
{
    let mut nowhere = [0u8; 0];
    let s = spelling::spell(control, strings, &mut nowhere);
    if 2 < fields::field_of(control, 44, 2) {
        return Reason::Parts.refuse(0);
    }
    if fields::field_of(control, 8, 10) != s.at / 2 {
        return Reason::Parts.refuse(0);
    }
    if size != 2 * (s.at / 2) + s.from {
        return Reason::Parts.refuse(0);
    }
    Ok(s.to)
}
