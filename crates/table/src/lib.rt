// Block reading: the rules by which a Subtitle or Language block is taken, the table that it gives
// (SCOPE 3.6, 12), and how many of its bytes were mended (SCOPE 19).
#![tactic(auto)]

mod lengths;
mod spelling;

ghost use Rattle.std.specs.Prelude.{◌≡◌, map, ◌<◌, ◌≤◌, length};
ghost use Rattle.answer.specs.Rules.{judged};
ghost use Rattle.answer.specs.Values.{refused};
ghost use Rattle.answer.specs.Writing.{answered, left};
ghost use Rattle.std.specs.declared.result.Result.TheVariants.{Ok};
ghost use Rattle.octet.specs.Decoding.{nib};
ghost use Rattle.forms.specs.Form.{form};
ghost use Rattle.forms.specs.Tables.{sent_in};
ghost use Rattle.fields.specs.Compound.{compound};
ghost use Rattle.blocks.specs.Parts.{mended_in};
ghost use Rattle.blocks.specs.Values.{counted};
ghost use Rattle.table.specs.Reading.{read_rules, table_read};
ghost use Rattle.table.specs.Control.{table_of};
ghost use Rattle.table.specs.Internal.{opening_by, front_rules, whole_rules, body_rules};

use answer::{Answer, Reason};
use blocks::{HEAD, Read, Taken};
use fields::Opening;

// The table of a block of this application: its form is written to the front of `out`. Each protected
// byte is decoded at most six times: for the tests that it can be, for the sum, for the count, and for
// fields, of which two may share a byte.
pub fn read_block(application: u8, rec: &[u8], out: &mut [u8]) -> Read
    ensures answer { result
        ≡ counted (mended_in rec.now)
        (answered (read_rules application rec.now) (form (table_read rec.now)) out.old) }
    ensures output { out.new
        ≡ left (read_rules application rec.now) (form (table_read rec.now)) out.old }
{
    let written = read_form(application, rec, out)?;
    let mended = blocks::sums::mended_in(rec) as u16;
    Ok(Taken { written, mended })
}

// The same but for the count.
fn read_form(application: u8, rec: &[u8], out: &mut [u8]) -> Answer
    ensures answer { result ≡ answered (read_rules application rec.now) (form (table_read rec.now)) out.old }
    ensures output { out.new
        ≡ left (read_rules application rec.now) (form (table_read rec.now)) out.old }
{
    let head = blocks::frames::judge(application, rec)?;
    read_body(head, &rec[HEAD..], out)
}

// What follows the frame, with the fields that the block opens with taken once.
fn read_body(head: usize, body: &[u8], out: &mut [u8]) -> Answer
    requires { 8 ≤ length body.now }
    ensures answer { result
        ≡ answered (body_rules head (map nib body.now)) (form (table_of (compound body.now)))
        out.old }
    ensures output { out.new
        ≡ left (body_rules head (map nib body.now)) (form (table_of (compound body.now)))
        out.old }
{
    let opening = fields::opening_of(body);
    let need = judge_body(head, opening, body)?;
    if out.len() < need {
        return Reason::NoRoom.refuse(0);
    }
    spelling::write_form(opening, body, out);
    Ok(need)
}

// All rules after those of the frame but the room; where they hold, the bytes of the table's form.
fn judge_body(head: usize, opening: Opening, body: &[u8]) -> Answer
    requires { (8 ≤ length body.now) × (opening ≡ opening_by (sent_in (compound body.now))) }
    ensures { result
        ≡ judged refused (body_rules head (map nib body.now))
        (Ok (length (form (table_of (compound body.now))))) }
{
    judge_front(head / 32, opening, body)?;
    judge_whole(head, opening, body)?;
    lengths::judge_lengths(head / 32, opening, body)
}

// 10 in its first eight bytes, 12, 13: what can be said of a block before it is read whole.
// Kept: `Ok(0)`, here and below: `judged refused` is said of answers, which count bytes.
fn judge_front(size: usize, opening: Opening, body: &[u8]) -> Answer
    requires { (8 ≤ length body.now) × (opening ≡ opening_by (sent_in (compound body.now))) }
    ensures { result ≡ judged refused (front_rules size (map nib body.now) (sent_in (compound body.now))) (Ok 0) }
{
    let good = blocks::sums::sound(&body[..8]);
    if good != 8 {
        return Reason::Undecodable.refuse(HEAD + good);
    }
    if !forms::known(opening.kind as usize) || opening.access != 0 {
        return Reason::OtherBlock.refuse(0);
    }
    if size % 2 != 0 {
        return Reason::Length.refuse(0);
    }
    Ok(0)
}

// 10 in any other byte, 11.
fn judge_whole(head: usize, opening: Opening, body: &[u8]) -> Answer
    requires { opening ≡ opening_by (sent_in (compound body.now)) }
    ensures { result ≡ judged refused (whole_rules head (map nib body.now) (sent_in (compound body.now))) (Ok 0) }
{
    let sum = blocks::sums::sum_of(head, body);
    if 255 < sum {
        return Reason::Undecodable.refuse(HEAD + blocks::sums::sound(body));
    }
    if opening.checksum as usize != sum {
        return Reason::Checksum.refuse(0);
    }
    Ok(0)
}
