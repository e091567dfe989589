// Reading a block of any kind up to its checksum, whatever stands behind its opening fields (SCOPE 3.6, 19.4, 23.6), and how many of its
// bytes were mended.
#![tactic(auto)]

ghost use Rattle.std.specs.Prelude.{◌≡◌, map, ◌+◌, ◌%◌, ◌^◌, ◌<◌, ◌≤◌, eqb, length, drop};
ghost use Rattle.laws.specs.Pick.{either};
ghost use Rattle.answer.specs.Rules.{judged};
ghost use Rattle.answer.specs.Values.{refused};
ghost use Rattle.std.specs.declared.result.Result.TheVariants.{Ok};
ghost use Rattle.blocks.specs.Block.{head_length};
ghost use Rattle.octet.specs.Decoding.{nib};
ghost use Rattle.kinds.specs.Reading.{front_in, one_of, control_part, front_rules, whole_rules, body_rules, sum_rules, mended_of};
ghost use Rattle.kinds.specs.Internal.{part_rules};

use answer::{Answer, Reason};
use blocks::HEAD;

// The first bytes of a block, which are control bytes whatever the control size is.
const FIRST: usize = 8;

// Checksum, control size and datatype_id are the first 24 bits; so much lies below the second and the third.
const ABOVE_SUM: usize = 256;

const ABOVE_CONTROL: usize = 262144;

// The blocks that are asked for: their datatype_id is one of two, and strings stand behind their control data or not.
#[derive(Clone, Copy)]
struct Asked {
    pub first: u8,
    pub second: u8,
    pub spoken: bool,
}

impl Asked {
    // What follows the frame, cut into control bytes and string bytes.
    fn judge_body(self, head: usize, raw: &[u8]) -> Answer
        requires { 8 ≤ length raw.now }
        ensures { result
            ≡ judged refused (body_rules (one_of self.first self.second) self.spoken head raw.now)
            (Ok (length (control_part self.spoken raw.now))) }
    {
        let length = control_length(self.spoken, raw);
        self.judge_parts(head, &raw[..length], &raw[length..])
    }

    // The same of the two.
    fn judge_parts(self, head: usize, control: &[u8], strings: &[u8]) -> Answer
        requires { (8 ≤ length control.now) × (length control.now + length strings.now < 2 ^ 63) }
        ensures { result
            ≡ judged refused (part_rules (one_of self.first self.second) self.spoken head (map nib control.now) strings.now)
            (Ok (length control.now)) }
    {
        let opening = fields::field_of(control, 0, 24);
        self.judge_front(head / 32, opening / ABOVE_CONTROL, control)?;
        judge_whole(head, opening % ABOVE_SUM, control, strings)
    }

    // 10 in its first eight bytes, 12, 13: what can be said of a block before it is read whole.
    fn judge_front(self, size: usize, kind: usize, control: &[u8]) -> Answer
        requires { (8 ≤ length control.now) × (kind ≡ (front_in (map nib control.now)).kind) }
        ensures { result ≡ judged refused (front_rules (one_of self.first self.second) self.spoken size (map nib control.now)) (Ok 0) }
    {
        let good = blocks::sums::sound(&control[..FIRST]);
        if good != FIRST {
            return Reason::Undecodable.refuse(HEAD + good);
        }
        if !self.is_kind(kind) {
            return Reason::OtherBlock.refuse(0);
        }
        if fields::field_of(control, 24, 2) != 0 {
            return Reason::OtherBlock.refuse(0);
        }
        if !self.is_whole(size) {
            return Reason::Length.refuse(0);
        }
        Ok(0)
    }

    // Whether a kind is one of the two.
    fn is_kind(self, kind: usize) -> bool
        ensures { result ≡ one_of self.first self.second kind }
    {
        kind == self.first as usize || kind == self.second as usize
    }

    // Whether so many bytes can be a block: without strings two go together.
    fn is_whole(self, size: usize) -> bool
        ensures { result ≡ either self.spoken (eqb (size % 2) 0) }
    {
        self.spoken || size % 2 == 0
    }
}

// Whether a record is a block of this application of one of two kinds, in clear, that can be read up to its checksum: how many of its
// bytes behind the head are control bytes. With strings these are as many as it says, without them all.
pub fn judge(application: u8, first: u8, second: u8, spoken: bool, rec: &[u8]) -> Answer
    ensures { result
        ≡ judged refused (sum_rules (one_of first second) spoken application rec.now)
        (Ok (length (control_part spoken (drop head_length rec.now)))) }
{
    let head = blocks::frames::judge(application, rec)?;
    let asked = Asked {
        first,
        second,
        spoken,
    };
    asked.judge_body(head, &rec[HEAD..])
}

// How many bytes of a record's block were mended: its part, and its control bytes that aren't images.
pub fn mended_in(spoken: bool, rec: &[u8]) -> usize
    ensures { result ≡ mended_of spoken rec.now }
{
    if !spoken || rec.len() < HEAD + FIRST {
        return blocks::sums::mended_in(rec);
    }
    let end = HEAD + control_length(spoken, &rec[HEAD..]);
    blocks::sums::mended_in(&rec[..end])
}

// How many of a block's bytes are control bytes.
fn control_length(spoken: bool, raw: &[u8]) -> usize
    requires { 8 ≤ length raw.now }
    ensures { (result ≡ length (control_part spoken raw.now)) × (8 ≤ result) × (result ≤ length raw.now) }
{
    if !spoken {
        return raw.len();
    }
    let control = 2 * fields::field_of(&raw[..FIRST], 8, 10);
    control.min(raw.len()).max(FIRST)
}

// 10 in any other control byte, 23, 11: the block says this sum.
fn judge_whole(head: usize, said: usize, control: &[u8], strings: &[u8]) -> Answer
    requires { (length control.now + length strings.now < 2 ^ 63) × (said ≡ (front_in (map nib control.now)).checksum) }
    ensures { result
        ≡ judged refused (whole_rules head (map nib control.now) strings.now)
        (Ok (length control.now)) }
{
    let sum = blocks::sums::sum_of(head, control);
    if 255 < sum {
        return Reason::Undecodable.refuse(HEAD + blocks::sums::sound(control));
    }
    let odd = parity::odds(strings);
    if odd != strings.len() {
        return Reason::Parity.refuse(HEAD + control.len() + odd);
    }
    if said != sum {
        return Reason::Checksum.refuse(0);
    }
    Ok(control.len())
}
