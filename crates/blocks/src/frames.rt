// The frame of a record that is lent: the first rules of reading, whatever the block holds (SCOPE 3.6, 19.4).
ghost use Rattle.std.specs.Prelude.{◌≡◌, ◌<◌};
ghost use Rattle.answer.specs.Rules.{judged};
ghost use Rattle.blocks.specs.Block.{head_of};
ghost use Rattle.blocks.specs.Framing.{framing};
ghost use Rattle.answer.specs.Values.{refused};
ghost use Rattle.std.specs.declared.result.Result.TheVariants.{Ok};

use crate::HEAD;
use answer::{Answer, Reason};

// 16, 13, 16, 12, 13: the record as it is lent, and its head's 16 bits where it is taken.
pub fn judge(application: u8, rec: &[u8]) -> Answer
    ensures { result ≡ judged refused (framing application rec.now) (Ok (head_of rec.now)) }
{
    if 32 <= application {
        return Reason::Range.refuse(0);
    }
    let head = head_of(rec);
    if rec.len() != HEAD + head / 32 {
        return Reason::Length.refuse(0);
    }
    if 5 < rec[2] {
        return Reason::Range.refuse(0);
    }
    if 1 < rec[3] {
        return Reason::Range.refuse(0);
    }
    if head % 32 != application as usize {
        return Reason::OtherBlock.refuse(0);
    }
    if head / 32 < 8 {
        return Reason::Length.refuse(0);
    }
    Ok(head)
}

// The 16 bits of a record's head.
fn head_of(rec: &[u8]) -> usize
    ensures { (result ≡ head_of rec.now) × (result < 65536) }
{
    lent_bytes::byte_at(rec, 0) + 256 * lent_bytes::byte_at(rec, 1)
}
