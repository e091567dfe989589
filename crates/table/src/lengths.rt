// The last rules of block reading: that the block number is one of this edition, that the loops, the control size and the fill of a block
// fit, and what room the table's form then takes.
ghost use Rattle.std.specs.Prelude.{◌≡◌, ◌+◌, ◌/◌, ◌^◌, ◌<◌, ◌≤◌, length};
ghost use Rattle.answer.specs.Rules.{judged};
ghost use Rattle.answer.specs.Values.{refused};
ghost use Rattle.std.specs.declared.result.Result.TheVariants.{Ok};
ghost use Rattle.forms.specs.Tables.{block_numbered, per, sent_in, loops};
ghost use Rattle.forms.specs.Form.{form};
ghost use Rattle.fields.specs.Fields.{width};
ghost use Rattle.fields.specs.Compound.{compound};
ghost use Rattle.table.specs.Control.{table_of, descriptors_of};
ghost use Rattle.table.specs.Lengths.{length_rules};
ghost use Rattle.table.specs.Internal.{opening_by, table_bits};

use answer::{Answer, Reason};
use fields::Opening;
use forms::{HEADING, LOOPS, OPENING, WORD};

// 22, 14: where the number is one of this edition, and loops, control size and fill fit, the bytes of the table's form. The block opens
// with these fields.
pub(crate) fn judge_lengths(size: usize, opening: Opening, body: &[u8]) -> Answer
    requires { opening ≡ opening_by (sent_in (compound body.now)) }
    ensures { result
        ≡ judged refused (length_rules size (sent_in (compound body.now)))
        (Ok (length (form (table_of (compound body.now))))) }
{
    if !is_numbered(size, opening.block as usize) {
        return Reason::Edition.refuse(0);
    }
    let count = opening.count as usize;
    let bits = measure(opening.kind as usize, count, body);
    let control = (bits + 7) / 8;
    if opening.control as usize != control || size != 2 * control {
        return Reason::Parts.refuse(0);
    }
    Ok(OPENING + (bits - LOOPS + 6 * count) / 8)
}

// Whether a block of this size has a block number of this edition, or is too short to have one.
fn is_numbered(size: usize, block: usize) -> bool
    ensures { result ≡ block_numbered size block }
{
    size < 12 || forms::numbered(block)
}

// The bits of a table with so many descriptors of a kind, by the counts in its loops as they stand.
fn measure(kind: usize, count: usize, body: &[u8]) -> usize
    requires { count < 256 }
    ensures { (result ≡ 58 + width (loops kind (descriptors_of (per kind) count (compound body.now / 2 ^ 58))))
        × (result ≤ table_bits) }
{
    let mut at = LOOPS;
    for _ in 0..count {
        let words = forms::words_of(kind, fields::field_of(body, at + 6, 4));
        at += HEADING + WORD * words;
    }
    at
}
