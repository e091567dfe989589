// A table as its form, the bytes that block writing and the list take: its parts, and whether it can be
// written.
#![tactic(auto)]

pub mod items;

ghost use Rattle.std.specs.Prelude.{true, ◌≡◌, ◌∷◌, [], ◌≤◌, length, get_or};
ghost use Rattle.answer.specs.Rules.{rule, judged};
ghost use Rattle.answer.specs.Values.{refused};
ghost use Rattle.std.specs.declared.result.Result.TheVariants.{Ok};
ghost use Rattle.fields.specs.Fields.{fitting};
ghost use Rattle.forms.specs.Tables.{bits, loops, fits, known, numbered};
ghost use Rattle.forms.specs.Form.{form, table_in};
ghost use Rattle.forms.specs.Writing.{form_numbered, form_rules};
ghost use Rattle.forms.specs.Internal.{form_most};

use answer::{Answer, Reason};
pub use items::{TI, known, numbered, word_at, words_of};

// The bits before the first descriptor in tables 15 and 17.
pub const LOOPS: usize = 58;

// A descriptor's id, 6 bits, and its number of entries, 4, stand before its words.
pub const HEADING: usize = 10;

// A language or a page.
pub const WORD: usize = 24;

// The bytes of a form before its descriptors.
pub const OPENING: usize = 6;

// What control_block_size can count: 1,023 times 8 bits.
const MOST: usize = 8184;

// 22, 13, 15: whether a form is one that can be written; where it is, the bits that its table takes.
pub fn judge_form(table: &[u8]) -> Answer
    ensures { result ≡ judged refused (form_rules table.now) (Ok (bits (table_in table.now))) }
{
    if !is_numbered(table) {
        return Reason::Edition.refuse(0);
    }
    if table.len() < OPENING {
        return Reason::Length.refuse(0);
    }
    if !items::known(lent_bytes::byte_at(table, 0)) {
        return Reason::Value.refuse(0);
    }
    if table.len() != form_size(table) {
        return Reason::Length.refuse(0);
    }
    judge_values(table)
}

// Whether a form has a block number of this edition, or is too short to have one.
fn is_numbered(table: &[u8]) -> bool
    ensures { result ≡ form_numbered table.now }
{
    table.len() < 4
        || items::numbered(lent_bytes::byte_at(table, 2) + 256 * lent_bytes::byte_at(table, 3))
}

// The length of a form by its counts as they stand.
// Kept: `loops_fit` and the writers of blocks, lists and descriptors walk a form the same way: one walk for all would take a closure that
// writes, and what such a closure leaves a proof can't say.
fn form_size(table: &[u8]) -> usize
    ensures { (result ≡ length (form (table_in table.now))) × (result ≤ form_most) }
{
    let kind = lent_bytes::byte_at(table, 0);
    let mut at = OPENING;
    for _ in 0..lent_bytes::byte_at(table, 5) {
        at += 2 + 3 * items::words_of(kind, lent_bytes::byte_at(table, at + 1));
    }
    at
}

// 15: each value fits its field. Networks and words always do.
fn judge_values(table: &[u8]) -> Answer
    requires { (known (get_or table.now 0 0) ≡ true)
        × (length table.now ≡ length (form (table_in table.now)))
        × (length table.now ≤ form_most)
        × (numbered (table_in table.now).block ≡ true) }
    ensures { result
        ≡ judged refused (rule (fits (table_in table.now)) 15 0 ∷ []) (Ok (bits (table_in table.now))) }
{
    let count = lent_bytes::byte_at(table, 5);
    if 1 < lent_bytes::byte_at(table, 1) || 63 < count || !loops_fit(table) {
        return Reason::Value.refuse(0);
    }
    let bits = LOOPS + 8 * (table.len() - OPENING) - 6 * count;
    if MOST < bits {
        return Reason::Value.refuse(0);
    }
    Ok(bits)
}

// Whether each descriptor's id and number of entries fit their fields.
fn loops_fit(table: &[u8]) -> bool
    ensures { result ≡ fitting (loops (table_in table.now).kind (table_in table.now).descriptors) }
{
    let kind = lent_bytes::byte_at(table, 0);
    let mut at = OPENING;
    for _ in 0..lent_bytes::byte_at(table, 5) {
        let entries = lent_bytes::byte_at(table, at + 1);
        if 63 < lent_bytes::byte_at(table, at) || 15 < entries {
            return false;
        }
        at += 2 + 3 * items::words_of(kind, entries);
    }
    true
}
