// Subtitle and Language tables to blocks (SCOPE 3.7, 12).
#![tactic(auto)]

ghost use Rattle.std.specs.Prelude.{true, ◌≡◌, map, ◌∷◌, [], ◌+◌, ◌-◌, ◌*◌, ◌/◌, ◌%◌, ◌^◌, ◌<◌, ◌≤◌, length, drop};
ghost use Rattle.fields.specs.Fields.{alike, laid, fitting};
ghost use Rattle.fields.specs.Pens.{inked, moved, Fine};
ghost use Rattle.forms.specs.Tables.{loops, size, fits, bits as tables_bits};
ghost use Rattle.forms.specs.Form.{words_in, table_in};
ghost use Rattle.forms.specs.Internal.{form_most};
ghost use Rattle.forms.specs.Block.{nibbles, record_of};
ghost use Rattle.octet.specs.Image.{image};
ghost use Rattle.std.proofs.lemmas.List.Edits.{sets};
ghost use Rattle.table_writer.specs.Internal.{first_fields, second_fields};
ghost use Rattle.answer.specs.Rules.{judged};
ghost use Rattle.answer.specs.Values.{refused};
ghost use Rattle.answer.specs.Writing.{answered, left};
ghost use Rattle.std.specs.declared.result.Result.TheVariants.{Ok};
ghost use Rattle.forms.specs.Writing.{write_rules};

use answer::{Answer, Reason};
use blocks::HEAD;
use fields::pen;
use fields::pen::Pen;
use forms::{HEADING, OPENING, WORD};

// The record of a table of this application, from the table's form, to the front of `out`. It holds
// nothing but counters and the bits of one field.
pub fn write_block(application: u8, table: &[u8], out: &mut [u8]) -> Answer
    ensures answer { result
        ≡ answered (write_rules application table.now) (record_of application (table_in table.now))
        out.old }
    ensures output { out.new
        ≡ left (write_rules application table.now) (record_of application (table_in table.now))
        out.old }
{
    let bits = judge(application, table)?;
    let need = HEAD + 2 * ((bits + 7) / 8);
    if out.len() < need {
        return Reason::NoRoom.refuse(0);
    }
    write_record(application, table, bits, out);
    Ok(need)
}

// 16, then the form's own rules; where all hold, the bits of the table.
fn judge(application: u8, table: &[u8]) -> Answer
    ensures { result ≡ judged refused (write_rules application table.now) (Ok (tables_bits (table_in table.now))) }
{
    if 32 <= application {
        return Reason::Range.refuse(0);
    }
    forms::judge_form(table)
}

// The record of a form whose values fit.
fn write_record(application: u8, table: &[u8], bits: usize, out: &mut [u8])
    requires { (application < 32)
        × (fits (table_in table.now) ≡ true)
        × (bits ≡ tables_bits (table_in table.now))
        × (4 + size (table_in table.now) ≤ length out.old) }
    ensures { out.new ≡ sets out.old 0 (record_of application (table_in table.now)) }
{
    let size = 2 * ((bits + 7) / 8);
    let head = application as usize + 32 * size;
    blocks::put_head(head, out);
    write_fields(table, bits, out);
    blocks::seal(head, size, out);
}

// Lays all fields behind the head, the checksum's as zeros.
fn write_fields(table: &[u8], bits: usize, out: &mut [u8])
    requires { (fits (table_in table.now) ≡ true) × (bits ≡ tables_bits (table_in table.now)) }
    ensures { out.new ≡ sets out.old 4 (map image (nibbles 0 0 0 (table_in table.now))) }
{
    let control = (bits + 7) / 8;
    let first = first_fields(table, control);
    let second = second_fields(table);
    let start = Pen {
        at: HEAD,
        held: 0,
        bits: 0,
    };
    let a = pen::lay(start, 28, first, out);
    let b = pen::lay(a, 30, second, out);
    let c = put_descriptors(table, b, out);
    pen::lay(c, 8 * control - bits, 0, out);
}

// The first six fields of a block but for its checksum, as one of 28 bits.
fn first_fields(table: &[u8], control: usize) -> usize
    requires { (fits (table_in table.now) ≡ true) × (control < 1024) }
    ensures { (result ≡ laid (first_fields control (table_in table.now)) 0) × (result < 2 ^ 28) }
{
    let kind = lent_bytes::byte_at(table, 0);
    let copyright = lent_bytes::byte_at(table, 1);
    ((copyright * 256 + kind) * 1024 + control) * 256
}

// The three fields after them, as one of 30 bits.
fn second_fields(table: &[u8]) -> usize
    requires { fits (table_in table.now) ≡ true }
    ensures { (result ≡ laid (second_fields (table_in table.now)) 0) × (result < 2 ^ 30) }
{
    let block = lent_bytes::byte_at(table, 2) + 256 * lent_bytes::byte_at(table, 3);
    let network = lent_bytes::byte_at(table, 4);
    let count = lent_bytes::byte_at(table, 5);
    (count * 256 + network) * 65536 + block
}

// Lays the descriptors of a form whose values fit.
fn put_descriptors(table: &[u8], pen: Pen, out: &mut [u8]) -> Pen
    requires { Fine pen
        × (fitting (loops (table_in table.now).kind (table_in table.now).descriptors) ≡ true) }
    ensures { (result ≡ moved pen (loops (table_in table.now).kind (table_in table.now).descriptors))
        × (out.new
        ≡ inked pen (loops (table_in table.now).kind (table_in table.now).descriptors) out.old) }
{
    let kind = lent_bytes::byte_at(table, 0);
    let mut p = pen;
    let mut i = OPENING;
    for _ in 0..lent_bytes::byte_at(table, 5) {
        let id = lent_bytes::byte_at(table, i);
        let entries = lent_bytes::byte_at(table, i + 1);
        let words = forms::words_of(kind, entries);
        let q = pen::lay(p, HEADING, entries * 64 + id, out);
        p = put_words(table, i + 2, words, q, out);
        i += 2 + 3 * words;
    }
    p
}

// Lays the k words from a place of the form on.
fn put_words(table: &[u8], from: usize, k: usize, pen: Pen, out: &mut [u8]) -> Pen
    requires { Fine pen
        × (from + 3 * k ≤ form_most) }
    ensures { (result ≡ moved pen (alike 24 (words_in k (drop from table.now))))
        × (out.new ≡ inked pen (alike 24 (words_in k (drop from table.now))) out.old) }
{
    let mut p = pen;
    let mut i = from;
    for _ in 0..k {
        p = pen::lay(p, WORD, forms::word_at(table, i), out);
        i += 3;
    }
    p
}
