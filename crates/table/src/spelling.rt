// The form of the table that a block holds, spelled out in lent bytes.
ghost use Rattle.std.specs.Prelude.{◌≡◌, ◌∷◌, [], ◌+◌, ◌*◌, ◌/◌, ◌%◌, ◌^◌, ◌<◌, ◌≤◌};
ghost use Rattle.std.proofs.lemmas.List.Edits.{sets};
ghost use Rattle.fields.specs.Fields.{field, parts};
ghost use Rattle.fields.specs.Compound.{compound};
ghost use Rattle.forms.specs.Tables.{per, sent_in};
ghost use Rattle.forms.specs.Form.{form, spelled, listed};
ghost use Rattle.table.specs.Control.{table_of, descriptors_of};
ghost use Rattle.table.specs.Internal.{opening_by};

use fields::Opening;
use forms::{HEADING, LOOPS, OPENING, WORD};

// The form of the table that a block holds, which opens with these fields, to the front of `out`; what
// lies past its end isn't written.
pub(crate) fn write_form(opening: Opening, body: &[u8], out: &mut [u8])
    requires { opening ≡ opening_by (sent_in (compound body.now)) }
    ensures { out.new ≡ sets out.old 0 (form (table_of (compound body.now))) }
{
    write_opening(opening, out);
    write_descriptors(opening.kind as usize, opening.count as usize, body, out);
}

// The six bytes before the descriptors.
fn write_opening(opening: Opening, out: &mut [u8])
    ensures { out.new
        ≡ sets out.old 0
        (opening.kind
        ∷ opening.copyright
        ∷ opening.block % 256
        ∷ opening.block / 256
        ∷ opening.network
        ∷ opening.count
        ∷ []) }
{
    let bytes = [
        opening.kind,
        opening.copyright,
        (opening.block % 256) as u8,
        (opening.block / 256) as u8,
        opening.network,
        opening.count,
    ];
    lent_bytes::copy(&bytes, 0, OPENING, out, 0);
}

// So many descriptors of a kind, behind the opening.
fn write_descriptors(kind: usize, count: usize, body: &[u8], out: &mut [u8])
    requires { count < 256 }
    ensures { out.new
        ≡ sets out.old 6
        (listed kind (descriptors_of (per kind) count (compound body.now / 2 ^ 58))) }
{
    let mut at = LOOPS;
    let mut q = OPENING;
    for _ in 0..count {
        let words = write_descriptor(body, kind, at, out, q);
        at += HEADING + WORD * words;
        q += 2 + 3 * words;
    }
}

// The descriptor at the place `at`; how many words it has.
fn write_descriptor(body: &[u8], kind: usize, at: usize, out: &mut [u8], q: usize) -> usize
    requires { (q < 200000) × (at < 200000) }
    ensures { (result ≡ per kind * field (at + 6) 4 (compound body.now))
        × (result ≤ 30)
        × (out.new
        ≡ sets out.old q
        (field at 6 (compound body.now)
        ∷ field (at + 6) 4 (compound body.now)
        ∷ spelled (parts 24 result (compound body.now / 2 ^ (at + 10))))) }
{
    let id = fields::field_of(body, at, 6);
    let entries = fields::field_of(body, at + 6, 4);
    let words = forms::words_of(kind, entries);
    lent_bytes::put((id % 256) as u8, out, q);
    lent_bytes::put((entries % 256) as u8, out, q + 1);
    write_words(body, at + HEADING, words, out, q + 2);
    words
}

// The k words of a block from the place `from` on.
fn write_words(body: &[u8], from: usize, k: usize, out: &mut [u8], q: usize)
    requires { (q + 3 * k < 300000) × (from + 24 * k < 300000) }
    ensures { out.new ≡ sets out.old q (spelled (parts 24 k (compound body.now / 2 ^ from))) }
{
    let mut at = from;
    let mut p = q;
    for _ in 0..k {
        let w = fields::field_of(body, at, WORD);
        write_word(w, out, p);
        at += WORD;
        p += 3;
    }
}

// A word, high byte first.
fn write_word(w: usize, out: &mut [u8], q: usize)
    requires { q < 300000 }
    ensures { out.new ≡ sets out.old q (spelled (w ∷ [])) }
{
    let high = (w / 256 / 256 % 256) as u8;
    let middle = (w / 256 % 256) as u8;
    let low = (w % 256) as u8;
    lent_bytes::put(high, out, q);
    lent_bytes::put(middle, out, q + 1);
    lent_bytes::put(low, out, q + 2);
}
