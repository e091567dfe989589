// The loops of a form, entry by entry: what an entry takes, whether its values fit, and what is sent for it.
ghost use Rattle.std.specs.Prelude.{true, ◌≡◌, ◌∷◌, [], ◌+◌, ◌*◌, ◌<◌, ◌≤◌, ◌^◌, min, length, drop};
ghost use Rattle.std.proofs.lemmas.List.Edits.{sets};
ghost use Rattle.fields.specs.Fields.{fitting};
ghost use Rattle.fields.specs.Pens.{inked, begun};
ghost use Rattle.menu_forms.specs.Menus.{descriptor_fields, escape_fields};
ghost use Rattle.menu_forms.specs.Form.{number_in, descriptor_in, escape_in};
ghost use Rattle.menu_writer.specs.declared.Loop.TheVariants.{Codes, Descriptors, Escapes, Attributes};
ghost use Rattle.menu_writer.specs.Internal.{entry_length, entry_fine, entry_bytes, loop_length, loop_fine, loop_bytes};

use crate::{Loop, Passed, Spot};
use fields::pen;
use fields::pen::Pen;

// Passes over so many entries: the place behind them, and whether their values fit.
pub(crate) fn pass(what: Loop, form: &[u8], from: usize, count: usize) -> Passed
    requires { (from < 1000000) × (count < 256) }
    ensures { (result.end ≡ from + loop_length what count (drop from form.now))
        × (result.fine ≡ loop_fine what count (drop from form.now))
        × (result.end ≤ from + 5 * count) }
{
    let mut at = from;
    let mut fine = true;
    for _ in 0..count {
        fine &= entry_fine(what, form, at);
        at += entry_length(what, form, at);
    }
    Passed { end: at, fine }
}

// Sends so many entries: where the next stand in the form and in the output.
pub(crate) fn put_entries(
    what: Loop,
    form: &[u8],
    from: usize,
    count: usize,
    out: &mut [u8],
    to: usize,
) -> Spot
    requires { (from < 1000000) × (count < 256) × (to < 4000000) }
    ensures { (result.at ≡ from + loop_length what count (drop from form.now))
        × (result.to ≡ to + length (loop_bytes what count (drop from form.now)))
        × (result.at ≤ from + 5 * count)
        × (result.to ≤ to + 10 * count)
        × (out.new ≡ sets out.old to (loop_bytes what count (drop from form.now))) }
{
    let mut at = from;
    let mut q = to;
    for _ in 0..count {
        q += put_entry(what, form, at, out, q);
        at += entry_length(what, form, at);
    }
    Spot { at, to: q }
}

// The bytes of the entry at a place of the form.
fn entry_length(what: Loop, form: &[u8], at: usize) -> usize
    ensures { (result ≡ entry_length what (drop at form.now)) × (result ≤ 5) }
{
    match what {
        Loop::Codes => 1,
        Loop::Descriptors => 3,
        Loop::Escapes => 4,
        Loop::Attributes => 1 + menu_forms::info_bytes(lent_bytes::byte_at(form, at)),
    }
}

// Whether the values of the entry at a place of the form fit their fields. Those of an attribute are bytes, and always do.
fn entry_fine(what: Loop, form: &[u8], at: usize) -> bool
    requires { at < 2000000 }
    ensures { result ≡ entry_fine what (drop at form.now) }
{
    match what {
        Loop::Codes => lent_bytes::byte_at(form, at) < 128,
        Loop::Descriptors => descriptor_fine(form, at),
        Loop::Escapes => escape_fine(form, at),
        Loop::Attributes => lent_bytes::byte_at(form, at) < 256,
    }
}

fn descriptor_fine(form: &[u8], at: usize) -> bool
    requires { at < 2000000 }
    ensures { result ≡ fitting (descriptor_fields (descriptor_in (drop at form.now))) }
{
    let which = lent_bytes::byte_at(form, at);
    let id = lent_bytes::byte_at(form, at + 1);
    let eval = lent_bytes::byte_at(form, at + 2);
    which < 64 && id < 64 && eval < 256
}

fn escape_fine(form: &[u8], at: usize) -> bool
    requires { at < 2000000 }
    ensures { result ≡ fitting (escape_fields (escape_in (drop at form.now))) }
{
    let position = lent_bytes::byte_at(form, at) + 256 * lent_bytes::byte_at(form, at + 1);
    let mode = lent_bytes::byte_at(form, at + 2);
    let content = lent_bytes::byte_at(form, at + 3);
    position < 1024 && mode < 64 && content < 256
}

// Sends the entry at a place of the form: how many bytes that takes.
fn put_entry(what: Loop, form: &[u8], at: usize, out: &mut [u8], to: usize) -> usize
    requires { (at < 2000000) × (to < 5000000) }
    ensures { (result ≡ length (entry_bytes what (drop at form.now)))
        × (result ≤ 10)
        × (out.new ≡ sets out.old to (entry_bytes what (drop at form.now))) }
{
    match what {
        Loop::Codes => put_code(form, at, out, to),
        Loop::Descriptors => put_descriptor(form, at, out, to),
        Loop::Escapes => put_escape(form, at, out, to),
        Loop::Attributes => put_attribute(form, at, out, to),
    }
}

// A code of a string, with its parity.
fn put_code(form: &[u8], at: usize, out: &mut [u8], to: usize) -> usize
    ensures { (result ≡ 1)
        × (out.new ≡ sets out.old to (entry_bytes Codes (drop at form.now))) }
{
    let code = (lent_bytes::byte_at(form, at) % 256) as u8;
    lent_bytes::put(parity::letter(code), out, to);
    1
}

fn put_descriptor(form: &[u8], at: usize, out: &mut [u8], to: usize) -> usize
    requires { (at < 2000000) × (to < 5000000) }
    ensures { (result ≡ 5)
        × (out.new ≡ sets out.old to (entry_bytes Descriptors (drop at form.now))) }
{
    let which = lent_bytes::byte_at(form, at) % 64;
    let id = lent_bytes::byte_at(form, at + 1) % 64;
    let eval = lent_bytes::byte_at(form, at + 2);
    put_field((eval * 64 + id) * 64 + which, 20, out, to);
    5
}

fn put_escape(form: &[u8], at: usize, out: &mut [u8], to: usize) -> usize
    requires { (at < 2000000) × (to < 5000000) }
    ensures { (result ≡ 6)
        × (out.new ≡ sets out.old to (entry_bytes Escapes (drop at form.now))) }
{
    let position = (lent_bytes::byte_at(form, at) + 256 * lent_bytes::byte_at(form, at + 1)) % 1024;
    let mode = lent_bytes::byte_at(form, at + 2) % 64;
    let content = lent_bytes::byte_at(form, at + 3);
    put_field((content * 64 + mode) * 1024 + position, 24, out, to);
    6
}

fn put_attribute(form: &[u8], at: usize, out: &mut [u8], to: usize) -> usize
    requires { (at < 2000000) × (to < 5000000) }
    ensures { (result ≡ length (entry_bytes Attributes (drop at form.now)))
        × (result ≤ 10)
        × (out.new ≡ sets out.old to (entry_bytes Attributes (drop at form.now))) }
{
    let kind = lent_bytes::byte_at(form, at);
    let k = menu_forms::info_bytes(kind);
    let info = number_at(form, at + 1, k);
    let p = pen::lay(
        Pen {
            at: to,
            held: 0,
            bits: 0,
        },
        8,
        kind,
        out,
    );
    pen::lay(p, 8 * k, info, out);
    2 + 2 * k
}

// The number of k bytes of the form, the highest first.
fn number_at(form: &[u8], at: usize, k: usize) -> usize
    requires { (at < 3000000) × (k ≤ 4) }
    ensures { (result ≡ number_in k (drop at form.now)) × (result < 2 ^ 32) }
{
    let mut n: usize = 0;
    for i in 0..k {
        n = n * 256 + lent_bytes::byte_at(form, at + i);
    }
    n
}

// A field of w bits, at most 32, that is whole nibbles, from a place of the output on.
pub(crate) fn put_field(v: usize, w: usize, out: &mut [u8], to: usize)
    ensures { out.new ≡ inked (begun to) ((min w 32, v) ∷ []) out.old }
{
    pen::lay(
        Pen {
            at: to,
            held: 0,
            bits: 0,
        },
        w,
        v,
        out,
    );
}
