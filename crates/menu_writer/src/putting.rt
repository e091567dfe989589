// A form's control data, sent field by field as protected nibbles; and its strings.
ghost use Rattle.std.specs.Prelude.{◌≡◌, map, ◌+◌, ◌*◌, ◌<◌, ◌≤◌, length, drop};
ghost use Rattle.std.proofs.lemmas.List.Edits.{sets};
ghost use Rattle.octet.specs.Image.{image};
ghost use Rattle.parity.specs.Parity.{letter};
ghost use Rattle.menu_forms.specs.Rows.{each, in_row};
ghost use Rattle.menu_forms.specs.Menus.{opening_fields, fill_fields, text_fields, event_fields, codes_of, zeros, strings, control as menus_control};
ghost use Rattle.menu_forms.specs.Form.{text_in, text_form, event_in, event_form, menu_in};
ghost use Rattle.menu_forms.specs.Block.{in_nibbles, nibbles};

use crate::{Loop, Spot, loops};
use blocks::HEAD;
use menu_forms::{NI, OPENING};

// The control data of a form, behind a record's head; its checksum is 0.
pub(crate) fn put_control(form: &[u8], control: usize, out: &mut [u8])
    requires { control ≡ menus_control (menu_in form.now) }
    ensures { out.new ≡ sets out.old 4 (map image (nibbles 0 zeros (menu_in form.now))) }
{
    let descriptors = lent_bytes::byte_at(form, 7);
    let events = lent_bytes::byte_at(form, 8);
    put_opening(form, control, out);
    let s = loops::put_entries(
        Loop::Descriptors,
        form,
        OPENING,
        descriptors,
        out,
        HEAD + 15,
    );
    let filled = put_fill(descriptors, out, s.to);
    let t = put_text(form, s.at, out, filled);
    loops::put_field(lent_bytes::byte_at(form, 6), 8, out, t.to);
    put_events(form, t.at, events, out, t.to + 2);
}

// The fields before the descriptors, the checksum's as zeros.
fn put_opening(form: &[u8], control: usize, out: &mut [u8])
    ensures { out.new
        ≡ sets out.old 4 (map image (in_nibbles (opening_fields 0 control zeros (menu_in form.now)))) }
{
    let copyright = lent_bytes::byte_at(form, 1) % 2;
    let first = ((copyright * 256 + NI) * 1024 + control % 1024) * 256;
    let block = lent_bytes::byte_at(form, 2) + 256 * lent_bytes::byte_at(form, 3);
    let header = lent_bytes::byte_at(form, 4) % 4;
    let message = lent_bytes::byte_at(form, 5) % 8;
    let descriptors = lent_bytes::byte_at(form, 7) % 64;
    let events = lent_bytes::byte_at(form, 8) % 16;
    let second = (((descriptors * 16 + message) * 16 + events) * 4 + header) * 65536 + block;
    loops::put_field(first, 28, out, HEAD);
    loops::put_field(second, 32, out, HEAD + 7);
}

// fill_up_2, where the number of descriptors is even: the place behind it.
fn put_fill(descriptors: usize, out: &mut [u8], to: usize) -> usize
    requires { to < 3000000 }
    ensures { (result ≡ to + length (map image (in_nibbles (fill_fields descriptors 0))))
        × (result ≤ to + 1)
        × (out.new ≡ sets out.old to (map image (in_nibbles (fill_fields descriptors 0)))) }
{
    if descriptors % 2 == 0 {
        loops::put_field(0, 4, out, to);
        return to + 1;
    }
    to
}

// All strings of a form, the header's first.
pub(crate) fn put_all_strings(form: &[u8], out: &mut [u8], to: usize)
    requires { to < 7000 }
    ensures { out.new ≡ sets out.old to (map letter (strings (menu_in form.now))) }
{
    let descriptors = lent_bytes::byte_at(form, 7);
    let events = lent_bytes::byte_at(form, 8);
    let d = loops::pass(Loop::Descriptors, form, OPENING, descriptors);
    let h = put_string(form, d.end, out, to);
    put_strings(form, h.at, events, out, h.to);
}

// The control data of the string at a place of the form.
pub(crate) fn put_text(form: &[u8], at: usize, out: &mut [u8], to: usize) -> Spot
    requires { (at < 990000) × (to < 2000000) }
    ensures { (result.at ≡ at + length (text_form (text_in (drop at form.now))))
        × (result.to ≡ to + length (map image (in_nibbles (text_fields (text_in (drop at form.now))))))
        × (result.at ≤ at + 2552)
        × (result.to ≤ to + 2554)
        × (out.new ≡ sets out.old to (map image (in_nibbles (text_fields (text_in (drop at form.now)))))) }
{
    let escapes = lent_bytes::byte_at(form, at);
    let codes = lent_bytes::byte_at(form, at + 1);
    loops::put_field(escapes, 8, out, to);
    let s = loops::put_entries(Loop::Escapes, form, at + 2, escapes, out, to + 2);
    loops::put_field(codes, 8, out, s.to);
    Spot {
        at: s.at + codes,
        to: s.to + 2,
    }
}

// The control data of the event at a place of the form.
fn put_event(form: &[u8], at: usize, out: &mut [u8], to: usize) -> Spot
    requires { (at < 980000) × (to < 1900000) }
    ensures { (result.at ≡ at + length (event_form (event_in (drop at form.now))))
        × (result.to ≡ to + length (map image (in_nibbles (event_fields (event_in (drop at form.now))))))
        × (result.at ≤ at + 3831)
        × (result.to ≤ to + 5110)
        × (out.new ≡ sets out.old to (map image (in_nibbles (event_fields (event_in (drop at form.now)))))) }
{
    let low = lent_bytes::byte_at(form, at);
    let high = lent_bytes::byte_at(form, at + 1);
    let kind = lent_bytes::byte_at(form, at + 2);
    let count = lent_bytes::byte_at(form, at + 3);
    let heading = ((count % 16 * 16 + kind % 16) * 256 + high) * 256 + low;
    loops::put_field(heading, 24, out, to);
    let s = loops::put_entries(Loop::Attributes, form, at + 4, count, out, to + 6);
    put_text(form, s.at, out, s.to)
}

// The control data of so many events from a place of the form on.
pub(crate) fn put_events(form: &[u8], from: usize, count: usize, out: &mut [u8], to: usize) -> Spot
    requires { (from < 3840) × (count < 256) × (to < 10000) }
    ensures { (result.to ≡ to + length (map image (in_nibbles (each event_fields (in_row event_form event_in count (drop from form.now))))))
        × (out.new
        ≡ sets out.old to (map image (in_nibbles (each event_fields (in_row event_form event_in count (drop from form.now)))))) }
{
    let mut p = Spot { at: from, to };
    for _ in 0..count {
        p = put_event(form, p.at, out, p.to);
    }
    p
}

// The codes of the string at a place of the form.
pub(crate) fn put_string(form: &[u8], at: usize, out: &mut [u8], to: usize) -> Spot
    requires { (at < 990000) × (to < 2000000) }
    ensures { (result.at ≡ at + length (text_form (text_in (drop at form.now))))
        × (result.to ≡ to + length (map letter (text_in (drop at form.now)).codes))
        × (result.at ≤ at + 2552)
        × (result.to ≤ to + 2550)
        × (out.new ≡ sets out.old to (map letter (text_in (drop at form.now)).codes)) }
{
    let escapes = lent_bytes::byte_at(form, at);
    let codes = lent_bytes::byte_at(form, at + 1);
    let a = loops::pass(Loop::Escapes, form, at + 2, escapes);
    loops::put_entries(Loop::Codes, form, a.end, codes, out, to)
}

// The codes of so many events from a place of the form on.
pub(crate) fn put_strings(form: &[u8], from: usize, count: usize, out: &mut [u8], to: usize)
    requires { (from < 3840) × (count < 256) × (to < 10000) }
    ensures { out.new
        ≡ sets out.old to (map letter (each codes_of (in_row event_form event_in count (drop from form.now)))) }
{
    let mut p = Spot { at: from, to };
    for _ in 0..count {
        let attributes = lent_bytes::byte_at(form, p.at + 3);
        let a = loops::pass(Loop::Attributes, form, p.at + 4, attributes);
        p = put_string(form, a.end, out, p.to);
    }
}
