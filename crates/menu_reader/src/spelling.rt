// The form of the menu that a block holds, spelled out in lent bytes: one walk along the control data, the strings and the form. What
// lies past the end of the lent bytes isn't written, so that the walk measures where it is lent no room.
ghost use Rattle.std.specs.Prelude.{◌≡◌, map, ◌+◌, ◌*◌, ◌^◌, ◌<◌, ◌≤◌, drop};
ghost use Rattle.std.proofs.lemmas.List.Edits.{sets};
ghost use Rattle.octet.specs.Decoding.{nib};
ghost use Rattle.fields.specs.Fields.{parts};
ghost use Rattle.menu_forms.specs.Form.{high_first, codes_in};
ghost use Rattle.kinds.specs.Reading.{code_of};
ghost use Rattle.menu_reader.specs.Reading.{menu_held};
ghost use Rattle.menu_reader.specs.declared.Loop.TheVariants.{Descriptors, Escapes, Attributes};
ghost use Rattle.menu_reader.specs.Internal.{bits_at, Went, Spelled, Below, Within, PutText, PutEvent, PutEvents, text_from, event_from, events_from, entry_nibbles, entry_form, loop_nibbles, loop_form, opening_bytes};

use crate::{Loop, Spot};
use menu_forms::{NI, OPENING};

// The nibbles of control data before its descriptors.
const DESCRIPTORS: usize = 15;

// The form of the menu that control bytes and string bytes hold, to the front of `out`: the places behind all of it. The form opens
// with the message, which stands behind the header in control data.
pub(crate) fn spell(control: &[u8], strings: &[u8], out: &mut [u8]) -> Spot
    ensures { Spelled result (menu_held control.now strings.now) out.old out.new × Below 60000 result }
{
    let descriptors = bits(control, 0, 54, 6);
    let events = bits(control, 0, 46, 4);
    let behind = DESCRIPTORS + 5 * descriptors + (descriptors + 1) % 2;
    let message = bits(control, behind + 4 + 6 * bits(control, behind, 0, 8), 0, 8);
    put_opening(control, message, out);
    let d = put_entries(
        Loop::Descriptors,
        control,
        Spot {
            at: DESCRIPTORS,
            from: 0,
            to: OPENING,
        },
        descriptors,
        out,
    );
    let h = put_text(
        control,
        strings,
        Spot {
            at: behind,
            from: 0,
            to: d.to,
        },
        out,
    );
    put_events(
        control,
        strings,
        Spot {
            at: h.at + 2,
            from: h.from,
            to: h.to,
        },
        events,
        out,
    )
}

// The nine bytes before the descriptors.
fn put_opening(control: &[u8], message: usize, out: &mut [u8])
    requires { message < 256 }
    ensures { out.new ≡ sets out.old 0 (opening_bytes (map nib control.now) message) }
{
    let copyright = bits(control, 0, 26, 1);
    let block = bits(control, 0, 28, 16);
    let header = bits(control, 0, 44, 2);
    let events = bits(control, 0, 46, 4);
    let size = bits(control, 0, 50, 3);
    let descriptors = bits(control, 0, 54, 6);
    put_bytes(NI + 256 * (copyright + 256 * block), 4, out, 0);
    put_bytes(
        header + 256 * (size + 256 * (message + 256 * (descriptors + 256 * events))),
        5,
        out,
        4,
    );
}

// So many events: the places behind them.
fn put_events(control: &[u8], strings: &[u8], s: Spot, count: usize, out: &mut [u8]) -> Spot
    requires { Below 4000 s × (count < 16) }
    ensures { PutEvents s result (events_from count control.now strings.now s) out.old out.new
        × Within s result (2710 * count) (255 * count) (1611 * count) }
{
    let mut p = s;
    for _ in 0..count {
        p = put_event(control, strings, p, out);
    }
    p
}

// The event at these places: those behind it.
fn put_event(control: &[u8], strings: &[u8], s: Spot, out: &mut [u8]) -> Spot
    requires { Below 50000 s }
    ensures { PutEvent s result (event_from control.now strings.now s) out.old out.new
        × Within s result 2710 255 1611 }
{
    let link = bits(control, s.at, 0, 16);
    let kind = bits(control, s.at, 16, 4);
    let count = bits(control, s.at, 20, 4);
    put_bytes(link + 65536 * (kind + 256 * count), 4, out, s.to);
    let a = put_entries(
        Loop::Attributes,
        control,
        Spot {
            at: s.at + 6,
            to: s.to + 4,
            ..s
        },
        count,
        out,
    );
    put_text(control, strings, a, out)
}

// The string at these places: its numbers of escape sequences and of codes, the escape sequences, the codes. The places behind it.
fn put_text(control: &[u8], strings: &[u8], s: Spot, out: &mut [u8]) -> Spot
    requires { Below 60000 s }
    ensures { PutText s result (text_from control.now strings.now s) out.old out.new
        × Within s result 2554 255 1532 }
{
    let escapes = bits(control, s.at, 0, 8);
    let codes = bits(control, s.at + 2 + 6 * escapes, 0, 8);
    put_bytes(escapes + 256 * codes, 2, out, s.to);
    let e = put_entries(
        Loop::Escapes,
        control,
        Spot {
            at: s.at + 2,
            to: s.to + 2,
            ..s
        },
        escapes,
        out,
    );
    put_codes(strings, s.from, codes, out, e.to);
    Spot {
        at: e.at + 2,
        from: s.from + codes,
        to: e.to + codes,
    }
}

// So many codes of the strings from a place on.
fn put_codes(strings: &[u8], from: usize, count: usize, out: &mut [u8], to: usize)
    requires { (from ≤ 60000) × (count < 256) × (to ≤ 70000) }
    ensures { out.new ≡ sets out.old to (codes_in count (drop from (map code_of strings.now))) }
{
    for i in 0..count {
        lent_bytes::put(
            (lent_bytes::byte_at(strings, from + i) % 128) as u8,
            out,
            to + i,
        );
    }
}

// So many entries of a loop: the places behind them.
fn put_entries(what: Loop, control: &[u8], s: Spot, count: usize, out: &mut [u8]) -> Spot
    requires { Below 70000 s × (count < 256) }
    ensures { Went s result (loop_nibbles what count (drop s.at (map nib control.now))) 0
        (loop_form what count (drop s.at (map nib control.now))) out.old out.new
        × Within s result (10 * count) 0 (5 * count) }
{
    let mut p = s;
    for _ in 0..count {
        p = put_entry(what, control, p, out);
    }
    p
}

// One of them.
fn put_entry(what: Loop, control: &[u8], s: Spot, out: &mut [u8]) -> Spot
    requires { Below 80000 s }
    ensures { Went s result (entry_nibbles what (drop s.at (map nib control.now))) 0
        (entry_form what (drop s.at (map nib control.now))) out.old out.new
        × Within s result 10 0 5 }
{
    match what {
        Loop::Descriptors => put_descriptor(control, s, out),
        Loop::Escapes => put_escape(control, s, out),
        Loop::Attributes => put_attribute(control, s, out),
    }
}

fn put_descriptor(control: &[u8], s: Spot, out: &mut [u8]) -> Spot
    requires { Below 80000 s }
    ensures { Went s result (entry_nibbles Descriptors (drop s.at (map nib control.now))) 0
        (entry_form Descriptors (drop s.at (map nib control.now))) out.old out.new
        × Within s result 10 0 5 }
{
    let which = bits(control, s.at, 0, 6);
    let id = bits(control, s.at, 6, 6);
    let eval = bits(control, s.at, 12, 8);
    put_bytes(which + 256 * (id + 256 * eval), 3, out, s.to);
    Spot {
        at: s.at + 5,
        to: s.to + 3,
        ..s
    }
}

fn put_escape(control: &[u8], s: Spot, out: &mut [u8]) -> Spot
    requires { Below 80000 s }
    ensures { Went s result (entry_nibbles Escapes (drop s.at (map nib control.now))) 0
        (entry_form Escapes (drop s.at (map nib control.now))) out.old out.new
        × Within s result 10 0 5 }
{
    let position = bits(control, s.at, 0, 10);
    let mode = bits(control, s.at, 10, 6);
    let content = bits(control, s.at, 16, 8);
    put_bytes(position + 65536 * (mode + 256 * content), 4, out, s.to);
    Spot {
        at: s.at + 6,
        to: s.to + 4,
        ..s
    }
}

fn put_attribute(control: &[u8], s: Spot, out: &mut [u8]) -> Spot
    requires { Below 80000 s }
    ensures { Went s result (entry_nibbles Attributes (drop s.at (map nib control.now))) 0
        (entry_form Attributes (drop s.at (map nib control.now))) out.old out.new
        × Within s result 10 0 5 }
{
    let kind = bits(control, s.at, 0, 8);
    let k = menu_forms::info_bytes(kind);
    put_bytes(kind, 1, out, s.to);
    put_info(control, s.at, k, out, s.to + 1);
    Spot {
        at: s.at + 2 + 2 * k,
        to: s.to + 1 + k,
        ..s
    }
}

// The k bytes of the information of the attribute at a place, the highest first.
fn put_info(control: &[u8], at: usize, k: usize, out: &mut [u8], to: usize)
    requires { (at ≤ 80000) × (k ≤ 4) × (to ≤ 90000) }
    ensures { out.new
        ≡ sets out.old to (high_first k (bits_at 8 (8 * k) (drop at (map nib control.now)))) }
{
    for i in 0..k {
        lent_bytes::put(info_at(control, at, k - i), out, to + i);
    }
}

// The i-th byte of it, counted from the lowest.
fn info_at(control: &[u8], at: usize, i: usize) -> u8
    requires { (at ≤ 80000) × (i ≤ 4) }
    ensures { result ≡ bits_at (8 * i) 8 (drop at (map nib control.now)) }
{
    bits(control, at, 8 * i, 8) as u8
}

// The w bits of control data, `skip` bits behind a place of so many nibbles.
fn bits(control: &[u8], at: usize, skip: usize, w: usize) -> usize
    requires { (at ≤ 100000) × (skip ≤ 100) × (w ≤ 24) }
    ensures { (result ≡ bits_at skip w (drop at (map nib control.now))) × (result < 2 ^ w) }
{
    fields::field_of(control, 4 * at + skip, w)
}

// The k lowest bytes of a number, the lowest first.
fn put_bytes(v: usize, k: usize, out: &mut [u8], to: usize)
    requires { (k ≤ 8) × (to ≤ 90000) }
    ensures { out.new ≡ sets out.old to (parts 8 k v) }
{
    lent_bytes::copy(&v.to_le_bytes(), 0, k, out, to);
}
