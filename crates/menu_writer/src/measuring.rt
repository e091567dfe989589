// A form by its counts: how long it is, what its block takes, and whether its values fit.
ghost use Rattle.std.specs.Prelude.{◌≡◌, ◌+◌, ◌*◌, ◌<◌, ◌≤◌, drop};
ghost use Rattle.menu_forms.specs.Rows.{each, in_row};
ghost use Rattle.menu_forms.specs.Menus.{text_fields, event_fields, codes_of};
ghost use Rattle.menu_forms.specs.Form.{text_in, text_form, event_in, event_form};
ghost use Rattle.menu_writer.specs.Internal.{Told, Whole, opening_fine};

use crate::{Loop, Tally, loops};
use menu_forms::OPENING;

// A form as a whole.
pub(crate) fn measure(form: &[u8]) -> Tally
    ensures { Whole result form.now × (result.control ≤ 600000) × (result.strings ≤ 70000) }
{
    let descriptors = lent_bytes::byte_at(form, 7);
    let events = lent_bytes::byte_at(form, 8);
    let d = loops::pass(Loop::Descriptors, form, OPENING, descriptors);
    let h = measure_text(form, d.end);
    let e = measure_events(form, h.end, events);
    let fine = opening_fine(form) && d.fine && h.fine && e.fine;
    Tally {
        end: e.end,
        control: 9 + 5 * descriptors / 2 + h.control + e.control,
        strings: h.strings + e.strings,
        fine,
    }
}

// Whether the values before the descriptors fit their fields, and header_size is one of 0, 1, 2. A message is a byte and always fits.
fn opening_fine(form: &[u8]) -> bool
    ensures { result ≡ opening_fine form.now }
{
    let copyright = lent_bytes::byte_at(form, 1);
    let header_size = lent_bytes::byte_at(form, 4);
    let message_size = lent_bytes::byte_at(form, 5);
    let message = lent_bytes::byte_at(form, 6);
    let descriptors = lent_bytes::byte_at(form, 7);
    let events = lent_bytes::byte_at(form, 8);
    header_size < 3
        && message_size < 8
        && descriptors < 64
        && events < 16
        && copyright < 2
        && message < 256
}

// The string at a place of the form.
pub(crate) fn measure_text(form: &[u8], at: usize) -> Tally
    requires { at < 990000 }
    ensures { Told result at (text_form (text_in (drop at form.now))) (text_fields (text_in (drop at form.now)))
        (text_in (drop at form.now)).codes
        × (result.end ≤ at + 2552)
        × (result.control ≤ 1022)
        × (result.strings ≤ 255) }
{
    let escapes = lent_bytes::byte_at(form, at);
    let codes = lent_bytes::byte_at(form, at + 1);
    let a = loops::pass(Loop::Escapes, form, at + 2, escapes);
    let b = loops::pass(Loop::Codes, form, a.end, codes);
    let fine = a.fine && b.fine;
    Tally {
        end: b.end,
        control: 2 + 3 * escapes,
        strings: codes,
        fine,
    }
}

// The event at a place of the form.
fn measure_event(form: &[u8], at: usize) -> Tally
    requires { at < 980000 }
    ensures { Told result at (event_form (event_in (drop at form.now))) (event_fields (event_in (drop at form.now)))
        (codes_of (event_in (drop at form.now)))
        × (result.end ≤ at + 3831)
        × (result.control ≤ 2300)
        × (result.strings ≤ 255) }
{
    let kind = lent_bytes::byte_at(form, at + 2);
    let count = lent_bytes::byte_at(form, at + 3);
    let a = loops::pass(Loop::Attributes, form, at + 4, count);
    let t = measure_text(form, a.end);
    let fine = kind < 16 && count < 16 && a.fine && t.fine;
    Tally {
        end: t.end,
        control: 3 + (a.end - (at + 4)) + t.control,
        strings: t.strings,
        fine,
    }
}

// So many events from a place of the form on.
pub(crate) fn measure_events(form: &[u8], from: usize, count: usize) -> Tally
    requires { (from < 3840) × (count < 256) }
    ensures { Told result from (each event_form (in_row event_form event_in count (drop from form.now)))
        (each event_fields (in_row event_form event_in count (drop from form.now)))
        (each codes_of (in_row event_form event_in count (drop from form.now)))
        × (result.end ≤ from + 3831 * count)
        × (result.control ≤ 2300 * count)
        × (result.strings ≤ 255 * count) }
{
    let mut sum = Tally {
        end: from,
        control: 0,
        strings: 0,
        fine: true,
    };
    for _ in 0..count {
        let e = measure_event(form, sum.end);
        sum = Tally {
            end: e.end,
            control: sum.control + e.control,
            strings: sum.strings + e.strings,
            fine: sum.fine && e.fine,
        };
    }
    sum
}
