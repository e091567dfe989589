// The lines of a menu's form, put into lent bytes at a place.
ghost use Rattle.std.specs.Prelude.{◌≡◌, map, ◌+◌, ◌*◌, ◌<◌, ◌≤◌, length, drop};
ghost use Rattle.menu_forms.specs.Form.{codes_in};
ghost use Rattle.text_lines.specs.Lines.{number_line};
ghost use Rattle.text_lines.specs.Put.{Put, last};
ghost use Rattle.menu_listing.specs.Lines.{shown as lines_shown, text_line, link_line};
ghost use Rattle.menu_listing.specs.Internal.{codes_at, string_length, text_place, event_length, link_at, own_lines_at, header_place, events_place, head_lines_at, number_most, text_most, beyond, place_most, event_most};

use menu_forms::OPENING;

// Room for a line of a name and a number.
const LINE: usize = 60;

// The level, the number and the header of a form's menu.
pub(crate) fn put_head(form: &[u8], level: usize, number: usize, out: &mut [u8], q: usize) -> usize
    requires { q + beyond ≤ last }
    ensures { Put out.old q (head_lines_at level number form.now) out.new result × (result ≤ q + 330) }
{
    let a = put_line(b"level=", level, out, q);
    let b = put_line(b"menu=", number, out, a);
    put_text(b"header=", form, header_place(form), out, b)
}

// The level, the string and the link of the event at the place i of a form.
pub(crate) fn put_event(form: &[u8], i: usize, level: usize, out: &mut [u8], q: usize) -> usize
    requires { (i ≤ place_most) × (q + beyond ≤ last) }
    ensures { Put out.old q (own_lines_at level (drop i form.now)) out.new result × (result ≤ q + 350) }
{
    let kind = lent_bytes::byte_at(form, i + 2);
    let link = link_at(form, i);
    let a = put_line(b"level=", level, out, q);
    let b = put_text(b"event=", form, text_place(form, i), out, a);
    put_link(kind, link, out, b)
}

// A line of a name and a number, by way of spare bytes: `text_lines` puts a number only up to a place that no table's list passes, and these
// lines may go on further.
pub(crate) fn put_line(name: &[u8], n: usize, out: &mut [u8], q: usize) -> usize
    requires { (length name.now ≤ 30) × (q + number_most ≤ last) }
    ensures { Put out.old q (number_line name.now n) out.new result
        × (result ≤ q + length name.now + 21) }
{
    let mut line = [0u8; LINE];
    let end = text_lines::put_number(name, n, &mut line, 0);
    text_lines::put(&line[..end], out, q)
}

// A link's line.
fn put_link(kind: usize, link: usize, out: &mut [u8], q: usize) -> usize
    requires { q + number_most ≤ last }
    ensures { Put out.old q (link_line kind link) out.new result × (result ≤ q + 47) }
{
    let mut name = [0u8; LINE];
    let end = text_lines::put_number(b"link=", kind, &mut name, 0);
    name[end - 1] = b',';
    put_line(&name[..end], link, out, q)
}

// A line of a name and the string at a place of a form.
fn put_text(name: &[u8], form: &[u8], at: usize, out: &mut [u8], q: usize) -> usize
    requires { (length name.now ≤ 30) × (at ≤ place_most + event_most) × (q + text_most ≤ last) }
    ensures { Put out.old q (text_line name.now (codes_at (drop at form.now))) out.new result
        × (result ≤ q + length name.now + 256) }
{
    let escapes = lent_bytes::byte_at(form, at);
    let count = lent_bytes::byte_at(form, at + 1);
    let a = text_lines::put(name, out, q);
    let b = put_codes(form, at + (2 + 4 * escapes), count, out, a);
    text_lines::put(b"\n", out, b)
}

// So many codes from a place of a form on, each as it is shown.
fn put_codes(form: &[u8], from: usize, count: usize, out: &mut [u8], q: usize) -> usize
    requires { (from ≤ place_most + 2 * event_most) × (count < 256) × (q + count ≤ last) }
    ensures { Put out.old q (map lines_shown (codes_in count (drop from form.now))) out.new result
        × (result ≤ q + count) }
{
    let mut p = q;
    for i in 0..count {
        let code = [shown(lent_bytes::byte_at(form, from + i))];
        p = text_lines::put(&code, out, p);
    }
    p
}

// A code as it is printed.
#[tactic(auto, unfolding(crate::specs::Lines::shown))]
fn shown(code: usize) -> u8
    requires { code < 256 }
    ensures { result ≡ lines_shown code }
{
    match code {
        0..=31 => b' ',
        127 => b'#',
        _ => code as u8,
    }
}

// The number of the block that the event at the place i of a form leads to.
pub(crate) fn link_at(form: &[u8], i: usize) -> usize
    requires { i ≤ place_most }
    ensures { (result ≡ link_at (drop i form.now)) × (result < 65536) }
{
    lent_bytes::byte_at(form, i) + 256 * lent_bytes::byte_at(form, i + 1)
}

// The place of a form's header.
fn header_place(form: &[u8]) -> usize
    ensures { (result ≡ header_place form.now) × (result ≤ 774) }
{
    OPENING + 3 * lent_bytes::byte_at(form, 7)
}

// The place of its first event.
pub(crate) fn events_place(form: &[u8]) -> usize
    ensures { (result ≡ events_place form.now) × (result ≤ 2051) }
{
    let at = header_place(form);
    at + string_length(form, at)
}

// The place after the event at the place i of a form.
pub(crate) fn next_event(form: &[u8], i: usize) -> usize
    requires { i ≤ place_most }
    ensures { (result ≡ i + event_length (drop i form.now)) × (result ≤ i + event_most) }
{
    let at = text_place(form, i);
    at + string_length(form, at)
}

// The place of the string of the event at the place i of a form.
fn text_place(form: &[u8], i: usize) -> usize
    requires { i ≤ place_most }
    ensures { (result ≡ i + text_place (drop i form.now)) × (result ≤ i + 1279) }
{
    let attributes = lent_bytes::byte_at(form, i + 3);
    let mut at = i + 4;
    for _ in 0..attributes {
        at += 1 + menu_forms::info_bytes(lent_bytes::byte_at(form, at));
    }
    at
}

// How long the string at a place of a form is.
fn string_length(form: &[u8], at: usize) -> usize
    requires { at ≤ place_most + event_most }
    ensures { (result ≡ string_length (drop at form.now)) × (result ≤ 1277) }
{
    2 + 4 * lent_bytes::byte_at(form, at) + lent_bytes::byte_at(form, at + 1)
}
