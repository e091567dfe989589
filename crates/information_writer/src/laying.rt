// Control data and names, laid out of a form that was judged.
ghost use Rattle.std.specs.Prelude.{◌≡◌, map, ◌+◌, ◌≤◌, ◌<◌, length, get_or, drop};
ghost use Rattle.std.proofs.lemmas.List.Edits.{sets};
ghost use Rattle.parity.specs.Parity.{letter as parity_letter};
ghost use Rattle.fields.specs.Pens.{inked, moved, begun, Fine};
ghost use Rattle.codecs.specs.Rows.{each, codes_in};
ghost use Rattle.information_forms.specs.Information.{Network, network_format, fill_up};
ghost use Rattle.information_writer.specs.Internal.{networks_from, row_at, laid_from, spoken_from, control_fields};

use crate::measuring;
use blocks::HEAD;
use fields::pen;
use fields::pen::Pen;
use information_forms::{NETWORK, NETWORK_WIDTHS, OPENING, OPENING_WIDTHS};

// Lays all control data behind the head, the checksum as 0.
pub(crate) fn lay_control(form: &[u8], control: usize, networks: usize, name: usize, out: &mut [u8])
    requires { (control < 5000)
        × (networks ≡ get_or form.now 16 0)
        × (networks ≤ 255)
        × (name ≡ get_or form.now 18 0)
        × (name ≤ 255) }
    ensures { out.new ≡ inked (begun 4) (control_fields control networks name form.now) out.old }
{
    let front = [
        0,
        (control % 256) as u8,
        (control / 256 % 256) as u8,
        1,
        0,
        lent_bytes::byte_at(form, 1) as u8,
        0,
    ];
    let opening = [8u8, 10, 6, 2, 1, 1];
    let widths = OPENING_WIDTHS;
    let start = Pen {
        at: HEAD,
        held: 0,
        bits: 0,
    };
    let a = lay_row(&front, 0, &opening, start, out);
    let b = lay_row(form, 2, &widths, a, out);
    let c = pen::lay(b, 2, 0, out);
    let d = lay_networks(form, networks, name, c, out);
    lay_fill(networks, d, out);
}

// Lays so many networks, the first behind a name of so many codes: the pen behind them.
pub(crate) fn lay_networks(
    form: &[u8],
    count: usize,
    first: usize,
    from: Pen,
    out: &mut [u8],
) -> Pen
    requires { (count ≤ 255) × (first ≤ 255) × Fine from }
    ensures { (result ≡ moved from (laid_from count 0 first form.now))
        × (out.new ≡ inked from (laid_from count 0 first form.now) out.old) }
{
    let widths = NETWORK_WIDTHS;
    let mut p = from;
    let mut codes = first;
    for j in 0..count {
        let at = OPENING + NETWORK * j + codes;
        p = lay_row(form, at, &widths, p, out);
        codes += lent_bytes::byte_at(form, at + measuring::NETWORK_NAME);
    }
    p
}

// Lays the row of these widths that stands at a place of a form: the pen behind it.
pub(crate) fn lay_row(form: &[u8], at: usize, widths: &[u8], from: Pen, out: &mut [u8]) -> Pen
    requires { (at ≤ 80000) × (length widths.now ≤ 100) × Fine from }
    ensures { (result ≡ moved from (row_at widths.now at form.now))
        × (out.new ≡ inked from (row_at widths.now at form.now) out.old) }
{
    let mut p = from;
    let mut q = at;
    // Kept: by index: `width_at` promises each width as far as the bit reader and the pen go.
    for i in 0..widths.len() {
        let w = information_forms::width_at(widths, i);
        let k = (w + 7) / 8;
        p = pen::lay(p, w, measuring::value_at(form, q, k), out);
        q += k;
    }
    p
}

// Lays fill_up, four zeros where the number of networks is odd.
pub(crate) fn lay_fill(networks: usize, from: Pen, out: &mut [u8])
    requires { Fine from }
    ensures { out.new ≡ inked from ((fill_up networks).fields 0) out.old }
{
    if networks % 2 == 1 {
        pen::lay(from, 4, 0, out);
    }
}

// The names of so many networks, the first behind a name of so many codes, as string bytes.
pub(crate) fn put_names(form: &[u8], count: usize, first: usize, out: &mut [u8], to: usize)
    requires { (count ≤ 255) × (first ≤ 255) × (to ≤ 10000) }
    ensures { out.new ≡ sets out.old (to + first) (map parity_letter (spoken_from count 0 first form.now)) }
{
    let mut codes = first;
    for j in 0..count {
        let at = OPENING + NETWORK * j + codes;
        let k = lent_bytes::byte_at(form, at + measuring::NETWORK_NAME);
        put_letters(form, at + NETWORK, k, out, to + codes);
        codes += k;
    }
}

// So many codes from a place of a form on, as string bytes.
pub(crate) fn put_letters(form: &[u8], from: usize, count: usize, out: &mut [u8], to: usize)
    requires { (from ≤ 90000) × (count ≤ 255) × (to ≤ 90000) }
    ensures { out.new ≡ sets out.old to (map parity_letter (codes_in count (drop from form.now))) }
{
    for i in 0..count {
        let code = lent_bytes::byte_at(form, from + i) as u8;
        lent_bytes::put(parity::letter(code), out, to + i);
    }
}
