// The form of what a block holds, spelled out in lent bytes: one walk along the control data, the strings and the form. What lies past
// the end of the lent bytes isn't written, so that the walk measures where it is lent no room.
ghost use Rattle.std.specs.Prelude.{◌≡◌, ◌∷◌, ◌+◌, ◌*◌, ◌/◌, ◌^◌, ◌≤◌, length, drop};
ghost use Rattle.std.proofs.lemmas.List.Edits.{sets};
ghost use Rattle.fields.specs.Fields.{field, parts};
ghost use Rattle.fields.specs.Compound.{compound};
ghost use Rattle.codecs.specs.Rows.{each, codes_in};
ghost use Rattle.information_forms.specs.Information.{AI, opening_widths, names};
ghost use Rattle.information_forms.specs.Form.{network_form, form};
ghost use Rattle.information.specs.Internal.{row_at, spoken, networks_from, network_from, named, held};

use information_forms::{AI, NETWORK, NETWORK_WIDTHS, OPENING, OPENING_WIDTHS};

// The bits of control data before the row of values, before the number of networks, before the length of the service's name, and before
// the networks.
const FRONT: usize = 28;

pub(crate) const NETWORKS: usize = 136;

const NAME: usize = 152;

const LIST: usize = 160;

// The bits of a network, and those before the length of its name.
const BITS: usize = 100;

const NETWORK_NAME: usize = 29;

// The form of what control bytes and string bytes hold, to the front of `out`: how many codes its names have.
pub(crate) fn spell(control: &[u8], strings: &[u8], out: &mut [u8]) -> usize
    ensures { (result ≡ length (names (held control.now strings.now))) × (result ≤ 7936)
        × (out.new ≡ sets out.old 0 (form (held control.now strings.now))) }
{
    let networks = fields::field_of(control, NETWORKS, 8);
    let name = fields::field_of(control, NAME, 5);
    put_opening(control, out);
    put_codes(strings, 0, name, out, OPENING);
    put_networks(control, strings, networks, name, out)
}

// The bytes before the service's name: the kind, copyright, the row of its values.
fn put_opening(control: &[u8], out: &mut [u8])
    ensures { out.new
        ≡ sets out.old 0
        (AI ∷ field 26 1 (compound control.now) ∷ row_at opening_widths (compound control.now / 2 ^ 28)) }
{
    let copyright = fields::field_of(control, 26, 1);
    let widths = OPENING_WIDTHS;
    put_value(AI + 256 * copyright, 2, out, 0);
    put_row(control, FRONT, &widths, out, 2);
}

// So many networks, and the names behind so many codes: the codes up to their end.
fn put_networks(control: &[u8], strings: &[u8], count: usize, first: usize, out: &mut [u8]) -> usize
    requires { (count ≤ 255) × (first ≤ 31) }
    ensures { (result ≡ first + named (networks_from count 0 first control.now strings.now)) × (result ≤ 7936)
        × (out.new
        ≡ sets out.old (20 + first) (each network_form (networks_from count 0 first control.now strings.now))) }
{
    let mut from = first;
    for j in 0..count {
        from = put_network(control, strings, j, from, out);
    }
    from
}

// The network behind j others, its name behind so many codes: the codes up to its end.
fn put_network(control: &[u8], strings: &[u8], j: usize, from: usize, out: &mut [u8]) -> usize
    requires { (j ≤ 255) × (from ≤ 8000) }
    ensures { (result ≡ from + length (network_from j from control.now strings.now).name) × (result ≤ from + 31)
        × (out.new
        ≡ sets out.old (20 + 17 * j + from) (network_form (network_from j from control.now strings.now))) }
{
    let at = LIST + BITS * j;
    let to = OPENING + NETWORK * j + from;
    let widths = NETWORK_WIDTHS;
    let codes = fields::field_of(control, at + NETWORK_NAME, 5);
    put_row(control, at, &widths, out, to);
    put_codes(strings, from, codes, out, to + NETWORK);
    from + codes
}

// So many codes of the strings from a place on.
// Kept: as in `menu_reader`: one of both would be a public call of a crate below, with its own promise.
fn put_codes(strings: &[u8], from: usize, count: usize, out: &mut [u8], to: usize)
    requires { (from ≤ 10000) × (count ≤ 31) × (to ≤ 20000) }
    ensures { out.new ≡ sets out.old to (codes_in count (drop from (spoken strings.now))) }
{
    for i in 0..count {
        lent_bytes::put(
            (lent_bytes::byte_at(strings, from + i) % 128) as u8,
            out,
            to + i,
        );
    }
}

// The row of these widths that stands at a place of control data, as a form has it.
fn put_row(control: &[u8], at: usize, widths: &[u8], out: &mut [u8], to: usize)
    requires { (at ≤ 30000) × (to ≤ 20000) × (length widths.now ≤ 100) }
    ensures { out.new ≡ sets out.old to (row_at widths.now (compound control.now / 2 ^ at)) }
{
    let mut p = at;
    let mut q = to;
    // Kept: by index: `width_at` promises each width as far as the bit reader and the pen go.
    for i in 0..widths.len() {
        let w = information_forms::width_at(widths, i);
        let k = (w + 7) / 8;
        put_value(fields::field_of(control, p, w), k, out, q);
        p += w;
        q += k;
    }
}

// The k lowest bytes of a number, the lowest first.
fn put_value(v: usize, k: usize, out: &mut [u8], to: usize)
    requires { k ≤ 3 }
    ensures { out.new ≡ sets out.old to (parts 8 k v) }
{
    lent_bytes::copy(&v.to_le_bytes(), 0, k, out, to);
}
