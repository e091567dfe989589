// One walk along a form: how many codes its names have, and whether its values and its codes fit. Past its end a form reads as zeros.
ghost use Rattle.std.specs.Prelude.{◌≡◌, ◌+◌, ◌≤◌, length, get_or, drop};
ghost use Rattle.laws.specs.Pick.{both};
ghost use Rattle.fields.specs.Fields.{fitting, whole};
ghost use Rattle.codecs.specs.Rows.{codes_in};
ghost use Rattle.kinds.specs.Kind.{sevens};
ghost use Rattle.information_forms.specs.Form.{network_in, information_in};
ghost use Rattle.information_writer.specs.Internal.{networks_from, named, row_at, network_fine, all_fine, opening_fine, Counted};

use crate::Measured;
use information_forms::{NETWORK, NETWORK_WIDTHS, OPENING, OPENING_WIDTHS};

// The places of copyright, of the row of values, of the number of networks and of the length of the service's name.
const COPYRIGHT: usize = 1;

const ROW: usize = 2;

pub(crate) const NETWORKS: usize = 16;

pub(crate) const NAME: usize = 18;

// The place of the length of a network's name behind that of the network.
pub(crate) const NETWORK_NAME: usize = 5;

// All of a form.
pub(crate) fn measure(form: &[u8]) -> Measured
    ensures { Counted result (information_in form.now) × (result.codes ≤ 65280) }
{
    let name = lent_bytes::byte_at(form, NAME);
    let fine = opening_fine(form, name);
    measure_networks(form, lent_bytes::byte_at(form, NETWORKS), name, fine)
}

// What stands before the networks.
fn opening_fine(form: &[u8], name: usize) -> bool
    requires { (name ≡ get_or form.now 18 0) × (name ≤ 255) }
    ensures { result ≡ opening_fine (information_in form.now) }
{
    let widths = OPENING_WIDTHS;
    lent_bytes::byte_at(form, COPYRIGHT) < 2
        && row_fine(form, ROW, &widths)
        && codes_fine(form, OPENING, name)
}

// So many networks, behind a name of so many codes.
fn measure_networks(form: &[u8], count: usize, first: usize, fine: bool) -> Measured
    requires { (count ≤ 255) × (first ≤ 255) }
    ensures { (result.codes ≡ first + named (networks_from count 0 first form.now)) × (result.codes ≤ 65280)
        × (result.fine ≡ both fine (all_fine (networks_from count 0 first form.now))) }
{
    let mut codes = first;
    let mut good = fine;
    for j in 0..count {
        let at = OPENING + NETWORK * j + codes;
        let k = lent_bytes::byte_at(form, at + NETWORK_NAME);
        good = network_fine(good, form, at, k);
        codes += k;
    }
    Measured { codes, fine: good }
}

// The network at a place, where all before it is fine.
fn network_fine(before: bool, form: &[u8], at: usize, name: usize) -> bool
    requires { (at ≤ 80000) × (name ≡ get_or form.now (at + 5) 0) × (name ≤ 255) }
    ensures { result ≡ both before (network_fine (network_in (drop at form.now))) }
{
    let widths = NETWORK_WIDTHS;
    before && row_fine(form, at, &widths) && codes_fine(form, at + NETWORK, name)
}

// Whether each value of the row of these widths at a place fits its width.
fn row_fine(form: &[u8], at: usize, widths: &[u8]) -> bool
    requires { (at ≤ 80000) × (length widths.now ≤ 100) }
    ensures { result ≡ fitting (row_at widths.now at form.now) }
{
    let mut p = at;
    // Kept: by index: `width_at` promises each width as far as the bit reader and the pen go.
    for i in 0..widths.len() {
        let w = information_forms::width_at(widths, i);
        let k = (w + 7) / 8;
        if 1 << w <= value_at(form, p, k) {
            return false;
        }
        p += k;
    }
    true
}

// The number of k bytes at a place, the lowest first.
pub(crate) fn value_at(form: &[u8], at: usize, k: usize) -> usize
    requires { (at ≤ 90000) × (k ≤ 3) }
    ensures { result ≡ whole 8 (codes_in k (drop at form.now)) }
{
    let low = lent_bytes::byte_at(form, at);
    let mid = lent_bytes::byte_at(form, at + 1);
    let high = lent_bytes::byte_at(form, at + 2);
    match k {
        0 => 0,
        1 => low,
        2 => low + 256 * mid,
        _ => low + 256 * (mid + 256 * high),
    }
}

// Whether each of so many codes from a place on has seven bits.
fn codes_fine(form: &[u8], at: usize, count: usize) -> bool
    requires { (at ≤ 90000) × (count ≤ 255) }
    ensures { result ≡ sevens (codes_in count (drop at form.now)) }
{
    for i in 0..count {
        if 128 <= lent_bytes::byte_at(form, at + i) {
            return false;
        }
    }
    true
}
