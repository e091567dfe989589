// A menu by its number, in a list of records or on a shelf.
ghost use Rattle.std.specs.Prelude.{◌≡◌, ◌<◌, ◌≤◌, length, replicate};
ghost use Rattle.blocks.specs.Block.{whole, head_length, blocks};
ghost use Rattle.menu_listing.specs.Listing.{menus_of};
ghost use Rattle.menu_listing.specs.Kept.{kept_menus, form_most};
ghost use Rattle.menu_listing.specs.Internal.{Held, Judged, menus_from};

use crate::{FORM, Source};
use blocks::{Found, HEAD, Read};

// The place of the block number in control data, and its width, in bits.
const NUMBER: usize = 28;

const WIDE: usize = 16;

// Whether these are whole records.
pub(crate) fn is_whole(records: &[u8]) -> bool
    ensures { result ≡ whole records.now }
{
    let mut at = 0;
    // Kept: the step is no count: it goes to the next record.
    loop {
        match blocks::record_at(records, at) {
            Found::End => return true,
            Found::Broken => return false,
            Found::Record { next, .. } => at = next,
        }
    }
}

// Looks for the menu with this number. Where there is one, `form`, which is zeros, then begins with its form. The heads are a shelf's.
pub(crate) fn find_form(
    source: Source,
    number: usize,
    list: &[u8],
    heads: &[u8],
    form: &mut [u8],
) -> bool
    requires { (number < 65536) × (form.old ≡ replicate form_most 0) }
    ensures { Held (menus_from source list.now heads.now number) form.new result }
{
    match source {
        Source::Records(application) => find_menu(application, number, list, form),
        Source::Shelf => find_kept(number, heads, list, form),
    }
}

// Looks for the form with this number on a shelf, and copies of it what is read.
fn find_kept(number: usize, heads: &[u8], shelf: &[u8], form: &mut [u8]) -> bool
    requires { (number < 65536) × (form.old ≡ replicate form_most 0) }
    ensures { Held (kept_menus heads.now shelf.now number) form.new result }
{
    let at = shelf::find(number as u16, heads, shelf);
    if at == 0 {
        return false;
    }
    lent_bytes::copy(shelf, at, FORM, form, 0);
    true
}

// Looks for the first record that is accepted as a menu with this number. Where there is one, `form` then begins with its form.
fn find_menu(application: u8, number: usize, records: &[u8], form: &mut [u8]) -> bool
    requires { length form.old ≡ form_most }
    ensures { Held (menus_of application number (blocks records.now)) form.new result }
{
    let mut at = 0;
    // Kept: the step is no count: it goes to the next record.
    while let Found::Record { next, .. } = blocks::record_at(records, at) {
        if judge(application, number, &records[at..next], form) {
            return true;
        }
        at = next;
    }
    false
}

// Whether a record is accepted as a menu with this number; then its form is in `form`. The number is looked at before anything else.
fn judge(application: u8, number: usize, rec: &[u8], form: &mut [u8]) -> bool
    requires { (head_length ≤ length rec.now) × (length form.old ≡ form_most) }
    ensures { Judged application number rec.now form.new result }
{
    fields::field_of(&rec[HEAD..], NUMBER, WIDE) == number
        && menu_reader::read_menu(application, rec, form).is_ok()
}
