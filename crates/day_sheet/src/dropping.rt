// A sheet without the entry of one key: what stands before it, and what stands behind it (SCOPE 20.8).
ghost use Rattle.std.specs.Prelude.{◌≡◌, ◌≤◌, length};
ghost use Rattle.answer.specs.Writing.{answered, left};
ghost use Rattle.day_sheet.specs.Entries.{sheet_text, byte_limit};
ghost use Rattle.day_sheet.specs.Calls.{limited, entries_of, drop_rules, drop_result};
ghost use Rattle.day_sheet.specs.Internal.{Halfway, asked, without_key, spot_of, most_with};

use crate::ENTRIES;
use answer::{Answer, Reason};
use sheet_entry::Form;

// 11.12.3: the datatype_id of a Language table.
const LI: usize = 7;

// More than any key.
// Kept: so a kind that names no entry goes the way of a key that no entry has; an Option would need a second way that does the same.
const NO_KEY: usize = 33554432;

// Where an entry stands, and how long it is.
// Kept: where none has the key this is the sheet's end, 0 long, so that one way copies what stands around it; an Option would need two.
#[derive(Clone, Copy)]
pub struct Spot {
    pub from: usize,
    pub long: usize,
}

// The sheet without the entry of a network, kind and block, to the front of `out`; as it was, where it has none.
pub fn drop(form: Form, network: u8, kind: u8, block: u16, sheet: &[u8], out: &mut [u8]) -> Answer
    ensures answer { result
        ≡ answered (drop_rules form network kind block sheet.now) (sheet_text form (drop_result form network kind block sheet.now))
        out.old }
    ensures output { out.new
        ≡ left (drop_rules form network kind block sheet.now) (sheet_text form (drop_result form network kind block sheet.now))
        out.old }
{
    let held = crate::count(form, sheet)?;
    let key = key_asked(network as usize, kind as usize, block as usize);
    drop_key(form, key, held, sheet, out)
}

// The number of a key.
fn key_asked(network: usize, kind: usize, block: usize) -> usize
    requires { (network ≤ 255) × (block ≤ 65535) }
    ensures { result ≡ asked network kind block }
{
    match kind {
        forms::TI => (network * 2 + 1) * 65536 + block,
        LI => (network * 2) * 65536 + block,
        _ => NO_KEY,
    }
}

// The same, of a sheet in form with so many entries.
fn drop_key(form: Form, key: usize, count: usize, sheet: &[u8], out: &mut [u8]) -> Answer
    requires { Halfway form sheet.now 0 × (length sheet.now ≤ byte_limit form) × (count ≡ length (entries_of form sheet.now)) }
    ensures answer { result
        ≡ answered (limited form (without_key key (entries_of form sheet.now))) (sheet_text form (without_key key (entries_of form sheet.now)))
        out.old }
    ensures output { out.new
        ≡ left (limited form (without_key key (entries_of form sheet.now))) (sheet_text form (without_key key (entries_of form sheet.now)))
        out.old }
{
    let spot = find(form, sheet, key);
    let from = spot.from;
    let long = spot.long;
    if most_with(long) < count {
        return Reason::SheetSize.refuse(0);
    }
    let n = sheet.len() - long;
    if out.len() < n {
        return Reason::NoRoom.refuse(0);
    }
    lent_bytes::copy(sheet, 0, from, out, 0);
    lent_bytes::copy(sheet, from + long, n - from, out, from);
    Ok(n)
}

// So many entries may there be, of which one goes where it is long.
fn most_with(long: usize) -> usize
    ensures { result ≡ most_with long }
{
    if long == 0 { ENTRIES } else { ENTRIES + 1 }
}

// Where the entry of a key stands.
fn find(form: Form, sheet: &[u8], key: usize) -> Spot
    requires { Halfway form sheet.now 0 }
    ensures { result ≡ spot_of form key (entries_of form sheet.now) }
{
    let mut at = 0;
    // Kept: no count of places: each step is as long as the entry that stands there.
    while let Ok(e) = sheet_entry::entry_at(form, sheet, at, 0) {
        if e.key == key {
            return Spot {
                from: at,
                long: e.long,
            };
        }
        at += e.long;
    }
    Spot { from: at, long: 0 }
}
