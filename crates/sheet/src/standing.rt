// The entries of a sheet, one by one: what stands there of a table, and which entry has a number that the old form can't say.
use sheet_entry::{Form, Found};

// More entries than a lent sheet in form has.
const TURNS: usize = 378;

// The key of no entry: the first entry with a number is sought.
const ANY: usize = usize::MAX;

// The number of the entry that stands in the sheet with the stamp and the lines of a table form; none where there is no such entry. The table's own entry
// is written to the spare space.
pub fn number(stamp: u32, form: &[u8], sheet: &[u8], spare: &mut [u8]) -> Option<u16> {
    let n = sheet_joins::add(Form::New, stamp, 0, told::front(sheet, 0), form, spare).ok()?;
    number_of(told::front(spare, n), sheet)
}

// The same of the sheet of one entry.
fn number_of(one: &[u8], sheet: &[u8]) -> Option<u16> {
    let mine = sheet_entry::entry_at(Form::New, one, 0, 0).ok()?;
    let at = seek(sheet, mine.key);
    let stood = sheet_entry::entry_at(Form::New, sheet, at, 0).ok()?;
    if stood.stamp == mine.stamp && lines_of(one, 0, mine) == lines_of(sheet, at, stood) {
        Some((stood.mended % 65536) as u16)
    } else {
        None
    }
}

// The lines of the entry at a place, behind its head.
fn lines_of(sheet: &[u8], at: usize, found: Found) -> &[u8] {
    let entry = from(told::front(sheet, at.saturating_add(found.long)), at);
    from(entry, found.head)
}

// What stands from a place on; nothing where that is past the end.
fn from(text: &[u8], at: usize) -> &[u8] {
    text.get(at..).unwrap_or(&[])
}

// The key of the first entry with a number of mended bytes.
pub fn lost(sheet: &[u8]) -> usize {
    let at = seek(sheet, ANY);
    match sheet_entry::entry_at(Form::New, sheet, at, 0) {
        Ok(found) => found.key,
        Err(_) => 0,
    }
}

// Where the first entry stands that is sought; where there is none, a place at which no entry stands.
fn seek(sheet: &[u8], key: usize) -> usize {
    let mut at = 0;
    for _ in 0..TURNS {
        match sheet_entry::entry_at(Form::New, sheet, at, 0) {
            Ok(found) if !is_sought(found, key) => at = at.saturating_add(found.long),
            _ => return at,
        }
    }
    at
}

// Whether the walk ends here: it is the entry.
fn is_sought(found: Found, key: usize) -> bool {
    if key == ANY {
        return found.mended > 0;
    }
    found.key == key
}
