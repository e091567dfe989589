// A table's lines read back (SCOPE 13.2, 20.6), the counterpart of `listing`: a line of a name and a number or of a kind, and the lines from
// `descriptor=` on. What stands at a place is read in one walk with nothing held.
#![tactic(auto)]

pub mod lines;

ghost use Rattle.std.specs.Prelude.{IfOk, ◌≡◌, ◌≤◌, ltb, drop};
ghost use Rattle.laws.specs.Pick.{either};
ghost use Rattle.listing_reader.specs.Reading.{words_at, words_of, descriptor_at, descriptors_of, summary_of};
ghost use Rattle.listing_reader.specs.Internal.{Inside, piece_of, row_of, part_of};

pub use lines::{kind_at, number_at};

// The most entries that a descriptor's field counts.
const ENTRIES: usize = 15;

// Where a row ends: whether that is well, and where the line stands that ends it.
#[derive(Drop)]
pub struct End {
    pub fine: bool,
    pub long: usize,
}

// The entries of a descriptor: how many, whether their row ends well, and where the line stands that ends it.
#[derive(Drop)]
pub struct Row {
    pub count: usize,
    pub fine: bool,
    pub long: usize,
}

// A descriptor's number of entries, and its length.
#[derive(Drop)]
pub struct Part {
    pub count: usize,
    pub long: usize,
}

// A table: its descriptors and entries, whether one descriptor has too many, and how their row ends.
#[derive(Drop)]
pub struct Summary {
    pub count: usize,
    pub entries: usize,
    pub over: bool,
    pub fine: bool,
    pub long: usize,
}

// The lines from `descriptor=` on, as far as they are in form.
pub fn table_at(sheet: &[u8], at: usize, kind: usize) -> Summary
    ensures { result ≡ summary_of kind (descriptors_of kind (drop at sheet.now)) }
{
    if sheet.len() < at {
        return Summary {
            count: 0,
            entries: 0,
            over: false,
            fine: true,
            long: 0,
        };
    }
    table_from(sheet, at, kind)
}

// The same, from a place within the text.
fn table_from(sheet: &[u8], at: usize, kind: usize) -> Summary
    requires { Inside sheet.now at }
    ensures { (result ≡ summary_of kind (descriptors_of kind (drop at sheet.now))) × (result.count ≤ result.long) × (result.entries ≤ result.long) }
{
    let mut p = at;
    let mut count = 0;
    let mut entries = 0;
    let mut over = false;
    // Kept: a `loop`: each step goes on by what it read, up to where a row ends.
    loop {
        match descriptor_at(sheet, p, kind) {
            Ok(part) => {
                count += 1;
                entries += part.count;
                over = is_over(over, part.count);
                p += part.long;
            }
            Err(end) => {
                return Summary {
                    count,
                    entries,
                    over,
                    fine: end.fine,
                    long: p + end.long - at,
                };
            }
        }
    }
}

fn is_over(over: bool, entries: usize) -> bool
    ensures { result ≡ either over (ltb 15 entries) }
{
    over || ENTRIES < entries
}

// A descriptor with its entries; or where the row of them ends.
fn descriptor_at(sheet: &[u8], at: usize, kind: usize) -> Result<Part, End>
    requires { Inside sheet.now at }
    ensures { (result ≡ part_of kind (descriptor_at kind (drop at sheet.now))) × IfOk result (λ d. d.count ≤ d.long) }
{
    let line = lines::number_at(sheet, at, b"descriptor=", 63);
    let long = line.long;
    if long == 0 {
        return Err(End {
            fine: true,
            long: 0,
        });
    }
    let row = row_at(sheet, at + long, kind);
    let whole = long + row.long;
    if !row.fine {
        return Err(End {
            fine: false,
            long: whole,
        });
    }
    Ok(Part {
        count: row.count,
        long: whole,
    })
}

// The entries of a descriptor.
fn row_at(sheet: &[u8], at: usize, kind: usize) -> Row
    requires { Inside sheet.now at }
    ensures { (result ≡ row_of (words_of kind (drop at sheet.now))) × (result.count ≤ result.long) }
{
    let mut p = at;
    let mut count = 0;
    // Kept: a `loop`, as above.
    loop {
        match words_at(sheet, p, kind) {
            Ok(long) => {
                count += 1;
                p += long;
            }
            Err(end) => {
                return Row {
                    count,
                    fine: end.fine,
                    long: p + end.long - at,
                };
            }
        }
    }
}

// How long an entry of a descriptor is, a language, and in TI its page; or where the row of them ends.
fn words_at(sheet: &[u8], at: usize, kind: usize) -> Result<usize, End>
    requires { Inside sheet.now at }
    ensures { result ≡ piece_of (words_at kind (drop at sheet.now)) }
{
    let language = lines::language_at(sheet, at);
    let long = language.long;
    if long == 0 {
        return Err(End {
            fine: true,
            long: 0,
        });
    }
    if kind != forms::TI {
        return Ok(long);
    }
    let page = lines::page_at(sheet, at + long);
    let more = page.long;
    if more == 0 {
        return Err(End { fine: false, long });
    }
    Ok(long + more)
}
