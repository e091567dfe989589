// An entry of a day sheet at a place (SCOPE 20.6), read in one walk with nothing held: where it ends, its key, its stamp, what was mended, and
// where its table's lines begin. And the text of an entry, written (SCOPE 20.8). Both in either form of a sheet (SCOPE 30.1).
#![tactic(auto)]

pub mod writing;

ghost use Rattle.std.specs.Prelude.{Bool, ◌≡◌, ◌≤◌, drop};
ghost use Rattle.std.specs.declared.result.Result.TheVariants.{Ok};
ghost use Rattle.listing_reader.specs.Reading.{descriptors_of};
ghost use Rattle.listing_reader.specs.Internal.{Inside};
ghost use Rattle.sheet_entry.specs.Entries.{key_in, key_lines, heading, mended_head};
ghost use Rattle.sheet_entry.specs.Reading.{lines_at, with_table, entry_at, found_of};
ghost use Rattle.sheet_entry.specs.Internal.{counts_fit, named_of, head_of};

use listing_reader::Summary;
use listing_reader::lines::Line;
pub use writing::write_entry;

// The form of a sheet: the old one, or the one whose entries say what was mended.
#[derive(Clone, Copy)]
pub enum Form {
    Old,
    New,
}

// The greatest number of mended bytes that the new form says.
const MENDED: usize = 2051;

// The most that the fields count: descriptors, bits of a table.
const DESCRIPTORS: usize = 63;

const BITS: usize = 8184;

const LINE_END: usize = 10;

// The values of a key's lines, and how long these are.
#[derive(Clone, Copy)]
pub struct Named {
    pub kind: usize,
    pub network: usize,
    pub block: usize,
    pub long: usize,
}

// The values of an entry's head, and how long it is.
#[derive(Clone, Copy)]
pub struct Head {
    pub stamp: usize,
    pub mended: usize,
    pub kind: usize,
    pub network: usize,
    pub block: usize,
    pub long: usize,
}

// An entry: its length, its key, its stamp, what was mended, and the length of its head.
#[derive(Clone, Copy)]
pub struct Found {
    pub long: usize,
    pub key: usize,
    pub stamp: usize,
    pub mended: usize,
    pub head: usize,
}

// Why no entry stands there: the sheet ends, or a line is at fault, so far behind the place.
#[derive(Clone, Copy)]
pub enum NoEntry {
    End,
    Fault(usize),
}

// The entry at a place, whose key may not be below `least`.
pub fn entry_at(form: Form, sheet: &[u8], at: usize, least: usize) -> Result<Found, NoEntry>
    ensures { result ≡ found_of form (entry_at form least (drop at sheet.now)) }
{
    if sheet.len() <= at {
        return Err(NoEntry::End);
    }
    match head_at(form, sheet, at) {
        Err(long) => Err(NoEntry::Fault(long)),
        Ok(head) => with_table(form, sheet, at, least, head),
    }
}

// The rest of an entry whose head was read.
fn with_table(
    form: Form,
    sheet: &[u8],
    at: usize,
    least: usize,
    head: Head,
) -> Result<Found, NoEntry>
    requires { Inside sheet.now at × (Ok head ≡ head_of (lines_at (heading form) (drop at sheet.now))) }
    ensures { result ≡ found_of form (with_table least (drop at sheet.now) (lines_at (heading form) (drop at sheet.now))
        (descriptors_of head.kind (drop head.long (drop at sheet.now)))) }
{
    let long = head.long;
    let kind = head.kind;
    let table = listing_reader::table_at(sheet, at + long, kind);
    let end = long + table.long;
    if !table.fine {
        return Err(NoEntry::Fault(end));
    }
    if lent_bytes::byte_at(sheet, at + end) != LINE_END {
        return Err(NoEntry::Fault(end));
    }
    if !counts_fit(kind, head.block, table) {
        return Err(NoEntry::Fault(end));
    }
    let key = key_of(kind, head.network, head.block);
    if least <= key {
        return Ok(Found {
            long: end + 1,
            key,
            stamp: head.stamp,
            mended: head.mended,
            head: long,
        });
    }
    Err(NoEntry::Fault(end))
}

// Network, kind, block, as one number.
fn key_of(kind: usize, network: usize, block: usize) -> usize
    requires { (network ≤ 255) × (block ≤ 65535) }
    ensures { (result ≡ key_in network kind block) × (result ≤ 33554431) }
{
    (network * 2 + usize::from(kind == forms::TI)) * 65536 + block
}

// Whether a table with this number and these counts can be written.
fn counts_fit(kind: usize, block: usize, table: Summary) -> bool
    ensures { result ≡ counts_fit kind block table }
{
    let words = if kind == forms::TI { 2 } else { 1 };
    forms::numbered(block)
        && table.count <= DESCRIPTORS
        && !table.over
        && table.entries <= BITS
        && forms::LOOPS + forms::HEADING * table.count + forms::WORD * (words * table.entries)
            <= BITS
}

// What opens an entry, its stamp and what was mended, then its key's lines; or where the line at fault stands.
fn head_at(form: Form, sheet: &[u8], at: usize) -> Result<Head, usize>
    requires { Inside sheet.now at }
    ensures { result ≡ head_of (lines_at (heading form) (drop at sheet.now)) }
{
    let stamp = listing_reader::number_at(sheet, at, b"stamp=", 4294967295);
    let a = stamp.long;
    if a == 0 {
        return Err(0);
    }
    let mended = mended_at(form, sheet, at + a);
    let b = mended.long;
    if b < mended_least(form) {
        return Err(a);
    }
    match key_at(sheet, at + a + b) {
        Err(long) => Err(a + b + long),
        Ok(key) => Ok(Head {
            stamp: stamp.value,
            mended: mended.value,
            kind: key.kind,
            network: key.network,
            block: key.block,
            long: a + b + key.long,
        }),
    }
}

// The line of what was mended. In the old form there is none: it takes no bytes and gives 0.
fn mended_at(form: Form, sheet: &[u8], at: usize) -> Line
    ensures { result ≡ (mended_head form).reads (drop at sheet.now) }
{
    match form {
        Form::Old => Line { value: 0, long: 0 },
        Form::New => listing_reader::number_at(sheet, at, b"mended=", MENDED),
    }
}

// The fewest bytes of that line.
fn mended_least(form: Form) -> usize
    ensures { result ≡ (mended_head form).least }
{
    match form {
        Form::Old => 0,
        Form::New => 1,
    }
}

// The lines of kind, network and block; or where the line at fault stands.
fn key_at(sheet: &[u8], at: usize) -> Result<Named, usize>
    requires { Inside sheet.now at }
    ensures { result ≡ named_of (lines_at key_lines (drop at sheet.now)) }
{
    let kind = listing_reader::kind_at(sheet, at);
    let a = kind.long;
    if a == 0 {
        return Err(0);
    }
    let network = listing_reader::number_at(sheet, at + a, b"network=", 255);
    let b = network.long;
    if b == 0 {
        return Err(a);
    }
    let block = listing_reader::number_at(sheet, at + a + b, b"block=", 65535);
    let c = block.long;
    if c == 0 {
        return Err(a + b);
    }
    Ok(Named {
        kind: kind.value,
        network: network.value,
        block: block.value,
        long: a + b + c,
    })
}
