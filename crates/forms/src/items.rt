// What the bytes of a table's form say one by one: a word, whether the kind and the block number are ones that are read, and how
// many words its entries have.
ghost use Rattle.std.specs.Prelude.{◌≡◌, ◌*◌, ◌%◌, ◌^◌, ◌<◌, ◌≤◌};
ghost use Rattle.forms.specs.Kinds.{per, known as kinds_known, numbered as kinds_numbered};
ghost use Rattle.forms.specs.Words.{word_at};

// 11.12.3: the datatype_id of a Subtitle and of a Language table.
// Kept: kinds are numbers: a form's first byte is any number, and `known` and `per` of specs/Kinds.antt are said of numbers.
pub const TI: usize = 8;

const LI: usize = 7;

// TI or LI.
pub fn known(kind: usize) -> bool
    ensures { result ≡ kinds_known kind }
{
    matches!(kind, TI | LI)
}

// Whether a table of this edition has this block number: 0000 or 8000 hex (SCOPE 22.1).
pub fn numbered(block: usize) -> bool
    ensures { result ≡ kinds_numbered block }
{
    matches!(block, 0 | 0x8000)
}

// The words that so many entries of a kind have. Only a byte's worth of entries counts.
pub fn words_of(kind: usize, entries: usize) -> usize
    ensures { (result ≡ per kind * (entries % 256)) × (result ≤ 2 * (entries % 256)) }
{
    let n = entries % 256;
    if kind == TI { 2 * n } else { n }
}

// The word at a place of a form, high byte first. Past its end a form reads as zeros.
pub fn word_at(table: &[u8], i: usize) -> usize
    ensures { (result ≡ word_at table.now i) × (result < 2 ^ 24) }
{
    if table.len() <= i {
        return 0;
    }
    let high = lent_bytes::byte_at(table, i);
    let middle = lent_bytes::byte_at(table, i + 1);
    let low = lent_bytes::byte_at(table, i + 2);
    (high * 256 + middle) * 256 + low
}
