// A Subtitle (TI) table as the teletext descriptor of EN 300 468, and back (SCOPE 29).
#![tactic(auto)]

ghost use Rattle.std.specs.Prelude.{◌≡◌, ◌+◌, ◌*◌, ◌<◌, ◌≤◌, length, get_or, drop};
ghost use Rattle.std.proofs.lemmas.List.Edits.{sets};
ghost use Rattle.answer.specs.Rules.{judged};
ghost use Rattle.answer.specs.Values.{refused};
ghost use Rattle.answer.specs.Writing.{answered, left};
ghost use Rattle.std.specs.declared.result.Result.TheVariants.{Ok};
ghost use Rattle.forms.specs.Form.{form, words_in, table_in};
ghost use Rattle.forms.specs.Internal.{form_most};
ghost use Rattle.forms.specs.Tables.{TI as Tables-as-TI};
ghost use Rattle.dvb_descriptor.specs.Subtitles.{subtitle_of, paired, subtitles_of};
ghost use Rattle.dvb_descriptor.specs.Entries.{subtitle_type, five, fives, subtitle_in, kept_in, count_in};
ghost use Rattle.dvb_descriptor.specs.Calls.{most, write_rules, descriptor_of, read_rules, read_of};
ghost use Rattle.dvb_descriptor.specs.Internal.{is_other};

use answer::{Answer, Reason};
use forms::{OPENING, TI};

// The longest descriptor: its tag, its length, and 51 entries of five bytes.
pub const LONGEST: usize = 257;

// EN 300 468: the tag of a teletext descriptor.
const TAG: usize = 0x56;

// EN 300 468: the type of a teletext subtitle page.
const SUBTITLE: usize = 0x02;

// As many entries as a length of one byte can count.
const MOST: usize = 51;

// What a set is told of a subtitle: its language, its magazine as three bits (0 is magazine 8), and its page.
#[derive(Drop)]
struct Subtitle {
    language: usize,
    magazine: usize,
    page: usize,
}

// The descriptor of the TI table of this form, to the front of `out`.
pub fn write_descriptor(table: &[u8], out: &mut [u8]) -> Answer
    ensures answer { result ≡ answered (write_rules table.now) (descriptor_of (table_in table.now)) out.old }
    ensures output { out.new ≡ left (write_rules table.now) (descriptor_of (table_in table.now)) out.old }
{
    let n = judge(table)?;
    let need = 2 + 5 * n;
    if out.len() < need {
        return Reason::NoRoom.refuse(0);
    }
    let head = [TAG as u8, (5 * n) as u8];
    lent_bytes::copy(&head, 0, 2, out, 0);
    put_descriptors(table, out);
    Ok(need)
}

// What a descriptor of these bytes says, to the front of `out`: the number of its subtitles, the number of its other entries, then
// of each subtitle its language, its magazine and its page.
pub fn read_descriptor(bytes: &[u8], out: &mut [u8]) -> Answer
    ensures answer { result ≡ answered (read_rules bytes.now) (read_of bytes.now) out.old }
    ensures output { out.new ≡ left (read_rules bytes.now) (read_of bytes.now) out.old }
{
    let k = judge_bytes(bytes)?;
    let need = measure(bytes, k);
    if out.len() < need {
        return Reason::NoRoom.refuse(0);
    }
    let n = (need - 2) / 5;
    let head = [n as u8, (k - n) as u8];
    lent_bytes::copy(&head, 0, 2, out, 0);
    put_subtitles(bytes, k, out);
    Ok(need)
}

// ---- writing

// 22, 13, 15, 26: whether a form is one whose descriptor can be written; where it is, how many subtitles it has.
fn judge(table: &[u8]) -> Answer
    ensures { result ≡ judged refused (write_rules table.now) (Ok (length (subtitles_of (table_in table.now)))) }
{
    if is_other(table) {
        return Reason::Value.refuse(0);
    }
    forms::judge_form(table)?;
    let n = count(table);
    if MOST < n {
        return Reason::TooMany.refuse(0);
    }
    Ok(n)
}

// Whether a form with its opening, of a block number of this edition, is of another kind than TI.
fn is_other(table: &[u8]) -> bool
    ensures { result ≡ is_other table.now }
{
    OPENING <= table.len()
        && forms::numbered(lent_bytes::byte_at(table, 2) + 256 * lent_bytes::byte_at(table, 3))
        && lent_bytes::byte_at(table, 0) != TI
}

// How many subtitles a form has, by its length: two bytes of each descriptor are its own.
fn count(table: &[u8]) -> usize
    requires { (get_or table.now 0 0 ≡ Tables-as-TI) × (length table.now ≡ length (form (table_in table.now))) }
    ensures { result ≡ length (subtitles_of (table_in table.now)) }
{
    (table.len() - OPENING - 2 * lent_bytes::byte_at(table, 5)) / 6
}

// The entries of a form, behind tag and length.
fn put_descriptors(table: &[u8], out: &mut [u8])
    requires { get_or table.now 0 0 ≡ Tables-as-TI }
    ensures { out.new ≡ sets out.old 2 (fives subtitle_type (subtitles_of (table_in table.now))) }
{
    let mut i = OPENING;
    let mut to = 2;
    for _ in 0..lent_bytes::byte_at(table, 5) {
        let entries = lent_bytes::byte_at(table, i + 1);
        put_entries(table, i + 2, entries, out, to);
        i += 2 + 6 * entries;
        to += 5 * entries;
    }
}

// The entries of the k subtitles from a place of the form on.
fn put_entries(table: &[u8], from: usize, k: usize, out: &mut [u8], to: usize)
    requires { (from ≤ form_most) × (to ≤ form_most) × (k < 256) }
    ensures { out.new ≡ sets out.old to (fives subtitle_type (paired (words_in (2 * k) (drop from table.now)))) }
{
    let mut i = from;
    let mut q = to;
    for _ in 0..k {
        let s = subtitle_of(forms::word_at(table, i), forms::word_at(table, i + 3));
        put_five(SUBTITLE, s, out, q);
        i += 6;
        q += 5;
    }
}

// A subtitle by its language and its page value, page_reference: units in bits 0 to 3, tens in 4 to 7, the magazine in 15, 22
// and 23.
fn subtitle_of(language: usize, reference: usize) -> Subtitle
    ensures { (result ≡ subtitle_of language reference) × (result.magazine < 8) × (result.page < 256) }
{
    let units = reference % 16;
    let tens = reference / 16 % 16;
    let m0 = reference / 0x8000 % 2;
    let m1 = reference / 0x40_0000 % 2;
    let m2 = reference / 0x80_0000 % 2;
    Subtitle {
        language,
        magazine: 4 * m2 + 2 * m1 + m0,
        page: 16 * tens + units,
    }
}

// ---- reading

// 27: whether tag and length fit; where they do, the number of entries.
fn judge_bytes(bytes: &[u8]) -> Answer
    ensures { (result ≡ judged refused (read_rules bytes.now) (Ok (count_in bytes.now)))
        × (count_in bytes.now ≤ most) }
{
    let long = lent_bytes::byte_at(bytes, 1);
    if lent_bytes::byte_at(bytes, 0) != TAG || long % 5 != 0 || bytes.len() != 2 + long {
        return Reason::NotADescriptor.refuse(0);
    }
    Ok(long / 5)
}

// How long what is handed out is: the walk that puts it, with no room.
fn measure(bytes: &[u8], k: usize) -> usize
    requires { k ≤ most }
    ensures { (result ≡ 2 + 5 * length (kept_in k (drop 2 bytes.now))) × (result ≤ 2 + 5 * k) }
{
    let mut scrap = [0u8; 0];
    put_subtitles(bytes, k, &mut scrap)
}

// Puts the subtitles among the k entries of a descriptor behind the two counts, as far as there is room, and answers how long all of it is.
fn put_subtitles(bytes: &[u8], k: usize, out: &mut [u8]) -> usize
    requires { k ≤ most }
    ensures { (result ≡ 2 + 5 * length (kept_in k (drop 2 bytes.now)))
        × (out.new ≡ sets out.old 2 (fives 0 (kept_in k (drop 2 bytes.now)))) }
{
    let mut i = 2;
    let mut to = 2;
    for _ in 0..k {
        to = put_subtitle(bytes, i, out, to);
        i += 5;
    }
    to
}

// Puts the subtitle of the entry at a place, if it is one, and answers the place behind it.
fn put_subtitle(bytes: &[u8], i: usize, out: &mut [u8], to: usize) -> usize
    requires { (i ≤ 300) × (to ≤ 300) }
    ensures { (result ≡ to + 5 * length (kept_in 1 (drop i bytes.now)))
        × (result ≤ to + 5)
        × (out.new ≡ sets out.old to (fives 0 (kept_in 1 (drop i bytes.now)))) }
{
    if lent_bytes::byte_at(bytes, i + 3) / 8 != SUBTITLE {
        return to;
    }
    put_five(0, subtitle_at(bytes, i), out, to);
    to + 5
}

// What the entry at a place says.
fn subtitle_at(bytes: &[u8], i: usize) -> Subtitle
    requires { i ≤ 300 }
    ensures { (result ≡ subtitle_in (drop i bytes.now)) × (result.magazine < 8) × (result.page < 256) }
{
    let language = forms::word_at(bytes, i);
    let magazine = lent_bytes::byte_at(bytes, i + 3) % 8;
    let page = lent_bytes::byte_at(bytes, i + 4);
    Subtitle {
        language,
        magazine,
        page,
    }
}

// ---- both ways

// The five bytes of a subtitle: language, high byte first, magazine with a type above it, page.
fn put_five(above: usize, s: Subtitle, out: &mut [u8], to: usize)
    requires { (above < 32) × (s.magazine < 8) × (s.page < 256) }
    ensures { out.new ≡ sets out.old to (five above s) }
{
    let bytes = [
        (s.language / 256 / 256 % 256) as u8,
        (s.language / 256 % 256) as u8,
        (s.language % 256) as u8,
        (8 * above + s.magazine) as u8,
        s.page as u8,
    ];
    lent_bytes::copy(&bytes, 0, 5, out, to);
}
