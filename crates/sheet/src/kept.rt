// The tables that came, in their order, so that they can be added anew to a sheet that has changed meanwhile: of each capture every form once, with its stamp and the word that
// names the capture, and for each table which form it was. Tables repeat, so a form also has how it stood to the sheet when it was last added: one that
// left the sheet as it is changes nothing again, until the sheet changes, or until it comes with fewer mended bytes than the entry that stands.
//
// A table whose form came before with as few mended bytes, or fewer, can't lower what stands, so its own number is let go: only those that fall are kept, in their order.

// So many forms are kept.
const SLOTS: usize = 512;

// A slot: the form's length, low byte first; how it stands; at which change of the sheet that was; its stamp; the capture's word; the number of mended bytes that
// stands; the least with which it came; and the form, of which none has more bytes than 1,068.
const SLOT: usize = 1088;

const STANDS: usize = 2;

const CHANGES: usize = 3;

const STAMP: usize = 7;

const WORD: usize = 11;

const STOOD: usize = 15;

const LEAST: usize = 17;

const HEAD: usize = 19;

// Behind the slots stands which form each table was, two bytes each: so many are kept.
const BEHIND: usize = 557056;

const TABLES: usize = 16384;

// Of a table that came with fewer mended bytes than its form before, the form has so much more.
const FALLS: u16 = 32768;

// Behind the tables stand the numbers that fell, two bytes each: so many are kept.
const NUMBERS: usize = 589824;

const FALLEN: usize = 4096;

pub const KEPT: usize = 598016;

// More than every number of mended bytes.
const NO_NUMBER: u16 = 65535;

// How a form stands, as its slot holds it: it isn't known, it is what stands in the sheet, or it lost to that.
const UNKNOWN: u8 = 0;

const SAME: u8 = 1;

const OLDER: u8 = 2;

// Which of the forms it is, of those from one on, beginning at another; their number where it is none of them. Tables come in turn, so the one
// after the last is the likeliest.
pub fn find(kept: &[u8], since: usize, count: usize, from: usize, form: &[u8]) -> usize {
    let mut at = from;
    for _ in 0..count {
        at = around(at, since, count);
        if is_at(kept, at, form) {
            return at;
        }
        at = after(at);
    }
    count
}

// The first where there is no such form.
fn around(at: usize, since: usize, count: usize) -> usize {
    if (since..count).contains(&at) {
        at
    } else {
        since
    }
}

pub fn after(at: usize) -> usize {
    at.wrapping_add(1)
}

fn is_at(kept: &[u8], at: usize, form: &[u8]) -> bool {
    form_at(kept, at) == form
}

// The form in a slot; nothing where there is none.
pub fn form_at(kept: &[u8], at: usize) -> &[u8] {
    let slot = slot(kept, at);
    let end = HEAD + usize::from(half(slot, 0));
    slot.get(HEAD..end).unwrap_or(&[])
}

// The bytes of a slot; nothing where there is none.
fn slot(kept: &[u8], at: usize) -> &[u8] {
    if at >= SLOTS {
        return &[];
    }
    let from = at * SLOT;
    kept.get(from..from + SLOT).unwrap_or(&[])
}

// Whether a form with so many mended bytes is what stands in the sheet that has changed so often, or lost to that; none where it isn't known. One that
// is what stands is known from the number that stands on.
pub fn stands(kept: &[u8], at: usize, mended: u16, changes: u32) -> Option<bool> {
    let slot = slot(kept, at);
    if slot.len() < HEAD || number(slot, CHANGES) != changes {
        return None;
    }
    match slot[STANDS] {
        SAME if mended >= half(slot, STOOD) => Some(true),
        OLDER => Some(false),
        _ => None,
    }
}

pub fn stamp_at(kept: &[u8], at: usize) -> u32 {
    number(slot(kept, at), STAMP)
}

pub fn word_at(kept: &[u8], at: usize) -> usize {
    number(slot(kept, at), WORD) as usize
}

// The least number of mended bytes with which the form in a slot came.
pub fn least_at(kept: &[u8], at: usize) -> u16 {
    half(slot(kept, at), LEAST)
}

// The number in two bytes at a place, low byte first; 0 where there are none.
fn half(bytes: &[u8], at: usize) -> u16 {
    if bytes.len() < 2 || bytes.len() - 2 < at {
        return 0;
    }
    u16::from_le_bytes([bytes[at], bytes[at + 1]])
}

// The number in four bytes at a place, low byte first; 0 where there are none.
fn number(slot: &[u8], at: usize) -> u32 {
    if slot.len() < 4 || slot.len() - 4 < at {
        return 0;
    }
    u32::from_le_bytes([slot[at], slot[at + 1], slot[at + 2], slot[at + 3]])
}

// Says how the form in a slot stands to the sheet that has changed so often, and which number stands where it is the same; else there is no number.
pub fn judge(kept: &mut [u8], at: usize, stood: Option<u16>, changes: u32) {
    if at >= SLOTS {
        return;
    }
    let mark = if stood.is_some() { SAME } else { OLDER };
    lent_bytes::put(mark, kept, at * SLOT + STANDS);
    lent_bytes::copy(&changes.to_le_bytes(), 0, 4, kept, at * SLOT + CHANGES);
    put_half(kept, at * SLOT + STOOD, stood.unwrap_or(NO_NUMBER));
}

// Puts a number of two bytes at a place, low byte first.
fn put_half(kept: &mut [u8], at: usize, number: u16) {
    lent_bytes::copy(&number.to_le_bytes(), 0, 2, kept, at);
}

// Keeps a form in a slot, and answers whether there was room for it. No number came with it yet.
pub fn keep(kept: &mut [u8], at: usize, stamp: u32, word: usize, form: &[u8]) -> bool {
    if at >= SLOTS || SLOT - HEAD < form.len() {
        return false;
    }
    let from = at * SLOT;
    let word = (word % 4294967296) as u32;
    put_half(kept, from, form.len() as u16);
    lent_bytes::put(UNKNOWN, kept, from + STANDS);
    lent_bytes::copy(&stamp.to_le_bytes(), 0, 4, kept, from + STAMP);
    lent_bytes::copy(&word.to_le_bytes(), 0, 4, kept, from + WORD);
    put_half(kept, from + LEAST, NO_NUMBER);
    lent_bytes::copy(form, 0, form.len(), kept, from + HEAD);
    true
}

// Whether a number is less than every one with which the form in a slot came; then it is the least.
pub fn is_fallen(kept: &mut [u8], at: usize, mended: u16) -> bool {
    if at >= SLOTS || least_at(kept, at) <= mended {
        return false;
    }
    put_least(kept, at, mended);
    true
}

// The form in a slot comes with this number.
pub fn put_least(kept: &mut [u8], at: usize, mended: u16) {
    if at >= SLOTS {
        return;
    }
    put_half(kept, at * SLOT + LEAST, mended);
}

// Keeps a number that fell, and answers whether there was room for it.
pub fn keep_number(kept: &mut [u8], i: usize, mended: u16) -> bool {
    if i >= FALLEN {
        return false;
    }
    put_half(kept, NUMBERS + 2 * i, mended);
    true
}

// One of the numbers that fell.
pub fn number_at(kept: &[u8], i: usize) -> u16 {
    if i >= FALLEN {
        return 0;
    }
    half(kept, NUMBERS + 2 * i)
}

// Keeps which form a table was and whether its number fell, and answers whether there was room for it.
pub fn note(kept: &mut [u8], i: usize, at: usize, has_fallen: bool) -> bool {
    if i >= TABLES || at >= SLOTS {
        return false;
    }
    let falls = if has_fallen { FALLS } else { 0 };
    put_half(kept, BEHIND + 2 * i, at as u16 + falls);
    true
}

// Which form a table was.
pub fn noted(kept: &[u8], i: usize) -> usize {
    (noted_at(kept, i) % FALLS) as usize
}

// Whether a table's number fell.
pub fn has_fallen(kept: &[u8], i: usize) -> bool {
    noted_at(kept, i) >= FALLS
}

fn noted_at(kept: &[u8], i: usize) -> u16 {
    if i >= TABLES {
        return 0;
    }
    half(kept, BEHIND + 2 * i)
}
