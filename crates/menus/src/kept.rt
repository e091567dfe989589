// The menus that are kept of a capture: the first accepted of each number, as forms on a shelf. How many are kept goes by the bytes of their
// records: from the first whose record doesn't fit on none is kept, and the numbers left out are counted.

// So many bytes of records are kept.
const STORE: usize = 524288;

// The shelf that holds their forms. A form with its link is at least 12 bytes shorter than its record; 254 records have at most 520,954 bytes,
// and of 255 or more the forms have at most 524,288 - 255 * 12, which is 521,228.
pub const SHELF: usize = 521280;

// The numbers that a block can have: whether each has come.
pub const NUMBERS: usize = 65536;

// More than the longest form of a menu.
pub const FORM: usize = 2048;

// So many of the numbers that came are told.
pub const TOLD: usize = 20;

// The number that is asked for and whether it came, the first numbers that came, how many bytes of records are kept and how many of the
// shelf are in use, how many numbers were left out, and whether the capture was read to its end.
#[derive(Drop)]
pub struct Kept {
    pub block: u16,
    pub came: bool,
    pub first: [u16; TOLD],
    pub count: usize,
    pub size: usize,
    pub used: usize,
    pub left: u64,
    pub whole: bool,
}

pub fn none(block: u16) -> Kept {
    Kept {
        block,
        came: false,
        first: [0u16; TOLD],
        count: 0,
        size: 0,
        used: 0,
        left: 0,
        whole: false,
    }
}

// The capture has ended.
pub fn ended(mut kept: Kept) -> Kept {
    kept.whole = true;
    kept
}

// Keeps the form of a menu that was accepted, by the length of its record, unless one with its number came before.
pub fn keep(
    kept: Kept,
    long: usize,
    form: &[u8],
    heads: &mut [u8],
    store: &mut [u8],
    numbers: &mut [bool],
) -> Kept {
    if form.len() < 4 {
        return kept;
    }
    let number = u16::from_le_bytes([form[2], form[3]]);
    match numbers.get_mut(usize::from(number)) {
        Some(came) if !*came => *came = true,
        _ => return kept,
    }
    add(met(kept, number), long, form, heads, store)
}

// One number more has come. One more than those that are told is counted, which says that there are more.
fn met(mut kept: Kept, number: u16) -> Kept {
    if number == kept.block {
        kept.came = true;
    }
    let count = kept.count;
    if count < TOLD {
        kept.first[count] = number;
    }
    if count <= TOLD {
        kept.count = count + 1;
    }
    kept
}

// Its form is kept where its record fits and none was left out before.
fn add(kept: Kept, long: usize, form: &[u8], heads: &mut [u8], store: &mut [u8]) -> Kept {
    if kept.left > 0 || kept.size.saturating_add(long) > STORE {
        return leave(kept);
    }
    match shelf::put(form, kept.used, heads, store) {
        Ok(n) => grown(kept, long, n),
        Err(_) => leave(kept),
    }
}

// So many bytes of records more, and so many of the shelf.
fn grown(mut kept: Kept, long: usize, n: usize) -> Kept {
    kept.size = kept.size.saturating_add(long).min(STORE);
    kept.used = kept.used.saturating_add(n).min(SHELF);
    kept
}

// One number more is left out.
fn leave(mut kept: Kept) -> Kept {
    kept.left = kept.left.saturating_add(1);
    kept
}
