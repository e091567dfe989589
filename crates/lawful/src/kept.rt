// The blocks that are kept of a capture: of the five kinds of which a broadcast can have too many, each that counts, once, as whole records.

// So many bytes of records are kept: every lawful guide fits, which has at most 1,580,807.
pub const STORE: usize = 2097152;

// AI, MI, UI, LI and TI, in the order of table D.1.
pub const KINDS: usize = 5;

// How many bytes of the store are in use, how many blocks of each kind are kept, whether one came that didn't fit, and whether the capture was
// read to its end.
#[derive(Drop)]
pub struct Kept {
    pub used: usize,
    pub numbers: [u64; KINDS],
    pub full: bool,
    pub whole: bool,
}

pub fn none() -> Kept {
    Kept {
        used: 0,
        numbers: [0u64; KINDS],
        full: false,
        whole: false,
    }
}

// The capture has ended.
pub fn ended(mut kept: Kept) -> Kept {
    kept.whole = true;
    kept
}

// Keeps a record that counts as one of the five kinds, unless its block is kept already. A repeat may have come with other bytes that were mended.
pub fn keep(kept: Kept, application: u8, rec: &[u8], store: &mut [u8]) -> Kept {
    match place_of(broadcast::counts(application, rec)) {
        Some(place) if !is_there(told::front(store, kept.used), rec) => {
            add(kept, place, rec, store)
        }
        _ => kept,
    }
}

// The place of a datatype among the five kinds; another has none.
fn place_of(kind: u8) -> Option<usize> {
    match kind {
        1 => Some(0),
        5..=8 => Some(usize::from(kind) - 4),
        _ => None,
    }
}

// Whether a block is among the records of a list.
fn is_there(records: &[u8], rec: &[u8]) -> bool {
    let mut at = 0;
    // Kept: each turn goes to the next record, and records differ in length.
    while at < records.len() {
        let next = blocks::after(records, at);
        if broadcast::same(&records[at..next], rec) {
            return true;
        }
        at = next;
    }
    false
}

// One block more, where it fits.
fn add(mut kept: Kept, place: usize, rec: &[u8], store: &mut [u8]) -> Kept {
    let used = kept.used;
    if store.len() < used || store.len() - used < rec.len() {
        kept.full = true;
        return kept;
    }
    let end = used + rec.len();
    store[used..end].copy_from_slice(rec);
    kept.used = end;
    if let Some(n) = kept.numbers.get_mut(place) {
        *n = n.saturating_add(1);
    }
    kept
}
