// What was done so far, as its last line counts it, and what of the tables is kept.

#[derive(Clone, Copy)]
pub struct Work {
    // Whether nothing failed.
    pub sound: bool,
    // How many bytes and entries the sheet has.
    pub length: usize,
    pub entries: u64,
    pub captures: u64,
    // The tables accepted, and of them those that were new, took another's place, lost to another, and stood there already.
    pub tables: u64,
    pub new: u64,
    pub replaced: u64,
    pub older: u64,
    pub same: u64,
    // How many forms are kept, from which on they are this capture's, and at which one looks first; how many tables they came in, and how many
    // numbers of theirs fell; and whether that is all that came.
    pub kept: usize,
    pub since: usize,
    pub next: usize,
    pub came: usize,
    pub fallen: usize,
    pub whole: bool,
    // How often the sheet has changed, but for a number alone. It tells those changes apart in which a form was looked at, and begins anew where it is full.
    pub changes: u32,
}

// Nothing was done yet with a sheet of so many bytes and entries.
pub fn start(length: usize, entries: u64) -> Work {
    Work {
        sound: true,
        length,
        entries,
        captures: 0,
        tables: 0,
        new: 0,
        replaced: 0,
        older: 0,
        same: 0,
        kept: 0,
        since: 0,
        next: 0,
        came: 0,
        fallen: 0,
        whole: true,
        changes: 0,
    }
}

// The same work, to be done anew with a sheet of so many bytes and entries: what came is kept, and its numbers fall anew.
pub fn anew(work: Work, length: usize, entries: u64) -> Work {
    let mut fresh = start(length, entries);
    fresh.captures = work.captures;
    fresh.kept = work.kept;
    fresh.since = work.since;
    fresh.came = work.came;
    fresh.whole = work.whole;
    fresh.changes = work.changes.wrapping_add(1);
    fresh
}

// Something failed.
pub fn broken(mut work: Work) -> Work {
    work.sound = false;
    work
}

// One capture more: no form is known of it.
pub fn capture(mut work: Work) -> Work {
    work.captures = work.captures.saturating_add(1);
    work.since = work.kept;
    work.next = work.kept;
    work
}

// One table more that was accepted.
pub fn table(mut work: Work) -> Work {
    work.tables = work.tables.saturating_add(1);
    work
}

// A table that changes nothing.
pub fn stays(mut work: Work, is_same: bool) -> Work {
    if is_same {
        work.same = work.same.saturating_add(1);
    } else {
        work.older = work.older.saturating_add(1);
    }
    work
}

// A table that changed the sheet, which now has so many bytes and entries: it is new where there is one entry more.
pub fn changed(work: Work, length: usize, entries: u64) -> Work {
    let is_new = work.entries < entries;
    let mut work = resized(work, length, entries);
    work.changes = work.changes.wrapping_add(1);
    if is_new {
        work.new = work.new.saturating_add(1);
    } else {
        work.replaced = work.replaced.saturating_add(1);
    }
    work
}

// A table that only lowered the number of the entry that stands: what is known of other forms stays.
pub fn lowered(mut work: Work, length: usize) -> Work {
    work.length = length;
    work.replaced = work.replaced.saturating_add(1);
    work
}

// One number more that fell.
pub fn falls(mut work: Work) -> Work {
    work.fallen = work.fallen.saturating_add(1);
    work
}

// The sheet has so many bytes and entries.
pub fn resized(mut work: Work, length: usize, entries: u64) -> Work {
    work.length = length;
    work.entries = entries;
    work
}

// Forms that came can't be kept any more, and those that were are let go.
pub fn forget(mut work: Work) -> Work {
    work.kept = 0;
    work.since = 0;
    work.next = 0;
    work.whole = false;
    work
}
