// Sheets as the tasks take them: one is judged, another joined to it, an entry dropped, and each is looked at.
use crate::work::Work;
use crate::{says, work};
use captures::{Got, Source};
use sheet_entry::Form;
use sheet_file::modes;
use std::io::Read;
use std::rt::Files;
use told::Console;

// One more than the most that a sheet has, so that a longer one is seen.
pub const SHEET: usize = 17153;

// Whether the sheet is in form, in order and within its limits; what it isn't is told.
pub fn is_judged(rt: &impl Console, name: &[u8], sheet: &[u8], spare: &mut [u8]) -> bool {
    match day_sheet::rewrite(Form::New, sheet, spare) {
        Ok(_) => true,
        Err(r) => {
            says::refuse_sheet(rt, name, r.no, r.at, sheet);
            false
        }
    }
}

// Joins the sheet of a name to the first, unless something failed before.
pub fn open_other(
    rt: &(impl Files + Console),
    word: &mut [u8; 4096],
    n: usize,
    work: Work,
    sheet: &mut [u8],
    spare: &mut [u8],
) -> Work {
    if !work.sound {
        return work;
    }
    let opened = modes::open_plain(rt, told::front(word, n));
    told::plain(word);
    match opened {
        Ok(Some(file)) => {
            let mut source = Source::new(file);
            read_other(rt, &mut source, told::front(word, n), work, sheet, spare)
        }
        Ok(None) => {
            says::tell(
                rt,
                told::front(word, n),
                b"it is no plain file, and the first sheet stays as it was",
            );
            work::broken(work)
        }
        Err(why) => {
            says::fail(
                rt,
                told::front(word, n),
                b"it can't be opened, and the first sheet stays as it was",
                why,
            );
            work::broken(work)
        }
    }
}

// It is judged by itself first, so that it is told where it is at fault.
fn read_other<F: Read>(
    rt: &impl Console,
    source: &mut Source<F>,
    name: &[u8],
    work: Work,
    sheet: &mut [u8],
    spare: &mut [u8],
) -> Work {
    let mut other = [0u8; SHEET];
    let got = fill_sheet(source, &mut other);
    let Got::Bytes(n) = got else {
        says::fail(
            rt,
            name,
            b"it can't be read, and the first sheet stays as it was",
            source.why,
        );
        return work::broken(work);
    };
    join_read(rt, name, &other, n, work, sheet, spare)
}

fn join_read(
    rt: &impl Console,
    name: &[u8],
    other: &[u8; SHEET],
    n: usize,
    work: Work,
    sheet: &mut [u8],
    spare: &mut [u8],
) -> Work {
    let other = told::front(other, n);
    if !is_judged(rt, name, other, spare) {
        return work::broken(work);
    }
    join(rt, name, other, work, sheet, spare)
}

fn fill_sheet<F: Read>(source: &mut Source<F>, sheet: &mut [u8; SHEET]) -> Got {
    captures::fill(source, sheet)
}

fn join(
    rt: &impl Console,
    name: &[u8],
    other: &[u8],
    work: Work,
    sheet: &mut [u8],
    spare: &mut [u8],
) -> Work {
    match sheet_joins::join(Form::New, told::front(sheet, work.length), other, spare) {
        Ok(n) => {
            lent_bytes::copy(spare, 0, n, sheet, 0);
            work::resized(work, n, texts::entries(told::front(spare, n)) as u64)
        }
        Err(r) => {
            says::refuse_other(rt, name, r.no, r.at);
            work::broken(work)
        }
    }
}

// Drops the entry of a network, kind and block. One that isn't there is told, and so is a sheet that is refused.
pub fn drop(
    rt: &impl Console,
    shown: &[u8],
    network: u8,
    kind: u8,
    block: u16,
    work: Work,
    sheet: &mut [u8],
    spare: &mut [u8],
) -> Work {
    let answer = day_sheet::drop(
        Form::New,
        network,
        kind,
        block,
        told::front(sheet, work.length),
        spare,
    );
    match answer {
        Ok(n) => dropped(rt, shown, network, kind, block, n, work, sheet, spare),
        Err(r) => {
            says::refuse_sheet(rt, shown, r.no, r.at, told::front(sheet, work.length));
            work::broken(work)
        }
    }
}

// The sheet without the entry is in the first n bytes of the spare space.
fn dropped(
    rt: &impl Console,
    shown: &[u8],
    network: u8,
    kind: u8,
    block: u16,
    n: usize,
    work: Work,
    sheet: &mut [u8],
    spare: &[u8],
) -> Work {
    if n == work.length {
        says::no_entry(rt, shown, network, kind, block);
        return work::broken(work);
    }
    lent_bytes::copy(spare, 0, n, sheet, 0);
    work::resized(work, n, texts::entries(told::front(spare, n)) as u64)
}

// Looks at the sheet of a name, and prints its line. Answers whether standard output took it.
pub fn check(rt: &(impl Files + Console), word: &mut [u8; 4096], n: usize) -> bool {
    let opened = modes::open_plain(rt, told::front(word, n));
    told::plain(word);
    match opened {
        Ok(Some(file)) => {
            let mut source = Source::new(file);
            check_read(rt, &mut source, told::front(word, n))
        }
        Ok(None) => {
            says::tell(rt, told::front(word, n), b"it is no plain file");
            true
        }
        Err(why) => {
            says::fail(rt, told::front(word, n), b"it can't be opened", why);
            true
        }
    }
}

fn check_read<F: Read>(rt: &impl Console, source: &mut Source<F>, name: &[u8]) -> bool {
    let mut sheet = [0u8; SHEET];
    let mut spare = [0u8; SHEET];
    let got = fill_sheet(source, &mut sheet);
    let Got::Bytes(n) = got else {
        says::fail(rt, name, b"it can't be read", source.why);
        return true;
    };
    check_bytes(rt, name, &sheet, n, &mut spare)
}

fn check_bytes(
    rt: &impl Console,
    name: &[u8],
    sheet: &[u8; SHEET],
    n: usize,
    spare: &mut [u8; SHEET],
) -> bool {
    let sheet = told::front(sheet, n);
    if !is_judged(rt, name, sheet, spare) {
        return true;
    }
    says::put_sheet(rt, name, texts::entries(sheet) as u64, n as u64)
}
