// A sheet moved from the old form to the new one, or back (SCOPE 30.8). A sheet that was refused is held against the other form, so that whoever
// keeps it is told what it is.
use crate::work::Work;
use crate::{says, work};
use sheet_entry::Form;
use told::Console;

// Whether a sheet has a form, and is within its limits.
pub fn is_of(form: Form, sheet: &[u8]) -> bool {
    day_sheet::judge(form, sheet).is_ok()
}

// Moves the sheet to the new form.
pub fn up(rt: &impl Console, shown: &[u8], work: Work, sheet: &mut [u8], spare: &mut [u8]) -> Work {
    match sheet_moves::up(told::front(sheet, work.length), spare) {
        Ok(n) => moved(n, work, sheet, spare),
        Err(r) => {
            says::refuse_up(rt, shown, r.no, r.at, told::front(sheet, work.length));
            work::broken(work)
        }
    }
}

// Moves the sheet to the old form.
pub fn down(
    rt: &impl Console,
    shown: &[u8],
    work: Work,
    sheet: &mut [u8],
    spare: &mut [u8],
) -> Work {
    match sheet_moves::down(told::front(sheet, work.length), spare) {
        Ok(n) => moved(n, work, sheet, spare),
        Err(r) => {
            says::refuse_down(rt, shown, r.no, r.at, told::front(sheet, work.length));
            work::broken(work)
        }
    }
}

// The sheet in its other form is in the first n bytes of the spare space.
fn moved(n: usize, work: Work, sheet: &mut [u8], spare: &[u8]) -> Work {
    lent_bytes::copy(spare, 0, n, sheet, 0);
    work::resized(work, n, texts::entries(told::front(spare, n)) as u64)
}
