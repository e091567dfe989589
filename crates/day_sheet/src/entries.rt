// A sheet read entry by entry (SCOPE 20.6, 20.7).
ghost use Rattle.std.specs.Prelude.{◌≡◌};
ghost use Rattle.day_sheet.specs.Reading.{sheet_of};
ghost use Rattle.day_sheet.specs.Internal.{Inside, sheet_read};

use sheet_entry::{Form, NoEntry};

// The whole sheet: how many entries it has, or where the line at fault stands.
pub(crate) fn read(form: Form, sheet: &[u8]) -> Result<usize, usize>
    requires { Inside sheet.now 0 }
    ensures { result ≡ sheet_read (sheet_of form sheet.now) }
{
    let mut at = 0;
    let mut least = 0;
    let mut count = 0;
    // Kept: no count of places: each step is as long as the entry that stands there.
    loop {
        match sheet_entry::entry_at(form, sheet, at, least) {
            Ok(e) => {
                at += e.long;
                least = e.key + 1;
                count += 1;
            }
            Err(NoEntry::End) => return Ok(count),
            Err(NoEntry::Fault(long)) => return Err(at + long),
        }
    }
}
