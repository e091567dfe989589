// A sheet with one entry more: the text of the entry is held, and joined with the sheet (SCOPE 20.8, 30.3).
ghost use Rattle.std.specs.Prelude.{◌≡◌};
ghost use Rattle.answer.specs.Writing.{answered, left};
ghost use Rattle.day_sheet.specs.Entries.{sheet_text};
ghost use Rattle.sheet_joins.specs.Calls.{add_result, add_rules};

use answer::Answer;
use sheet_entry::Form;
use sheet_entry::writing::ENTRY;

// The sheet joined with the entry of a table form, its stamp and what was mended of it, to the front of `out`.
pub fn add(
    form: Form,
    stamp: u32,
    mended: u16,
    sheet: &[u8],
    table: &[u8],
    out: &mut [u8],
) -> Answer
    ensures answer { result
        ≡ answered (add_rules form stamp mended sheet.now table.now)
        (sheet_text form (add_result form stamp mended sheet.now table.now)) out.old }
    ensures output { out.new
        ≡ left (add_rules form stamp mended sheet.now table.now)
        (sheet_text form (add_result form stamp mended sheet.now table.now)) out.old }
{
    let mut text = [0u8; ENTRY];
    let n = sheet_entry::write_entry(form, stamp, mended, table, &mut text)?;
    crate::join(form, sheet, &text[..n], out)
}
