// Two bytes of a text unit, each judged alone: its id and its line byte, EN 300 472, tables 4 and 5. Reading and writing ask the same.
ghost use Rattle.std.specs.Prelude.{◌≡◌};
ghost use Rattle.units.specs.Marks.{text_id, line_fits};

// Whether an id is a text unit's: non-subtitle or subtitle data.
pub fn is_text(id: u8) -> bool
    ensures { result ≡ text_id id }
{
    matches!(id, 0x02 | 0x03)
}

// Whether the line offset of a line byte is 0 or from 07 to 16 hex.
pub fn line_fits(b: u8) -> bool
    ensures { result ≡ line_fits b }
{
    matches!(b % 32, 0 | 0x07..=0x16)
}
