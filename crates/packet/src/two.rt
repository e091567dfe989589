// The setting of a reader of two streams on one page.
ghost use Rattle.std.specs.Prelude.{◌≡◌};
ghost use Rattle.packet.specs.Two.{first_of, second_of, in_range_of_two};

use crate::Setting;

// Which page carries the guide, in which two streams, and which application its blocks are of. In range is what is in
// range for each stream alone, with two streams that differ (SCOPE 27.1).
#[derive(Clone, Copy)]
pub struct Streams {
    pub magazine: u8,
    pub page: u8,
    pub first: u8,
    pub second: u8,
    pub application: u8,
}

// Whether a setting of two is in range.
pub fn is_in_range(s: Streams) -> bool
    ensures { result ≡ in_range_of_two s }
{
    if !crate::is_in_range(first(s)) {
        return false;
    }
    crate::is_in_range(second(s)) && s.first != s.second
}

// The setting of the first stream alone.
pub fn first(s: Streams) -> Setting
    ensures { result ≡ first_of s }
{
    alone(s, s.first)
}

// The setting of the second stream alone.
pub fn second(s: Streams) -> Setting
    ensures { result ≡ second_of s }
{
    alone(s, s.second)
}

// The setting of one of the two streams.
fn alone(s: Streams, stream: u8) -> Setting
    ensures magazine { result.magazine ≡ s.magazine }
    ensures page { result.page ≡ s.page }
    ensures stream { result.stream ≡ stream }
    ensures application { result.application ≡ s.application }
{
    Setting {
        magazine: s.magazine,
        page: s.page,
        stream,
        application: s.application,
    }
}
