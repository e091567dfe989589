// Where the records stand in the space, one after the other: of one stream each as it is, of two each behind the number of its stream
// (SCOPE 27.5, 27.8).
ghost use Rattle.std.specs.Prelude.{◌≡◌};
ghost use Rattle.captures.specs.Spans.{is_one, span_at};

use packet::two::Streams;

// A record: the number of its stream, and the places of its first byte and of the byte after it.
#[derive(Drop)]
pub struct Span {
    pub stream: u8,
    pub from: usize,
    pub next: usize,
}

// Whether a setting is of one stream.
pub fn is_one(setting: Streams) -> bool
    ensures { result ≡ is_one setting }
{
    setting.first == setting.second
}

// The record at a place. To walk along all, start at 0 and go on at each next while it is a place.
pub fn span_at(setting: Streams, records: &[u8], at: usize) -> Span
    ensures { result ≡ span_at setting records.now at }
{
    if is_one(setting) {
        return Span {
            stream: setting.first,
            from: at,
            next: blocks::after(records, at),
        };
    }
    if records.len() <= at {
        return Span {
            stream: setting.first,
            from: at,
            next: at,
        };
    }
    let from = at + 1;
    Span {
        stream: records[at],
        from,
        next: blocks::after(records, from),
    }
}
