// A capture, from a source, a setting and a fresh reader to the records of the blocks that its packets finish (SCOPE 10.6, 10.7), of one
// stream or of two (SCOPE 27.8): a setting that names one stream twice is of that stream alone. It is pulled: each call of `next` reads a piece or feeds packets of it, and says how many bytes of records that gave. The caller lends the
// piece, the space for records and a list of pages, which are its own to look at between two calls, and hands the capture on from call to
// call. Each piece is also looked at by `sight`: what is counted (SCOPE 13.10), and what the capture may be (SCOPE 13.9).
//
// What can't come, a reader that takes nothing, ends a capture as a failure: nothing goes on from it. That it can't come is `never_stuck`
// (proofs/Moving).
#![tactic(auto)]

mod feeding;
pub mod reading;
pub mod spans;

ghost use Rattle.std.specs.Prelude.{◌≡◌, length};
ghost use Rattle.captures.specs.Courses.{started, staged as courses_staged};
ghost use Rattle.captures.specs.Pulling.{looked_capture, looked_piece, looked_pages, ended_turn, read_turn, stage_after, Pulled, ReadOn};

use packet::PACKET;
use packet::two::Streams;
use reader::Reader;
use reader::two::Readers;
pub use reading::{Got, Source, fill};
use sight::{PAGES, Sight};
pub use spans::{Span, is_one, span_at};
use std::io::Read;

// 1,560 packets. A piece is read until it is full, so only the last can end within a packet.
pub const PIECE: usize = 65520;

// More than the records that the packets of one piece finish.
pub const RECORDS: usize = 65536;

// How much of a capture is left.
#[derive(Clone, Copy)]
pub enum Stage {
    // Another piece may come behind the one that is held.
    More,
    // The piece that is held is the last.
    Last,
    // Nothing: all was handed out.
    Over,
    // Nothing: a read failed, or the reader took nothing.
    Broken,
}

// How far a capture has come: how many bytes of the piece are held, and up to which place they were fed; how many calls of the reader told of
// a drop; and what was seen. Where drops are counted the reader gets one packet in a call, so that each packet that drops counts.
#[derive(Clone, Copy)]
pub struct Course {
    pub setting: Streams,
    pub verbose: bool,
    pub stage: Stage,
    pub at: usize,
    pub held: usize,
    pub dropped: u64,
    pub sight: Sight,
}

// A state with an array stands beside the enum. Of the two states only the one that the setting asks for goes on: one stream's, or two's.
#[derive(Clone, Copy)]
pub struct Capture {
    pub reader: Reader,
    pub readers: Readers,
    pub course: Course,
}

// What came of a call.
#[derive(Clone, Copy)]
pub enum Came {
    // So many bytes of records at the front of the space, which may be none.
    Records(usize),
    // The end: so many bytes behind the last packet make no packet.
    Ended(usize),
    // A read failed, and the source says why.
    Unread,
    // The reader took nothing, which never comes.
    Stuck,
}

#[derive(Clone, Copy)]
pub struct Turn {
    pub capture: Capture,
    pub came: Came,
}

// A capture of which nothing is read yet.
pub fn start(setting: Streams, verbose: bool) -> Capture
    ensures { result ≡ started setting verbose }
{
    Capture {
        reader: reader::fresh(),
        readers: reader::two::fresh(),
        course: Course {
            setting,
            verbose,
            stage: Stage::More,
            at: 0,
            held: 0,
            dropped: 0,
            sight: sight::none(),
        },
    }
}

// The next records of a capture, its end, or what failed. Packets of the piece are fed while some are left; then the piece is looked at, and
// the next one read. Of the piece, only a read and a look change bytes.
pub fn next<R: Read>(
    source: &mut Source<R>,
    capture: Capture,
    piece: &mut [u8; PIECE],
    records: &mut [u8; RECORDS],
    pages: &mut [u16; PAGES],
) -> Turn
    ensures { Pulled capture piece.old piece.new records.old records.new pages.old pages.new result }
{
    pull(source, capture, piece, records, pages)
}

fn pull<R: Read>(
    source: &mut Source<R>,
    capture: Capture,
    piece: &mut [u8],
    records: &mut [u8],
    pages: &mut [u16],
) -> Turn
    ensures { Pulled capture piece.old piece.new records.old records.new pages.old pages.new result }
{
    let course = capture.course;
    let stage = course.stage;
    match stage {
        Stage::Broken => Turn {
            capture,
            came: Came::Stuck,
        },
        Stage::Over => Turn {
            capture,
            came: Came::Ended(course.held % PACKET),
        },
        Stage::Last | Stage::More if course.at < feeding::whole_end(course.held) => {
            feeding::feed(capture, piece, records)
        }
        Stage::Last => end(look(capture, piece, pages)),
        Stage::More => read_on(source, look(capture, piece, pages), piece),
    }
}

// The piece is fed, and looked at.
fn look(capture: Capture, piece: &mut [u8], pages: &mut [u16]) -> Capture
    ensures value { result ≡ looked_capture capture piece.old }
    ensures piece_after { piece.new ≡ looked_piece capture.course piece.old }
    ensures pages_after { pages.new ≡ looked_pages capture.course piece.old pages.old }
{
    let mut course = capture.course;
    course.sight = sight::look(
        course.setting,
        course.verbose,
        course.sight,
        piece,
        course.held,
        pages,
    );
    Capture { course, ..capture }
}

// All was handed out.
fn end(capture: Capture) -> Turn
    ensures { result ≡ ended_turn capture }
{
    let course = staged(capture.course, Stage::Over);
    Turn {
        capture: Capture { course, ..capture },
        came: Came::Ended(course.held % PACKET),
    }
}

// The same course, at another stage.
pub(crate) fn staged(course: Course, stage: Stage) -> Course
    ensures { result ≡ courses_staged course stage }
{
    Course { stage, ..course }
}

// Another piece is read. One that isn't full is the last.
fn read_on<R: Read>(source: &mut Source<R>, capture: Capture, piece: &mut [u8]) -> Turn
    ensures { ReadOn capture (length piece.old) result }
{
    let full = piece.len();
    let got = reading::fill(source, piece);
    heed(capture, got, full)
}

fn heed(capture: Capture, got: Got, full: usize) -> Turn
    ensures { result ≡ read_turn capture got full }
{
    match got {
        Got::Failed => Turn {
            capture: Capture {
                course: staged(capture.course, Stage::Broken),
                ..capture
            },
            came: Came::Unread,
        },
        Got::Bytes(n) => {
            let course = Course {
                at: 0,
                held: n,
                stage: after(n, full),
                ..capture.course
            };
            Turn {
                capture: Capture { course, ..capture },
                came: Came::Records(0),
            }
        }
    }
}

// A piece that isn't full is the last.
fn after(n: usize, full: usize) -> Stage
    ensures { result ≡ stage_after n full }
{
    if n < full { Stage::Last } else { Stage::More }
}
