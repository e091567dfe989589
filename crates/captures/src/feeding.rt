// Packets of a piece go to the reader, and what it answers moves the capture on.
ghost use Rattle.std.specs.Prelude.{◌≡◌, ◌+◌, ◌^◌, ◌<◌};
ghost use Rattle.survey.specs.Counting.{more_if};
ghost use Rattle.captures.specs.Feeding.{whole_end, step_of, up_to, turn_of, fed_turn, fed_records, answered_by, out_by};
ghost use Rattle.captures.specs.Feeding.{heeded as feeding_heeded, moved_on, stuck as feeding_stuck};

use crate::{Came, Capture, Course, PIECE, Stage, Turn};
use packet::PACKET;
use packet::two::Streams;
use reader::two::Readers;
use reader::{Fed, HeardAll, Reader};

// The reader's answer, and its state then: one stream's or two's has gone on.
#[derive(Drop)]
pub(crate) struct Answered {
    heard: HeardAll,
    reader: Reader,
    readers: Readers,
}

// What the reader's answer makes of a course.
#[derive(Drop)]
pub(crate) struct Step {
    course: Course,
    came: Came,
}

// Feeds what is left of the piece, or one packet of it where drops are counted. The records that it finishes stand at the front of the space,
// and the capture stands behind the packets that were taken. Where the reader refuses, takes nothing, or says more than there is, the
// capture is broken.
pub(crate) fn feed(capture: Capture, piece: &[u8], records: &mut [u8]) -> Turn
    ensures value { result ≡ fed_turn capture piece.now records.old }
    ensures records_after { records.new ≡ fed_records capture piece.now records.old }
{
    let course = capture.course;
    let at = course.at;
    let end = up_to(course.verbose, at, course.held);
    if end <= at || piece.len() < end {
        return broken(capture);
    }
    let space = records.len();
    let Answered {
        heard,
        reader,
        readers,
    } = call(
        course.setting,
        capture.reader,
        capture.readers,
        &piece[at..end],
        records,
    );
    let Step { course, came } = heed(course, heard, end - at, space);
    Turn {
        capture: Capture {
            reader,
            readers,
            course,
        },
        came,
    }
}

// One call: of one stream's reader, or of two's.
fn call(
    setting: Streams,
    reader: Reader,
    readers: Readers,
    packets: &[u8],
    out: &mut [u8],
) -> Answered
    ensures value { result ≡ answered_by setting reader readers packets.now out.old }
    ensures out_after { out.new ≡ out_by setting reader readers packets.now out.old }
{
    if crate::is_one(setting) {
        let one = packet::two::first(setting);
        let Fed { heard, reader } = reader::feed_all(one, reader, packets, out);
        return Answered {
            heard,
            reader,
            readers,
        };
    }
    let Fed {
        heard,
        reader: readers,
    } = reader::two::feed_all(setting, readers, packets, out);
    Answered {
        heard,
        reader,
        readers,
    }
}

fn broken(capture: Capture) -> Turn
    ensures { result ≡ turn_of capture.reader capture.readers (feeding_stuck capture.course) }
{
    let Step { course, came } = stuck(capture.course);
    Turn {
        capture: Capture { course, ..capture },
        came,
    }
}

// Where the packets of one call end, from a place on in a piece of so many bytes.
#[tactic(auto, unfolding(crate::specs::Feeding::up_to))]
fn up_to(verbose: bool, at: usize, held: usize) -> usize
    ensures { result ≡ up_to verbose at held }
{
    let end = whole_end(held);
    let step = step_of(verbose);
    if end.saturating_sub(at) <= step {
        end
    } else {
        at + step
    }
}

// Where the whole packets among so many bytes end.
pub(crate) fn whole_end(held: usize) -> usize
    ensures { result ≡ whole_end held }
{
    held - held % PACKET
}

// How many bytes of packets the reader gets in one call at most.
fn step_of(verbose: bool) -> usize
    ensures { result ≡ step_of verbose }
{
    if verbose { PACKET } else { PIECE }
}

// The reader's answer, where it was given so many bytes of packets and so much space.
fn heed(course: Course, heard: HeardAll, given: usize, space: usize) -> Step
    requires { course.at + given < 2 ^ 64 }
    ensures { result ≡ feeding_heeded course heard given space }
{
    match heard {
        Ok(t) if t.packets >= 1 && t.packets <= given / PACKET && t.written <= space => {
            moved_on(course, PACKET * t.packets, t.written, t.dropped)
        }
        _ => stuck(course),
    }
}

fn moved_on(course: Course, taken: usize, written: usize, dropped: bool) -> Step
    requires { course.at + taken < 2 ^ 64 }
    ensures { result ≡ moved_on course taken written dropped }
{
    let mut course = course;
    course.at += taken;
    course.dropped = more_if(dropped, course.dropped);
    Step {
        course,
        came: Came::Records(written),
    }
}

// Nothing goes on from here.
fn stuck(course: Course) -> Step
    ensures { result ≡ feeding_stuck course }
{
    Step {
        course: crate::staged(course, Stage::Broken),
        came: Came::Stuck,
    }
}

// One more where the test holds, up to the greatest number that a count can hold.
fn more_if(holds: bool, count: u64) -> u64
    ensures { result ≡ more_if holds count }
{
    if holds {
        count.saturating_add(1)
    } else {
        count
    }
}
