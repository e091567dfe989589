// One capture: its bytes are read in large pieces, and what its PES packets carry goes out. Counts and places that a
// room hands back are held against the space that they count in, so that no proof here has to know the room's
// definitions; one that doesn't fit never comes.
use crate::help::PROGRAM;
use packet::PACKET;
use pes::HEAD;
use std::io::{Error, Read};
use stripped::Stripped;
use told::Console;

// More than the longest PES packet, and than the packets that it carries.
const LONGEST: usize = 65536;

// While more may come, at least LONGEST bytes are held.
const SPACE: usize = 131072;

// How many PES packets were read, and how many refused; how many bytes were left over; whether a capture has begun,
// and whether standard output took all so far.
#[derive(Clone, Copy)]
pub struct Tally {
    pub read: u64,
    pub refused: u64,
    pub left: u64,
    pub begun: bool,
    pub sound: bool,
}

// What is held of the input: the bytes from `at` up to `end` of the space, whether more may come, and whether a
// packet went out already for the bytes that are being passed over.
#[derive(Clone, Copy)]
struct Held {
    at: usize,
    end: usize,
    more: bool,
    passing: bool,
}

// After one turn: what is held, the counts, and whether there is another turn.
#[derive(Clone, Copy)]
struct Turn {
    held: Held,
    tally: Tally,
    on: bool,
}

// What was read: the place up to which bytes now stand, and why no more came where a read failed.
#[derive(Clone, Copy)]
struct Got {
    upto: usize,
    failed: Option<Error>,
}

pub fn none() -> Tally {
    Tally {
        read: 0,
        refused: 0,
        left: 0,
        begun: false,
        sound: true,
    }
}

// What the PES packets from a reader carry goes out. A read that fails is told with the name, and ends the capture.
pub fn unpack<F: Read>(
    rt: &impl Console,
    from: &mut F,
    name: &[u8],
    tally: Tally,
    seen: &mut [bool; 17],
) -> Tally {
    let mut space = [0u8; SPACE];
    let mut packets = [0u8; LONGEST];
    let mut tally = begin(rt, tally, &mut packets);
    if !tally.sound {
        return tally;
    }
    let mut held = Held {
        at: 0,
        end: 0,
        more: true,
        passing: false,
    };
    for _ in 0..u64::MAX {
        held = refill(rt, from, name, held, &mut space);
        let turn = step(rt, held, tally, &space, &mut packets, seen);
        held = turn.held;
        tally = turn.tally;
        if !turn.on {
            return tally;
        }
    }
    tally
}

// Between two captures goes a packet that can't be decoded: a block of the first may not go on in the second.
fn begin(rt: &impl Console, tally: Tally, packets: &mut [u8; LONGEST]) -> Tally {
    if tally.begun {
        return lose(rt, tally, packets);
    }
    Tally {
        begun: true,
        ..tally
    }
}

// Where fewer bytes are held than a packet may have and more may come, those that are held go to the front of the
// space, and it is filled up.
fn refill<F: Read>(
    rt: &impl Console,
    from: &mut F,
    name: &[u8],
    held: Held,
    space: &mut [u8; SPACE],
) -> Held {
    if !held.more || LONGEST <= held.end.saturating_sub(held.at) {
        return held;
    }
    let kept = shift(space, held.at, held.end);
    let got = fill(from, space, kept);
    if let Some(why) = got.failed {
        told::tell(rt, &PROGRAM, name, why);
    }
    Held {
        at: 0,
        end: got.upto,
        more: got.failed.is_none() && got.upto == SPACE,
        ..held
    }
}

// Moves the bytes from `at` up to `end` to the front, and answers how many there are.
fn shift(space: &mut [u8], at: usize, end: usize) -> usize {
    if space.len() < end || end < at {
        return 0;
    }
    space.copy_within(at..end, 0);
    end - at
}

// Reads into the slice from a place on, until it is full, the input ends or a read fails.
fn fill<F: Read>(from: &mut F, slice: &mut [u8], at: usize) -> Got {
    let mut n = at;
    // Kept: a `while`, since a turn goes on by as many bytes as a read gave.
    while n < slice.len() {
        match from.read(&mut slice[n..]) {
            Ok(0) => break,
            Ok(more) => n += more,
            Err(why) => {
                return Got {
                    upto: n,
                    failed: Some(why),
                };
            }
        }
    }
    Got {
        upto: n,
        failed: None,
    }
}

// One turn: the PES packet that begins at the front of what is held, or the bytes up to where one begins.
fn step(
    rt: &impl Console,
    held: Held,
    tally: Tally,
    space: &[u8; SPACE],
    packets: &mut [u8; LONGEST],
    seen: &mut [bool; 17],
) -> Turn {
    let bytes = part(space, held.at, held.end);
    match pes::find(bytes, 0) {
        Some(0) => packet(rt, held, tally, bytes, packets, seen),
        Some(place) => pass(rt, held, tally, place, packets),
        None => nowhere(rt, held, tally, bytes.len(), packets),
    }
}

// The bytes from `at` up to `end`; nothing where they don't lie within.
fn part(s: &[u8], at: usize, end: usize) -> &[u8] {
    if s.len() < end || end < at {
        return &s[..0];
    }
    &s[at..end]
}

// A PES packet begins here. One that the end of the input cuts short is a loss, and ends the capture.
fn packet(
    rt: &impl Console,
    held: Held,
    tally: Tally,
    bytes: &[u8],
    packets: &mut [u8; LONGEST],
    seen: &mut [bool; 17],
) -> Turn {
    let size = size_of(bytes);
    if bytes.len() < size {
        let tally = lose(rt, tally, packets);
        return end(held, left(tally, bytes.len()));
    }
    let tally = strip_on(rt, tally, told::front(bytes, size), packets, seen);
    Turn {
        held: onward(held, size, false),
        on: tally.sound,
        tally,
    }
}

// How long the PES packet is that begins here, by its length field.
fn size_of(bytes: &[u8]) -> usize {
    if bytes.len() < HEAD {
        return HEAD;
    }
    HEAD + usize::from(bytes[4]) * 256 + usize::from(bytes[5])
}

// What a PES packet carries goes out, or the packet that stands for it.
fn strip_on(
    rt: &impl Console,
    tally: Tally,
    pes: &[u8],
    packets: &mut [u8; LONGEST],
    seen: &mut [bool; 17],
) -> Tally {
    match stripped::strip(pes, packets) {
        Stripped::Packets(n) => Tally {
            read: tally.read.saturating_add(1),
            begun: true,
            sound: send(rt, tally.sound, told::front(packets, n)),
            ..tally
        },
        Stripped::Lost(r) | Stripped::Refused(r) => refuse(rt, tally, r.no, packets, seen),
    }
}

// Counts a refused PES packet by its number, and the packet that stands for it goes out.
fn refuse(
    rt: &impl Console,
    tally: Tally,
    no: u8,
    packets: &mut [u8; LONGEST],
    seen: &mut [bool; 17],
) -> Tally {
    if let Some(mark) = seen.get_mut(usize::from(no)) {
        *mark = true;
    }
    let tally = lose(rt, tally, packets);
    Tally {
        refused: tally.refused.saturating_add(1),
        ..tally
    }
}

// No PES packet begins before a place: those bytes are passed over.
fn pass(
    rt: &impl Console,
    held: Held,
    tally: Tally,
    place: usize,
    packets: &mut [u8; LONGEST],
) -> Turn {
    let tally = note(rt, held, tally, packets);
    Turn {
        held: onward(held, place, true),
        on: tally.sound,
        tally: left(tally, place),
    }
}

// No PES packet begins in n bytes. Their last ones are kept while more may come, since one may begin there.
fn nowhere(
    rt: &impl Console,
    held: Held,
    tally: Tally,
    n: usize,
    packets: &mut [u8; LONGEST],
) -> Turn {
    if n == 0 {
        return end(held, tally);
    }
    if held.more && HEAD <= n {
        return pass(rt, held, tally, n - (HEAD - 1), packets);
    }
    let tally = note(rt, held, tally, packets);
    end(held, left(tally, n))
}

// For bytes that are passed over goes one packet that can't be decoded, however many they are.
fn note(rt: &impl Console, held: Held, tally: Tally, packets: &mut [u8; LONGEST]) -> Tally {
    if held.passing {
        return tally;
    }
    lose(rt, tally, packets)
}

fn end(held: Held, tally: Tally) -> Turn {
    Turn {
        held,
        tally,
        on: false,
    }
}

// What is held from n bytes further on.
fn onward(held: Held, n: usize, is_passing: bool) -> Held {
    Held {
        at: held.at.saturating_add(n).min(held.end),
        passing: is_passing,
        ..held
    }
}

// One packet that can't be decoded goes out.
fn lose(rt: &impl Console, tally: Tally, packets: &mut [u8; LONGEST]) -> Tally {
    stripped::blank(packets);
    Tally {
        begun: true,
        sound: send(rt, tally.sound, told::front(packets, PACKET)),
        ..tally
    }
}

fn left(tally: Tally, n: usize) -> Tally {
    Tally {
        left: tally.left.saturating_add(n as u64),
        ..tally
    }
}

// Writes to standard output where it took all so far, and answers whether it still did. A failure is told, and nothing
// goes out after it, though a later write might succeed: what is missing between the two is what nobody could see.
fn send(rt: &impl Console, is_sound: bool, bytes: &[u8]) -> bool {
    is_sound && told::put(rt, &PROGRAM, bytes)
}

// Says the last line. A part that isn't taken ends it.
pub fn sum_up(rt: &impl Console, tally: Tally, seen: &[bool; 17]) -> bool {
    told::say_count(rt, b"read=", tally.read)
        && told::say_count(rt, b" refused=", tally.refused)
        && told::say(rt, b" numbers=")
        && say_numbers(rt, seen)
        && told::say_count(rt, b" left=", tally.left)
        && told::say(rt, b"\n")
}

// The numbers that are marked, with commas between.
fn say_numbers(rt: &impl Console, seen: &[bool]) -> bool {
    let mut is_first = true;
    for (number, mark) in seen.iter().enumerate() {
        if *mark {
            if !say_number(rt, number as u64, is_first) {
                return false;
            }
            is_first = false;
        }
    }
    true
}

fn say_number(rt: &impl Console, number: u64, is_first: bool) -> bool {
    if is_first {
        return told::say_number(rt, number);
    }
    told::say_count(rt, b",", number)
}
