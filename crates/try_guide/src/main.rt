// Runs cases of the guide page's packets: op 20 takes a setting and a fresh reader, op 21 feeds it one
// packet, op 22 cuts records into packets, op 23 takes the better of two packets; op 24 takes a setting of two streams and
// a fresh reader of two, op 25 feeds it one packet.
#![tactic(auto)]

use answer::Reason;
use packet::Setting;
use packet::two::Streams;
use reader::two::Readers;
use reader::{Heard, Reader};
use std::io::Print;
use vectors::{Case, Line, MOST, SPACE};

// What op 20 leaves for the ops 21 that follow, and op 24 for the ops 25.
#[derive(Drop)]
struct Kept {
    setting: Setting,
    reader: Reader,
    streams: Streams,
    readers: Readers,
}

fn main(rt: HostRuntime) {
    let mut space = [0u8; SPACE];
    let mut out = [0u8; MOST];
    let mut text = [0u8; SPACE];
    let mut input = vectors::start();
    let mut kept = none();
    for _ in 0..u64::MAX {
        let Ok(case) = vectors::turn(&rt, input, &mut space, &mut text) else {
            return;
        };
        run(&rt, case, &mut kept, &space, &mut out, &mut text);
        input = case.rest;
    }
}

// Before the first op 20 and 24: settings that are out of range.
fn none() -> Kept {
    Kept {
        setting: Setting {
            magazine: 0,
            page: 0,
            stream: 0,
            application: 0,
        },
        reader: reader::fresh(),
        streams: Streams {
            magazine: 0,
            page: 0,
            first: 0,
            second: 0,
            application: 0,
        },
        readers: reader::two::fresh(),
    }
}

// A case: the call is lent as much output as it has room. Op 23 is lent none: what it answers is a part of the payload.
fn run(
    rt: &impl Print,
    case: Case,
    kept: &mut Kept,
    space: &[u8; SPACE],
    out: &mut [u8],
    text: &mut [u8; SPACE],
) {
    let payload = vectors::payload(case, space);
    let n = vectors::lend(out, case.room);
    let lent = &mut out[..n];
    if case.op == 23 {
        choose(rt, payload, text);
        return;
    }
    let line = call(case.op, payload, kept, lent);
    vectors::tell(rt, line, lent, text);
}

// The call that op names, and what is told of it.
fn call(op: u8, payload: &[u8], kept: &mut Kept, out: &mut [u8]) -> Line {
    match op {
        20 => begin(payload, kept),
        21 => feed(payload, kept, out),
        22 => cut(payload, out),
        24 => begin_two(payload, kept),
        25 => feed_two(payload, kept, out),
        _ => Line::Unknown(op),
    }
}

// Op 23: two packets, the first half of the payload and the rest. An empty part is number 16.
fn choose(rt: &impl Print, payload: &[u8], text: &mut [u8]) {
    let half = payload.len() / 2;
    let part = aerials::better(&payload[..half], &payload[half..]);
    let answer = if part.is_empty() {
        Reason::Range.refuse(0)
    } else {
        Ok(part.len())
    };
    vectors::tell(rt, Line::Answered { op: 23, answer }, part, text);
}

// Op 20: magazine, page, stream, application.
fn begin(payload: &[u8], kept: &mut Kept) -> Line {
    if payload.len() < 4 {
        return Line::Unknown(20);
    }
    kept.setting = Setting {
        magazine: payload[0],
        page: payload[1],
        stream: payload[2],
        application: payload[3],
    };
    kept.reader = reader::fresh();
    Line::Answered {
        op: 20,
        answer: Ok(0),
    }
}

// Op 21: the bytes of one packet.
fn feed(payload: &[u8], kept: &mut Kept, out: &mut [u8]) -> Line {
    let fed = reader::feed(kept.setting, kept.reader, payload, out);
    kept.reader = fed.reader;
    told(21, fed.heard)
}

// Op 24: magazine, page, the two streams, application.
fn begin_two(payload: &[u8], kept: &mut Kept) -> Line {
    if payload.len() < 5 {
        return Line::Unknown(24);
    }
    kept.streams = Streams {
        magazine: payload[0],
        page: payload[1],
        first: payload[2],
        second: payload[3],
        application: payload[4],
    };
    kept.readers = reader::two::fresh();
    Line::Answered {
        op: 24,
        answer: Ok(0),
    }
}

// Op 25: the bytes of one packet.
fn feed_two(payload: &[u8], kept: &mut Kept, out: &mut [u8]) -> Line {
    let fed = reader::two::feed(kept.streams, kept.readers, payload, out);
    kept.readers = fed.reader;
    told(25, fed.heard)
}

// What is told of a packet that was fed.
fn told(op: u8, heard: Heard) -> Line {
    match heard {
        Ok(t) => Line::Fed {
            op,
            answer: Ok(t.written),
            blocks: t.blocks,
            dropped: t.dropped,
        },
        Err(r) => Line::Fed {
            op,
            answer: Err(r),
            blocks: 0,
            dropped: false,
        },
    }
}

// Op 22: magazine, page, stream, first index, packets a page (0: none named), then records.
fn cut(payload: &[u8], out: &mut [u8]) -> Line {
    if payload.len() < 5 {
        return Line::Unknown(22);
    }
    let s = Setting {
        magazine: payload[0],
        page: payload[1],
        stream: payload[2],
        application: 0,
    };
    let index = payload[3];
    let records = &payload[5..];
    let answer = match payload[4] {
        0 => writer::cut(s, index, records, out),
        k => writer::cut_pages(s, index, k, records, out),
    };
    Line::Answered { op: 22, answer }
}
