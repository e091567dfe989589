// Runs cases of Application Information: op 34 reads it, op 35 writes it from its form; op 42 says whether the blocks of a list make a lawful
// broadcast. Each begins with the application.
#![tactic(auto)]

use answer::Answer;
use blocks::Taken;
use std::io::Print;
use vectors::{Case, Line, MOST, SPACE};

fn main(rt: HostRuntime) {
    let mut space = [0u8; SPACE];
    let mut out = [0u8; MOST];
    let mut text = [0u8; SPACE];
    let mut input = vectors::start();
    for _ in 0..u64::MAX {
        let Ok(case) = vectors::turn(&rt, input, &mut space, &mut text) else {
            return;
        };
        run(&rt, case, &space, &mut out, &mut text);
        input = case.rest;
    }
}

// A case: the call is lent as much output as it has room.
fn run(rt: &impl Print, case: Case, space: &[u8; SPACE], out: &mut [u8], text: &mut [u8; SPACE]) {
    let n = vectors::lend(out, case.room);
    let lent = &mut out[..n];
    let line = call(case.op, vectors::payload(case, space), lent);
    vectors::tell(rt, line, lent, text);
}

// The call that op names, and what is told of it.
fn call(op: u8, payload: &[u8], out: &mut [u8]) -> Line {
    match op {
        34 => read(op, payload, out),
        35 => write(op, payload, out),
        42 => judge(op, payload, out),
        _ => Line::Unknown(op),
    }
}

fn read(op: u8, payload: &[u8], out: &mut [u8]) -> Line {
    let [application, record @ ..] = payload else {
        return Line::Unknown(op);
    };
    match information::read_information(*application, record, out) {
        Ok(Taken { written, mended }) => Line::Counted {
            op,
            answer: Ok(written),
            mended,
            joined: blocks::second_of(record),
        },
        Err(why) => Line::Counted {
            op,
            answer: Err(why),
            mended: 0,
            joined: 0,
        },
    }
}

fn write(op: u8, payload: &[u8], out: &mut [u8]) -> Line {
    let [application, form @ ..] = payload else {
        return Line::Unknown(op);
    };
    Line::Answered {
        op,
        answer: information_writer::write_information(*application, form, out),
    }
}

fn judge(op: u8, payload: &[u8], out: &mut [u8]) -> Line {
    let [application, records @ ..] = payload else {
        return Line::Unknown(op);
    };
    Line::Answered {
        op,
        answer: broadcast::lawful(*application, records, out),
    }
}
