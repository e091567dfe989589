// Runs cases of PES packets: op 10 reads one, op 11 writes one from a data_identifier and records.
#![tactic(auto)]

use std::io::Print;
use vectors::{Case, Line, MOST, SPACE};

fn main(rt: HostRuntime) {
    let mut space = [0u8; SPACE];
    let mut out = [0u8; MOST];
    let mut text = [0u8; SPACE];
    let mut input = vectors::start();
    for _ in 0..u64::MAX {
        let Ok(case) = vectors::turn(&rt, input, &mut space, &mut text) else {
            return;
        };
        run(&rt, case, &space, &mut out, &mut text);
        input = case.rest;
    }
}

// A case: the call is lent as much output as it has room.
fn run(rt: &impl Print, case: Case, space: &[u8; SPACE], out: &mut [u8], text: &mut [u8; SPACE]) {
    let n = vectors::lend(out, case.room);
    let lent = &mut out[..n];
    let line = call(case.op, vectors::payload(case, space), lent);
    vectors::tell(rt, line, lent, text);
}

// The call that op names, and what is told of it.
fn call(op: u8, payload: &[u8], out: &mut [u8]) -> Line {
    match op {
        10 => Line::Answered {
            op,
            answer: pes::read(payload, out),
        },
        11 => write(op, payload, out),
        _ => Line::Unknown(op),
    }
}

fn write(op: u8, payload: &[u8], out: &mut [u8]) -> Line {
    if payload.len() < 1 {
        return Line::Unknown(op);
    }
    Line::Answered {
        op,
        answer: pes_writer::write(payload[0], &payload[1..], out),
    }
}
