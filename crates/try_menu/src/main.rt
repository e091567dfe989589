// Runs cases of menus: op 32 reads one, op 33 writes one from its form, op 41 lists one of a number. All begin with the application.
#![tactic(auto)]

use answer::Answer;
use blocks::Taken;
use std::io::Print;
use vectors::{Case, Line, MOST, SPACE};

fn main(rt: HostRuntime) {
    let mut space = [0u8; SPACE];
    let mut out = [0u8; MOST];
    let mut text = [0u8; SPACE];
    let mut input = vectors::start();
    for _ in 0..u64::MAX {
        let Ok(case) = vectors::turn(&rt, input, &mut space, &mut text) else {
            return;
        };
        run(&rt, case, &space, &mut out, &mut text);
        input = case.rest;
    }
}

// A case: the call is lent as much output as it has room.
fn run(rt: &impl Print, case: Case, space: &[u8; SPACE], out: &mut [u8], text: &mut [u8; SPACE]) {
    let n = vectors::lend(out, case.room);
    let lent = &mut out[..n];
    let line = call(case.op, vectors::payload(case, space), lent);
    vectors::tell(rt, line, lent, text);
}

// The call that op names, and what is told of it.
fn call(op: u8, payload: &[u8], out: &mut [u8]) -> Line {
    match op {
        32 => read(op, payload, out),
        33 => write(op, payload, out),
        41 => list(op, payload, out),
        _ => Line::Unknown(op),
    }
}

fn read(op: u8, payload: &[u8], out: &mut [u8]) -> Line {
    let [application, record @ ..] = payload else {
        return Line::Unknown(op);
    };
    match menu_reader::read_menu(*application, record, out) {
        Ok(Taken { written, mended }) => Line::Counted {
            op,
            answer: Ok(written),
            mended,
            joined: blocks::second_of(record),
        },
        Err(why) => Line::Counted {
            op,
            answer: Err(why),
            mended: 0,
            joined: 0,
        },
    }
}

fn write(op: u8, payload: &[u8], out: &mut [u8]) -> Line {
    let [application, form @ ..] = payload else {
        return Line::Unknown(op);
    };
    Line::Answered {
        op,
        answer: menu_writer::write_menu(*application, form, out),
    }
}

fn list(op: u8, payload: &[u8], out: &mut [u8]) -> Line {
    let [application, low, high, records @ ..] = payload else {
        return Line::Unknown(op);
    };
    let number = u16::from_le_bytes([*low, *high]);
    Line::Answered {
        op,
        answer: menu_listing::list_menu(*application, number, records, out),
    }
}
