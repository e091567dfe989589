// Runs cases of one byte: op 1 decodes it, 2 gives its image, 3 turns it, 4 finds its fault place, 5 says how
// it was heard.
#![tactic(auto)]

use octet::Heard;
use std::io::Print;
use vectors::{Case, Line, SPACE};

fn main(rt: HostRuntime) {
    let mut space = [0u8; SPACE];
    let mut text = [0u8; SPACE];
    let mut input = vectors::start();
    for _ in 0..u64::MAX {
        let Ok(case) = vectors::turn(&rt, input, &mut space, &mut text) else {
            return;
        };
        call(&rt, case, &space, &mut text);
        input = case.rest;
    }
}

// The call that op names. These calls give a byte or two, and are lent no output.
fn call(rt: &impl Print, case: Case, space: &[u8; SPACE], text: &mut [u8; SPACE]) {
    let op = case.op;
    let Some(&b) = vectors::payload(case, space).first() else {
        vectors::tell(rt, Line::Unknown(op), &[], text);
        return;
    };
    match op {
        1 => show(rt, op, &[octet::decode(b)], text),
        2 => show(rt, op, &[octet::image(b)], text),
        3 => show(rt, op, &[octet::turn(b)], text),
        4 => show(rt, op, &[octet::fault_place(b)], text),
        5 => show(rt, op, &heard(octet::hear(b)), text),
        _ => {
            vectors::tell(rt, Line::Unknown(op), &[], text);
        }
    }
}

// The nibble, and 1 where it was mended.
fn heard(heard: Heard) -> [u8; 2] {
    match heard {
        Heard::Image(n) => [n, 0],
        Heard::Mended(n) => [n, 1],
        Heard::Neither => [16, 0],
    }
}

fn show(rt: &impl Print, op: u8, out: &[u8], text: &mut [u8]) {
    let answer = Ok(out.len());
    vectors::tell(rt, Line::Answered { op, answer }, out, text);
}
