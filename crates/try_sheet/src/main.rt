// Runs cases of day sheets: op 50 writes one again, op 51 adds a table to one, op 52 joins two, op 53 compares two, op 56 drops an
// entry, each of the old form; ops 60 to 63 and 66 do the same in the new one. Op 54 moves one of the old form to the new one, op 55 back.
#![tactic(auto)]

ghost use Rattle.std.specs.Prelude.{◌≤◌, ◌<◌, length, IfSome};

use sheet_entry::Form;
use std::io::Print;
use vectors::{Case, Line, MOST, SPACE};

fn main(rt: HostRuntime) {
    let mut space = [0u8; SPACE];
    let mut out = [0u8; MOST];
    let mut text = [0u8; SPACE];
    let mut input = vectors::start();
    for _ in 0..u64::MAX {
        let Ok(case) = vectors::turn(&rt, input, &mut space, &mut text) else {
            return;
        };
        run(&rt, case, &space, &mut out, &mut text);
        input = case.rest;
    }
}

// A case: the call is lent as much output as it has room.
fn run(rt: &impl Print, case: Case, space: &[u8; SPACE], out: &mut [u8], text: &mut [u8; SPACE]) {
    let n = vectors::lend(out, case.room);
    let lent = &mut out[..n];
    let line = call(case.op, vectors::payload(case, space), lent);
    vectors::tell(rt, line, lent, text);
}

// The call that op names, and what is told of it.
fn call(op: u8, payload: &[u8], out: &mut [u8]) -> Line {
    match op {
        50 => rewrite(op, Form::Old, payload, out),
        51 => add(op, payload, out),
        52 => join(op, Form::Old, payload, out),
        53 => compare(op, Form::Old, payload, out),
        54 => up(op, payload, out),
        55 => down(op, payload, out),
        56 => drop(op, Form::Old, payload, out),
        60 => rewrite(op, Form::New, payload, out),
        61 => add_counted(op, payload, out),
        62 => join(op, Form::New, payload, out),
        63 => compare(op, Form::New, payload, out),
        66 => drop(op, Form::New, payload, out),
        _ => Line::Unknown(op),
    }
}

fn rewrite(op: u8, form: Form, payload: &[u8], out: &mut [u8]) -> Line {
    Line::Answered {
        op,
        answer: day_sheet::rewrite(form, payload, out),
    }
}

fn up(op: u8, payload: &[u8], out: &mut [u8]) -> Line {
    Line::Answered {
        op,
        answer: sheet_moves::up(payload, out),
    }
}

fn down(op: u8, payload: &[u8], out: &mut [u8]) -> Line {
    Line::Answered {
        op,
        answer: sheet_moves::down(payload, out),
    }
}

// A stamp, the length of a sheet, the sheet, and a table form.
fn add(op: u8, payload: &[u8], out: &mut [u8]) -> Line {
    let Some((sheet, table)) = parted(payload, 4, 0) else {
        return Line::Unknown(op);
    };
    let stamp = number_at(payload, 0) as u32;
    Line::Answered {
        op,
        answer: sheet_joins::add(Form::Old, stamp, 0, sheet, table, out),
    }
}

// The same, with the table's count before its form.
fn add_counted(op: u8, payload: &[u8], out: &mut [u8]) -> Line {
    let Some((sheet, rest)) = parted(payload, 4, 2) else {
        return Line::Unknown(op);
    };
    let stamp = number_at(payload, 0) as u32;
    let count = (lent_bytes::byte_at(rest, 0) + 256 * lent_bytes::byte_at(rest, 1)) as u16;
    Line::Answered {
        op,
        answer: sheet_joins::add(Form::New, stamp, count, sheet, &rest[2..], out),
    }
}

// The length of the first sheet, it, and the second.
fn join(op: u8, form: Form, payload: &[u8], out: &mut [u8]) -> Line {
    let Some((first, second)) = parted(payload, 0, 0) else {
        return Line::Unknown(op);
    };
    Line::Answered {
        op,
        answer: sheet_joins::join(form, first, second, out),
    }
}

// The same; the sheet at fault is told, too.
fn compare(op: u8, form: Form, payload: &[u8], out: &mut [u8]) -> Line {
    let Some((first, second)) = parted(payload, 0, 0) else {
        return Line::Unknown(op);
    };
    let found = changes::compare(form, first, second, out);
    Line::Compared {
        op,
        answer: found.answer,
        sheet: found.sheet,
    }
}

// What stands behind a number at a place, as many bytes as it says, and what stands behind these, which is at least so long; where there is so much.
fn parted(payload: &[u8], at: usize, least: usize) -> Option<(&[u8], &[u8])>
    requires { (at ≤ 4) × (least ≤ 2) }
    ensures { IfSome result (λ p. least ≤ length (p.1).now) }
{
    let begin = at + 4;
    if payload.len() < begin + least {
        return None;
    }
    let long = number_at(payload, at);
    if payload.len() - begin - least < long {
        return None;
    }
    let end = begin + long;
    Some((&payload[begin..end], &payload[end..]))
}

// A network, a kind, the number of a block, and a sheet.
fn drop(op: u8, form: Form, payload: &[u8], out: &mut [u8]) -> Line {
    if payload.len() < 4 {
        return Line::Unknown(op);
    }
    let network = payload[0];
    let kind = payload[1];
    let block = (lent_bytes::byte_at(payload, 2) + 256 * lent_bytes::byte_at(payload, 3)) as u16;
    Line::Answered {
        op,
        answer: day_sheet::drop(form, network, kind, block, &payload[4..], out),
    }
}

// A number of four bytes, low byte first.
fn number_at(s: &[u8], i: usize) -> usize
    requires { i ≤ 4 }
    ensures { result < 4294967296 }
{
    let low = lent_bytes::byte_at(s, i) + 256 * lent_bytes::byte_at(s, i + 1);
    let high = lent_bytes::byte_at(s, i + 2) + 256 * lent_bytes::byte_at(s, i + 3);
    low + 65536 * high
}
