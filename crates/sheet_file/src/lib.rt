// The day sheet's file: what stands at its path is read, and another takes its place whole or not at all (SCOPE 20.16). `paths` finds where it is,
// `modes` what it is, `placing` puts the new one there. What the file says is none of this room's.
//
// What fails is told, in the name of the program that keeps the sheet, where it fails.
#![tactic(auto)]

pub mod modes;
pub mod paths;
pub mod placing;
pub mod says;

use captures::{Got, Source};
use std::fs::OpenFile;
use std::io::{Error, ErrorKind, Read, Result};
use std::rt::Files;
use told::Console;

// What stands in the sheet's place: the mode of the file, or why there is none, and how many bytes were read of it.
#[derive(Clone, Copy)]
pub struct Stand {
    pub mode: Result<u32>,
    pub length: usize,
}

// Reads what stands at the sheet's path. What can't be read, or is no plain file, is told, and nothing answered.
pub fn read(
    rt: &(impl Files + Console),
    path: &[u8],
    shown: &[u8],
    sheet: &mut [u8],
) -> Option<Stand> {
    match modes::open_plain(rt, path) {
        Ok(Some(file)) => fill(rt, file, shown, sheet),
        Ok(None) => {
            says::tell(rt, shown, b"it is no plain file, and stays as it was");
            None
        }
        Err(why) if is_none(path, why) => Some(Stand {
            mode: Err(why),
            length: 0,
        }),
        Err(why) => {
            says::fail(rt, shown, b"it can't be opened, and stays as it was", why);
            None
        }
    }
}

// Whether an open failed because there is no such file. An empty name is none's.
fn is_none(path: &[u8], why: Error) -> bool {
    !path.is_empty() && why.kind() == ErrorKind::NotFound
}

fn fill<F: Read + OpenFile + Drop>(
    rt: &impl Console,
    file: F,
    shown: &[u8],
    sheet: &mut [u8],
) -> Option<Stand> {
    let mode = modes::of(&file);
    let mut source = Source::new(file);
    let got = captures::fill(&mut source, sheet);
    let Got::Bytes(length) = got else {
        says::fail(
            rt,
            shown,
            b"it can't be read, and stays as it was",
            source.why,
        );
        return None;
    };
    Some(Stand {
        mode: Ok(mode),
        length,
    })
}
