// What a file is: plain or not, and who may do what with it.
use std::fs;
use std::fs::OpenFile;
use std::io::Result;
use std::os::unix::fs::MetadataExt;
use std::rt::Files;

// The most bytes of a path, with the 0 that ends it.
pub(crate) const PATH: usize = 4096;

// Opens a plain file for reading; none where the file is no plain one. What it is is asked before, since to open a pipe waits for its other end, and of
// what was opened once more.
pub fn open_plain<R: Files>(rt: &R, path: &[u8]) -> Result<Option<R::File>> {
    if path.len() < PATH && !is_plain(at(rt, path)?) {
        return Ok(None);
    }
    let file = told::open(rt, path)?;
    if is_plain(of(&file)) {
        Ok(Some(file))
    } else {
        Ok(None)
    }
}

// The mode of the file at a path.
fn at(rt: &impl Files, path: &[u8]) -> Result<u32> {
    let found = fs::metadata(rt, told::path(path)?)?;
    Ok(found.mode())
}

// The mode of an open file; 0 where it can't be had.
pub(crate) fn of(file: &impl OpenFile) -> u32 {
    match file.metadata() {
        Ok(found) => found.mode(),
        Err(_) => 0,
    }
}

// Whether a mode is that of a plain file.
fn is_plain(mode: u32) -> bool {
    mode / 4096 % 16 == 8
}

// Who may read a file, change it and start it.
pub(crate) fn rights(mode: u32) -> u32 {
    mode % 4096
}
