// A file by its name.
ghost use Rattle.std.specs.Prelude.{◌≡◌, IfOk};

use crate::failures;
use std::fs;
use std::io::Result;
use std::rt::Files;

// A path has fewer bytes than this.
const PATH: usize = 4096;

// A name as std takes it: only one that is UTF-8 names a file.
pub fn path(name: &[u8]) -> Result<&str>
    ensures { IfOk result (λ text. text.now ≡ name.now) }
{
    if name.len() >= PATH {
        return Err(failures::too_long());
    }
    std::str::from_utf8(name).map_err(|_| failures::not_text())
}

// Opens the file of a name for reading.
pub fn open<R: Files>(rt: &R, name: &[u8]) -> Result<R::File> {
    fs::open(rt, path(name)?)
}
