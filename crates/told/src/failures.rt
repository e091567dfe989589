// Why a call failed, as the C library's text of its error.
ghost use Rattle.std.specs.Prelude.{pos, ◌≡◌, ◌≤◌, length};
ghost use Rattle.std.specs.IoError.{raw_os_error};
ghost use Rattle.io.specs.Counts.{IsPrefixLen};

use std::io::{Error, Write};

// More than the longest text of an error, with the number that std puts behind it.
pub(crate) const LONGEST: usize = 256;

// What an error is where no call of the system failed, as a write that took nothing.
pub fn none() -> Error
    ensures { raw_os_error result ≡ Some (pos 0) }
{
    Error::from_raw_os_error(0)
}

// What an error is where a name is no text: std opens no such file.
pub fn not_text() -> Error
    ensures { raw_os_error result ≡ Some (pos 84) }
{
    Error::from_raw_os_error(EILSEQ)
}

// What an error is where a name is longer than any path.
pub fn too_long() -> Error
    ensures { raw_os_error result ≡ Some (pos 36) }
{
    Error::from_raw_os_error(ENAMETOOLONG)
}

const ENAMETOOLONG: i32 = 36;

const EILSEQ: i32 = 84;

// Puts the text of an error at the start of the bytes, and answers how long it is. What doesn't fit is left out.
pub(crate) fn put(error: Error, text: &mut [u8; LONGEST]) -> usize
    ensures { IsPrefixLen result text.new }
{
    let mut rest = &mut text[..];
    let _ = write!(rest, "{error}");
    let written = LONGEST.saturating_sub(rest.len());
    words(text, written, error.raw_os_error().is_some())
}

// How long the words of an error are among so many bytes: std puts ` (os error N)` behind those of the system.
fn words(text: &[u8], n: usize, is_of_system: bool) -> usize
    ensures { IsPrefixLen result text.now }
{
    if text.len() < n {
        return 0;
    }
    if !is_of_system {
        return n;
    }
    match text[..n].iter().rposition(|b| *b == b'(') {
        Some(at) if at > 0 => at - 1,
        _ => n,
    }
}
