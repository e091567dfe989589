// Where the sheet's file is: links are followed to it, and the temporary file is made beside it (SCOPE 20.16).
ghost use Rattle.std.specs.Prelude.{◌≤◌, length};

use crate::modes::PATH;
use std::fs;
use std::fs::{OpenFile, OpenOptions};
use std::io::{ErrorKind, Result};
use std::random::RandomSource;
use std::rt::Files;
use told::failures;

// So many links are followed.
const LINKS: usize = 40;

// What a temporary file's name has more than the sheet's: a point and six characters.
const MORE: usize = 7;

// The most bytes of a file's name on the file systems that are in use.
const NAME: usize = 255;

// How often a temporary file's name is tried that is taken.
const TRIES: usize = 100;

// Where a name leads to: how long the path is, and whether it leads through a link.
#[derive(Clone, Copy)]
pub struct Way {
    pub length: usize,
    pub linked: bool,
}

// Puts the path that the first n bytes lead to in their place; none where it leads through too many links. Each link counts from its own folder.
// One that can't be followed is the error: no memory is left, or what it says isn't UTF-8, and std takes no such path.
pub fn follow(rt: &(impl Files + Alloc), path: &mut [u8], n: usize) -> Result<Option<Way>> {
    let mut way = Way {
        length: n,
        linked: false,
    };
    for _ in 0..=LINKS {
        let Some(length) = go(rt, path, way.length)? else {
            return Ok(Some(way));
        };
        way = Way {
            length,
            linked: true,
        };
    }
    Ok(None)
}

// Puts what a link says in the place of its own name, and answers how long the path is then; none where the path is no link.
fn go(rt: &(impl Files + Alloc), path: &mut [u8], n: usize) -> Result<Option<usize>> {
    if PATH <= n {
        return Ok(None);
    }
    let Ok(name) = told::path(told::front(path, n)) else {
        return Ok(None);
    };
    match fs::read_link(rt, name) {
        Ok(target) => Ok(go_on(path, n, target.as_str().as_bytes())),
        // what is no link, or can't be asked
        Err(e) if e.raw_os_error().is_some() => Ok(None),
        Err(e) => Err(e),
    }
}

// What a link says begins behind the folder of the link, or at the root.
fn go_on(path: &mut [u8], n: usize, target: &[u8]) -> Option<usize> {
    let at = if *target.first()? == b'/' {
        0
    } else {
        name_at(told::front(path, n))
    };
    lent_bytes::copy(target, 0, target.len(), path, at);
    Some(at.saturating_add(target.len()))
}

// Where the last name of a path begins: behind its last stroke.
fn name_at(path: &[u8]) -> usize
    ensures { result ≤ length path.now }
{
    match path.iter().rposition(|b| *b == b'/') {
        Some(at) => at + 1,
        None => 0,
    }
}

// Opens the folder of a path for reading.
fn open_folder<R: Files>(rt: &R, path: &[u8]) -> Result<R::File> {
    let at = name_at(path);
    told::open(rt, if at == 0 { b"." } else { &path[..at] })
}

// Whether a temporary file's name beside the path is short enough.
pub fn has_room(path: &[u8]) -> bool {
    temp_length(path.len()) < PATH && temp_length(path.len() - name_at(path)) <= NAME
}

// Makes a new file beside the path that stands in the first n bytes, under a name of our own, open for writing. Behind the path stands what
// its name has more.
pub(crate) fn create_beside<R: Files + RandomSource>(
    rt: &R,
    temp: &mut [u8],
    n: usize,
) -> Result<R::File> {
    let mut why = failures::none();
    for _ in 0..TRIES {
        match create(rt, temp, n) {
            Err(e) if e.kind() == ErrorKind::AlreadyExists => why = e,
            made => return made,
        }
    }
    Err(why)
}

fn create<R: Files + RandomSource>(rt: &R, temp: &mut [u8], n: usize) -> Result<R::File> {
    let mut name = [b'.'; MORE];
    rt.fill_bytes(&mut name[1..])?;
    for b in name[1..].iter_mut() {
        *b = letter(*b);
    }
    lent_bytes::copy(&name, 0, MORE, temp, n);
    let path = told::path(told::front(temp, temp_length(n)))?;
    OpenOptions::new()
        .write(true)
        .create_new(true)
        .open(rt, path)
}

// How long a temporary file's path is.
pub(crate) fn temp_length(n: usize) -> usize {
    n.saturating_add(MORE)
}

fn letter(b: u8) -> u8 {
    b'a' + b % 26
}

// Syncs the folder of a path. A new name stands after a power cut only then.
pub(crate) fn sync_folder(rt: &impl Files, path: &[u8]) -> Result<()> {
    let folder = open_folder(rt, path)?;
    folder.sync_all()
}
