// The new sheet takes the place of the old one, whole or not at all: it goes to a temporary file beside it, which is written, synced and closed;
// then the old one is read once more; then the new one is renamed over it, and the folder is synced (SCOPE 20.16). The line is the caller's to print.
use crate::{Stand, modes, paths, says};
use std::fs;
use std::fs::{OpenFile, Permissions};
use std::io::{Result, Write};
use std::os::unix::fs::PermissionsExt;
use std::random::RandomSource;
use std::rt::Files;
use told::Console;

// How it went.
#[derive(Drop)]
pub enum Placed {
    // The temporary file has taken the sheet's place.
    Renamed,
    // It failed, and that is told.
    Failed,
    // Another sheet than it was stood there when it was read once more.
    Changed(Stand),
}

// Puts the new sheet in the place of what was read at its path, which was the first bytes of `base`. What stands there now is left in `again`.
pub fn put(
    rt: &(impl Files + RandomSource + Console),
    stand: Stand,
    path: &[u8],
    shown: &[u8],
    base: &[u8],
    sheet: &[u8],
    again: &mut [u8],
) -> Placed {
    let mut temp = io::buffer();
    lent_bytes::copy(path, 0, path.len(), &mut temp, 0);
    match paths::create_beside(rt, &mut temp, path.len()) {
        Ok(file) => {
            let temp = told::front(&temp, paths::temp_length(path.len()));
            put_by(rt, file, stand, path, shown, temp, base, sheet, again)
        }
        Err(e) => {
            says::fail(
                rt,
                shown,
                b"no file can be made beside it, and it stays as it was",
                e,
            );
            Placed::Failed
        }
    }
}

// The temporary file is made. Where it doesn't take the sheet's place it goes.
fn put_by<R: Files + Console>(
    rt: &R,
    file: R::File,
    stand: Stand,
    path: &[u8],
    shown: &[u8],
    temp: &[u8],
    base: &[u8],
    sheet: &[u8],
    again: &mut [u8],
) -> Placed {
    let placed = put_in(rt, file, stand, path, shown, temp, base, sheet, again);
    if !matches!(placed, Placed::Renamed)
        && let Err(e) = remove(rt, temp)
    {
        says::fail(rt, shown, b"a temporary file is left beside it", e);
    }
    placed
}

fn remove(rt: &impl Files, path: &[u8]) -> Result<()> {
    fs::remove_file(rt, told::path(path)?)
}

fn put_in<R: Files + Console>(
    rt: &R,
    file: R::File,
    stand: Stand,
    path: &[u8],
    shown: &[u8],
    temp: &[u8],
    base: &[u8],
    sheet: &[u8],
    again: &mut [u8],
) -> Placed {
    if let Err(e) = write(file, stand, sheet) {
        says::fail(
            rt,
            shown,
            b"the new sheet can't be written, and it stays as it was",
            e,
        );
        return Placed::Failed;
    }
    let Some(now) = crate::read(rt, path, shown, again) else {
        return Placed::Failed;
    };
    if !is_as_it_was(stand, now, base, again) {
        return changed(rt, stand, now, shown);
    }
    if let Err(e) = rename(rt, temp, path) {
        says::fail(
            rt,
            shown,
            b"the new sheet can't take its place, and it stays as it was",
            e,
        );
        return Placed::Failed;
    }
    if let Err(e) = paths::sync_folder(rt, path) {
        says::note_unsynced(rt, shown, e);
    }
    Placed::Renamed
}

fn rename(rt: &impl Files, from: &[u8], to: &[u8]) -> Result<()> {
    fs::rename(rt, told::path(from)?, told::path(to)?)
}

// Whether what stands there now is what was read before.
fn is_as_it_was(stand: Stand, now: Stand, base: &[u8], again: &[u8]) -> bool {
    stand.mode.is_ok() == now.mode.is_ok()
        && told::front(base, stand.length) == told::front(again, now.length)
}

// Another sheet stands there now. One that went away is a failure.
fn changed(rt: &impl Console, stand: Stand, now: Stand, shown: &[u8]) -> Placed {
    if stand.mode.is_ok() && now.mode.is_err() {
        says::tell(rt, shown, b"it went away meanwhile, and none is made");
        return Placed::Failed;
    }
    Placed::Changed(now)
}

// Writes the new sheet, syncs it and closes it. A sheet that stands keeps its mode, which is set before a byte of it is written.
fn write<F: Write + OpenFile + Drop>(mut file: F, stand: Stand, sheet: &[u8]) -> Result<()> {
    if let Ok(mode) = stand.mode {
        file.set_permissions(Permissions::from_mode(modes::rights(mode)))?;
    }
    file.write_all(sheet)?;
    file.sync_all()
}
