ghost use Rattle.std.specs.Prelude.{◌≤◌, length, IfSome};

use crate::MOST_TRIES;
use std::fs::{File, OpenOptions};
use std::io;
use std::io::ErrorKind;
use std::os::fd::AsRawFd;
use std::os::unix::fs::FileExt;
use std::path::Path;
use std::rt::Files;

/// The greatest descriptor of a standard stream.
const STANDARD_ERROR: i32 = 2;

/// Opens the journal, or makes an empty one where there is none. What a read of it gives is then stable, and so is its name.
///
/// A run that was killed may have left bytes or a name that no sync made sure of, so this syncs the file and its folder also
/// where it did not make the file. No file is made behind a link, whose folder would be another one.
pub(crate) fn open_journal<R: Files<File = File>>(rt: &R, path: &str) -> io::Result<File> {
    let mut options = OpenOptions::new();
    options.read(true).write(true);
    let mut file = match options.open(rt, path) {
        Err(error) if error.kind() == ErrorKind::NotFound => {
            options.create_new(true).open(rt, path)?
        }
        opened => opened?,
    };

    // What is printed to a standard stream that was closed must not land in the journal.
    if file.as_raw_fd() <= STANDARD_ERROR {
        file = file.try_clone()?;
    }
    file.sync_all()?;
    File::open(rt, folder_of(path))?.sync_all()?;
    Ok(file)
}

/// The folder that a file lies in.
fn folder_of(path: &str) -> &str {
    match Path::new(path).parent() {
        Some(folder) if !folder.as_str().is_empty() => folder.as_str(),
        _ => ".",
    }
}

// Reads once, but for interrupted calls. None where the read failed.
pub(crate) fn read_piece(file: &File, at: u64, buf: &mut [u8]) -> Option<usize>
    ensures { IfSome result (λ count. count ≤ length buf.new) }
{
    for _ in 0..MOST_TRIES {
        match file.read_at(buf, at) {
            Ok(count) => return Some(count),
            Err(error) if error.kind() == ErrorKind::Interrupted => {}
            Err(_) => return None,
        }
    }
    None
}

// Writes once, but for interrupted calls. None where the write failed.
fn write_piece(file: &File, at: u64, bytes: &[u8]) -> Option<usize>
    ensures { IfSome result (λ count. count ≤ length bytes.now) }
{
    for _ in 0..MOST_TRIES {
        match file.write_at(bytes, at) {
            Ok(count) => return Some(count),
            Err(error) if error.kind() == ErrorKind::Interrupted => {}
            Err(_) => return None,
        }
    }
    None
}

// Writes all of these bytes. None where a write failed.
pub(crate) fn write_whole(file: &File, at: u64, bytes: &[u8]) -> Option<()> {
    let mut done = 0;
    while done < bytes.len() {
        let place = at.checked_add(done as u64)?;
        match write_piece(file, place, &bytes[done..])? {
            0 => return None,
            count => done += count,
        }
    }
    Some(())
}
