//! Regular files that are opened, compared and copied.
ghost use Rattle.std.specs.Prelude.{◌≤◌, IfOk};

use std::fs::{Metadata, OpenFile, OpenOptions};
use std::io::{ErrorKind, Read, Write};
use std::os::unix::fs::MetadataExt;
use std::rt::Files;
use std::{fs, io};

/// How many bytes are read at once, at most.
const CHUNK: usize = 65_536;

/// The error for what is no regular file, or is another file when it is opened than when it was looked at.
fn not_regular() -> io::Error {
    io::Error::from(ErrorKind::InvalidInput)
}

/// Opens the regular file that was seen at a path. What is no regular file is not opened, since the open of a pipe would wait.
fn open_seen<R: Files>(
    rt: &R,
    path: &str,
    seen: &Metadata,
    how: &OpenOptions,
) -> io::Result<R::File> {
    if !seen.is_file() {
        return Err(not_regular());
    }
    let file = how.open(rt, path)?;
    let opened = OpenFile::metadata(&file)?;
    if opened.is_file() && opened.dev() == seen.dev() && opened.ino() == seen.ino() {
        Ok(file)
    } else {
        Err(not_regular())
    }
}

/// Opens the regular file at a path, or that to which a link there leads. What is there is looked at before it is opened, and
/// the open file has to be the one that was seen. An error of the kind `InvalidInput` if it is none.
pub fn open_regular<R: Files>(rt: &R, path: &str) -> io::Result<R::File> {
    let mut how = OpenOptions::new();
    how.read(true);
    open_seen(rt, path, &fs::metadata(rt, path)?, &how)
}

/// Opens the regular file at a path as `open_regular` does, but follows no link.
pub fn open_unlinked<R: Files>(rt: &R, path: &str) -> io::Result<R::File> {
    let mut how = OpenOptions::new();
    how.read(true);
    open_seen(rt, path, &fs::symlink_metadata(rt, path)?, &how)
}

/// Opens the regular file at a path as `open_unlinked` does, also for writing: over NFS a file gets a lock of its own only so.
pub fn open_to_lock<R: Files>(rt: &R, path: &str) -> io::Result<R::File> {
    let mut how = OpenOptions::new();
    how.read(true).write(true);
    open_seen(rt, path, &fs::symlink_metadata(rt, path)?, &how)
}

/// Writes what a reader gives to a writer, up to the reader's end.
pub fn copy_all<F: Read, W: Write>(from: &mut F, to: &mut W) -> io::Result<()> {
    let mut chunk = [0u8; CHUNK];
    for _ in 0..u64::MAX {
        match from.read(&mut chunk) {
            Ok(0) => return Ok(()),
            Ok(n) => to.write_all(&chunk[..n])?,
            Err(e) if e.kind() == ErrorKind::Interrupted => {}
            Err(e) => return Err(e),
        }
    }
    Err(io::Error::from(ErrorKind::FileTooLarge))
}

/// Fills a buffer as far as a reader gives bytes, and says how many it gave.
fn read_full<F: Read>(from: &mut F, chunk: &mut [u8; CHUNK]) -> io::Result<usize>
    ensures { IfOk result (λ count. count ≤ CHUNK) }
{
    let mut filled = 0;
    for _ in 0..u64::MAX {
        if filled >= CHUNK {
            break;
        }
        match from.read(&mut chunk[filled..]) {
            Ok(0) => break,
            Ok(n) => filled += n,
            Err(e) if e.kind() == ErrorKind::Interrupted => {}
            Err(e) => return Err(e),
        }
    }
    Ok(filled)
}

/// Whether two readers give the same bytes.
fn give_same<F: Read>(one: &mut F, other: &mut F) -> io::Result<bool> {
    let (mut first, mut second) = ([0u8; CHUNK], [0u8; CHUNK]);
    for _ in 0..u64::MAX {
        let count = read_full(one, &mut first)?;
        if read_full(other, &mut second)? != count || first[..count] != second[..count] {
            return Ok(false);
        }
        if count == 0 {
            return Ok(true);
        }
    }
    Ok(false)
}

/// Whether one file stands at two paths, or two regular files of the same bytes. Links are not followed.
pub fn is_same<R: Files>(rt: &R, path: &str, other: &str) -> io::Result<bool> {
    let one = fs::symlink_metadata(rt, path)?;
    let two = fs::symlink_metadata(rt, other)?;
    if one.dev() == two.dev() && one.ino() == two.ino() {
        return Ok(true);
    }
    if !one.is_file() || !two.is_file() || one.len() != two.len() {
        return Ok(false);
    }
    give_same(
        &mut open_unlinked(rt, path)?,
        &mut open_unlinked(rt, other)?,
    )
}

/// Whether a path still is the name of an open file.
pub fn is_named<R: Files>(rt: &R, path: &str, file: &R::File) -> io::Result<bool> {
    let opened = OpenFile::metadata(file)?;
    match fs::metadata(rt, path) {
        Ok(named) => Ok(opened.ino() == named.ino() && opened.dev() == named.dev()),
        Err(e) if e.kind() == ErrorKind::NotFound => Ok(false),
        Err(e) => Err(e),
    }
}

/// Whether an error says that a file gets no second name here, by a hard link: that its file system has none, that it has as
/// many as it can, or that it is another's.
pub fn refuses_links(error: &io::Error) -> bool {
    matches!(
        error.kind(),
        ErrorKind::PermissionDenied
            | ErrorKind::Unsupported
            | ErrorKind::TooManyLinks
            | ErrorKind::CrossesDevices
    )
}
