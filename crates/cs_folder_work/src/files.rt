//! Reading regular files.
ghost use Rattle.std.specs.Prelude.{◌≤◌, IfOk, IfSome};

use cs_file_system::open_unlinked;
use cs_folders::read_bounded;
use cs_store::StoreFault;
use std::alloc::Global;
use std::io::ErrorKind;
use std::rt::Files;
use std::{fs, io};

/// How many bytes a file has that is read, at most.
const GREATEST: u64 = 1 << 62;

/// How many bytes the regular file at this path has; none if there is no such file.
pub fn regular_size<R: Files>(rt: &R, path: &str) -> io::Result<Option<u64>>
    ensures { IfOk result (λ found. IfSome found (λ size. size ≤ 4611686018427387904)) }
{
    match fs::symlink_metadata(rt, path) {
        Ok(found) if found.is_file() && found.len() <= GREATEST => Ok(Some(found.len())),
        Ok(_) => Ok(None),
        Err(e) if e.kind() == ErrorKind::NotFound => Ok(None),
        Err(e) => Err(e),
    }
}

/// The bytes of the regular file at this path, of at most so many; none if there is no such file.
pub fn read_regular<R: Files>(
    alloc: Global,
    rt: &R,
    path: &str,
    limit: u64,
) -> io::Result<Option<Vec<u8>>> {
    let size = match regular_size(rt, path)? {
        Some(size) if size <= limit => size,
        _ => return Ok(None),
    };
    let mut file = open_unlinked(rt, path)?;
    match read_bounded(alloc, &mut file, size) {
        Ok(bytes) => Ok(Some(bytes)),
        Err(fault) => Err(io_error(fault)),
    }
}

/// The error of a read that failed.
pub fn io_error(fault: StoreFault) -> io::Error {
    io::Error::from(match fault {
        StoreFault::Memory => ErrorKind::OutOfMemory,
        StoreFault::Device => ErrorKind::Other,
    })
}
