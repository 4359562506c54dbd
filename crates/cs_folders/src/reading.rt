//! Reading one file, up to a bound.
ghost use Rattle.std.specs.Prelude.{◌≡◌, ◌<◌, ◌≤◌, ◌^◌, [], IfErr, IfOk, IfSome, IsSome, OnErr, vec_len};
ghost use Rattle.std.specs.IoError.{error_kind};

use crate::limits::CATALOG_LIMIT;
use crate::paths::path_in;
use cs_file_system::open_regular;
use cs_store::StoreFault;
use std::alloc::Global;
use std::fs::OpenFile;
use std::io::{ErrorKind, Read};
use std::rt::Files;
use std::{fs, io};

/// How many bytes are read at once, at most.
const CHUNK: usize = 65_536;

/// Reads to the end. A reader that gives more than `limit` bytes, or has not ended after `limit + 1` turns, is a fault of
/// the device; so the read ends, whatever the reader does.
pub fn read_bounded<F: Read>(alloc: Global, file: &mut F, limit: u64) -> Result<Vec<u8>, StoreFault>
    requires { limit < 2 ^ 63 }
    ensures bounded { IfOk result (λ bytes. vec_len bytes ≤ limit) }
    ensures whole { IfOk result (λ bytes. IfSome (F.remaining file.old) (λ all. bytes.items ≡ all)) }
{
    read_into(Vec::new(alloc), file, limit)
}

/// Reads a file of at most so many bytes into an empty list, which may have room for them.
fn read_into<F: Read>(room: Vec<u8>, file: &mut F, limit: u64) -> Result<Vec<u8>, StoreFault>
    requires limit { limit < 2 ^ 63 }
    requires empty { room.items ≡ [] }
    ensures bounded { IfOk result (λ bytes. vec_len bytes ≤ limit) }
    ensures whole { IfOk result (λ bytes. IfSome (F.remaining file.old) (λ all. bytes.items ≡ all)) }
{
    let mut bytes = room;
    let mut chunk = [0u8; CHUNK];
    for _ in 0..limit + 1 {
        match file.read(&mut chunk) {
            Ok(0) => return Ok(bytes),
            Ok(n) => {
                if (n as u64) > limit - bytes.len() as u64 {
                    return Err(StoreFault::Device);
                }
                if bytes.extend_from_slice(&chunk[..n]).is_err() {
                    return Err(StoreFault::Memory);
                }
            }
            Err(e) => {
                if e.kind() != ErrorKind::Interrupted {
                    return Err(StoreFault::Device);
                }
            }
        }
    }
    Err(StoreFault::Device)
}

/// What was asked of a path, or none if nothing is there. Any other error stays one: a disk that fails has lost no file.
pub fn unless_missing<T>(asked: io::Result<T>) -> io::Result<Option<T>>
    ensures found { IfOk asked (λ found. result ≡ Ok (Some found)) }
    ensures missing { IfErr asked (λ error. error_kind error ≡ ErrorKind.NotFound → result ≡ Ok None) }
    ensures failed { IfErr asked (λ error. ¬ (error_kind error ≡ ErrorKind.NotFound) → result ≡ Err error) }
{
    match asked {
        Ok(found) => Ok(Some(found)),
        Err(e) if e.kind() == ErrorKind::NotFound => Ok(None),
        Err(e) => Err(e),
    }
}

/// The bytes of a file that was opened, if one was there. One of more than `limit` bytes is a fault of the device, as is one
/// that could not be opened.
fn read_opened<F: Read + OpenFile + Drop>(
    alloc: Global,
    opened: io::Result<Option<F>>,
    limit: u64,
) -> Result<Option<Vec<u8>>, StoreFault>
    requires { limit < 2 ^ 63 }
    ensures bounded { IfOk result (λ file. IfSome file (λ bytes. vec_len bytes ≤ limit)) }
    ensures found { IfOk opened (λ found. IsSome found → IfOk result (λ file. IsSome file)) }
    ensures missing { opened ≡ Ok None → result ≡ Ok None }
    ensures failed { OnErr opened (result ≡ Err StoreFault.Device) }
{
    let mut file = match opened {
        Ok(Some(file)) => file,
        Ok(None) => return Ok(None),
        Err(_) => return Err(StoreFault::Device),
    };
    let length = match file.metadata() {
        Ok(found) if found.len() <= limit => found.len(),
        _ => return Err(StoreFault::Device),
    };
    // what is read is mostly what was there when it was opened
    let room = match Vec::with_capacity(alloc, length as usize) {
        Ok(room) => room,
        Err(_) => return Err(StoreFault::Memory),
    };
    match read_into(room, &mut file, limit) {
        Ok(bytes) => Ok(Some(bytes)),
        Err(fault) => Err(fault),
    }
}

/// The bytes of the file at this path, or `None` where nothing is, as behind a link that leads nowhere.
///
/// What is there is looked at before it is opened: anything but a regular file, which may never end, and
/// a file of more than `limit` bytes are a fault of the device.
pub fn read_file<R: Files>(
    alloc: Global,
    rt: &R,
    path: &str,
    limit: u64,
) -> Result<Option<Vec<u8>>, StoreFault>
    requires { limit < 2 ^ 63 }
    ensures { IfOk result (λ file. IfSome file (λ bytes. vec_len bytes ≤ limit)) }
{
    read_opened(alloc, unless_missing(open_regular(rt, path)), limit)
}

/// The bytes of a catalog, or `None` where there is none: of the file at this path, or where a folder is there, of the
/// store in it.
pub fn read_catalog_file<R: Files>(
    alloc: Global,
    rt: &R,
    path: &str,
) -> Result<Option<Vec<u8>>, StoreFault>
    ensures { IfOk result (λ file. IfSome file (λ bytes. vec_len bytes ≤ CATALOG_LIMIT)) }
{
    let is_folder = match fs::metadata(rt, path) {
        Ok(found) => found.is_dir(),
        Err(_) => false,
    };
    if !is_folder {
        return read_file(alloc, rt, path, CATALOG_LIMIT);
    }
    match path_in(alloc, path, "catalog.toml") {
        Ok(path) => read_file(alloc, rt, path.as_str(), CATALOG_LIMIT),
        Err(_) => Err(StoreFault::Memory),
    }
}
