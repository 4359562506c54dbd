//! Whether a long file is worth to be held in memory.
ghost use Rattle.std.specs.Prelude.{◌<◌, ◌^◌};

use cs_file_system::open_regular;
use sha2::{Digest, Sha256};
use std::fs::OpenFile;
use std::io;
use std::io::{ErrorKind, Read, Seek, SeekFrom};
use std::rt::Files;

/// How many bytes a file has at least that is looked at before it is held.
const LONG: u64 = 67_108_864;

/// How many bytes a digest has.
const DIGEST: u64 = 32;

/// How many bytes are read at once, at most.
const CHUNK: usize = 65_536;

/// The SHA-256 digest of so many bytes of a file, from where it stands, or of those up to its end.
fn digest_of_first<F: Read>(file: &mut F, count: u64) -> io::Result<[u8; 32]>
    requires { count < 2 ^ 63 }
{
    let mut hasher = Sha256::new();
    let mut chunk = [0u8; CHUNK];
    let mut left = count;
    for _ in 0..count {
        if left == 0 {
            break;
        }
        let most = left.min(CHUNK as u64) as usize;
        let n = file.read(&mut chunk[..most])?;
        if n == 0 {
            break;
        }
        hasher.update(&chunk[..n]);
        left -= n as u64;
    }
    Ok(hasher.finalize())
}

/// Whether a file of so many bytes ends with the digest of those before it. One that ends with zeros does not, as a file does
/// that was only made long.
fn is_sealed<F: Read + Seek>(file: &mut F, size: u64) -> io::Result<bool>
    requires { size < 2 ^ 63 }
{
    if size < DIGEST {
        return Ok(false);
    }
    let mut seal = [0u8; DIGEST as usize];
    file.seek(SeekFrom::Start(size - DIGEST))?;
    file.read_exact(&mut seal)?;
    if seal == [0u8; DIGEST as usize] {
        return Ok(false);
    }
    file.seek(SeekFrom::Start(0))?;
    Ok(digest_of_first(file, size - DIGEST)? == seal)
}

/// Whether the regular file at this path is long and damaged: no file of a store has such bytes, so that it need not be held in
/// memory to see that.
pub fn is_long_and_damaged<R: Files>(rt: &R, path: &str) -> io::Result<bool> {
    let mut file = match open_regular(rt, path) {
        Ok(file) => file,
        Err(e) if e.kind() == ErrorKind::NotFound || e.kind() == ErrorKind::InvalidInput => {
            return Ok(false);
        }
        Err(e) => return Err(e),
    };
    let size = file.metadata()?.len();
    if size < LONG || size > u64::MAX / 4 {
        return Ok(false);
    }
    Ok(!is_sealed(&mut file, size)?)
}
