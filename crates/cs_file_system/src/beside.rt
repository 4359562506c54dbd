//! New files beside a path, under a name of this run's own.
ghost use Rattle.std.specs.Prelude.{◌≡◌, IfOk, OnOk, string_bytes};
ghost use Rattle.cs_file_system.specs.Calls.{IsNoMore};

use crate::calls::FileSystem;
use std::alloc::Global;
use std::io;
use std::io::ErrorKind;

/// How many names beside a path are tried, at most: each is of one program that is at work, or of one that was killed.
pub const BESIDE_LIMIT: u32 = 64;

/// A new file beside a path.
#[derive(Drop)]
pub struct Beside<L> {
    pub path: String,
    pub file: L,
}

/// A new file beside a path, in which nothing is yet. It has a number behind its name that no other has.
pub fn new_beside<F: FileSystem>(
    files: &mut F,
    alloc: Global,
    path: &str,
) -> io::Result<Beside<F::File>>
    ensures { IfOk result (λ beside. F.is_at beside.file (string_bytes beside.path)) }
{
    for number in 1..=BESIDE_LIMIT {
        let numbered = format!(in alloc; "{path}.{number}")?;
        match files.create(numbered.as_str()) {
            Ok(file) => return Ok(Beside {
                path: numbered,
                file,
            }),
            Err(e) if e.kind() == ErrorKind::AlreadyExists => {}
            Err(e) => return Err(e),
        }
    }
    Err(io::Error::from(ErrorKind::AlreadyExists))
}

/// Makes an empty folder beside a path. It has a number behind its name that no other has.
pub fn new_folder_beside<F: FileSystem>(
    files: &mut F,
    alloc: Global,
    path: &str,
) -> io::Result<String> {
    for number in 1..=BESIDE_LIMIT {
        let numbered = format!(in alloc; "{path}.{number}")?;
        match files.create_folder(numbered.as_str()) {
            Ok(()) => return Ok(numbered),
            Err(e) if e.kind() == ErrorKind::AlreadyExists => {}
            Err(e) => return Err(e),
        }
    }
    Err(io::Error::from(ErrorKind::AlreadyExists))
}

/// Hands on what was done. After an error the new file at a path goes, if that can be removed: a disk that is full is not kept
/// full.
pub fn or_remove<F: FileSystem>(files: &mut F, path: &str, done: io::Result<()>) -> io::Result<()>
    ensures done { result ≡ done }
    ensures same { OnOk result (IsNoMore (F.made files.old) (F.made files.new)) }
{
    if done.is_err() {
        let _removed = files.remove(path).is_ok();
    }
    done
}
