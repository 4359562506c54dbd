//! The digests of the files of a store.
ghost use Rattle.std.specs.Prelude.{◌≡◌, IfOk};
ghost use Rattle.cs_schema.specs.FileNames.{surviving};
ghost use Rattle.cs_parallel_io.specs.Standing.{standing};
ghost use Rattle.cs_manifest.specs.Digests.{digest, DigestsFiles, DigestsFile};
ghost use Rattle.cs_manifest.specs.Ahead.{DigestsEach};

use crate::digesting_ahead::{FileDigest, digest_ahead, take_ahead};
use cs_parallel_io::SharedSource;
use cs_schema::{Catalog, FileName, Loss};
use cs_store::StoreFault;
use sha2::{Digest, Sha256};
use std::alloc::{AllocError, Global};
use std::marker::Sync;
use std::thread::Threads;

/// The outcome of reading a file.
#[derive(Clone, Copy, Debug, PartialEq, Eq)]
pub enum Digested {
    /// The file was read and has this SHA-256 digest.
    Found([u8; 32]),
    /// The file is missing.
    Missing,
    /// The device failed while the file was read.
    Unreadable,
}

/// The SHA-256 digest of these bytes.
pub fn digest_of(bytes: &[u8]) -> [u8; 32]
    ensures { result ≡ digest bytes.now }
{
    Sha256::digest(bytes)
}

/// Reads the files of a catalog that survive a loss, in parallel, and returns the outcome for each, ascending by name. It
/// continues after a read that fails. A thread has one file in memory at a time.
pub fn digest_files<R: Threads + Sync, S: SharedSource>(
    rt: &R,
    alloc: Global,
    catalog: &Catalog,
    lost: Loss,
    source: &S,
) -> Result<Vec<(FileName, Digested)>, AllocError>
    ensures { IfOk result (λ files. DigestsFiles (standing S.answers) (standing S.fails) (surviving catalog.now lost)
        source.now files.items source.now) }
{
    let names = catalog.surviving(alloc, lost)?;
    let ahead = digest_ahead(rt, alloc, names.as_slice(), source)?;
    digest_names(alloc, names.as_slice(), ahead, source)
}

/// The outcomes for the files of these names, in this order, of which `ahead` has been read, the last name first.
fn digest_names<S: SharedSource>(
    alloc: Global,
    names: &[FileName],
    mut ahead: Vec<FileDigest>,
    source: &S,
) -> Result<Vec<(FileName, Digested)>, AllocError>
    requires { DigestsEach (standing S.answers) (standing S.fails) source.now ahead.items }
    ensures { IfOk result (λ files. DigestsFiles (standing S.answers) (standing S.fails) names.now source.now files.items source.now) }
{
    let mut files = Vec::new(alloc);
    for name in names {
        let found = take_ahead(&mut ahead, source, *name)?;
        files.push((*name, found))?;
    }
    Ok(files)
}

/// Reads the file of this name, and returns the outcome.
pub fn digest_file<S: SharedSource>(source: &S, name: FileName) -> Result<Digested, AllocError>
    ensures { IfOk result (λ found. DigestsFile (standing S.answers) (standing S.fails) source.now name found source.now) }
{
    match source.read_shared(name) {
        Ok(Some(bytes)) => Ok(Digested::Found(digest_of(bytes.as_slice()))),
        Ok(None) => Ok(Digested::Missing),
        Err(StoreFault::Device) => Ok(Digested::Unreadable),
        Err(StoreFault::Memory) => Err(AllocError),
    }
}
