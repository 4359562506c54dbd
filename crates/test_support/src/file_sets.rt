//! Copies of file sets.
use cs_schema::FileName;
use cs_store::FileSet;
use std::alloc::{AllocError, Global};

/// Adds copies of other files to these.
pub fn put_all(alloc: Global, files: &mut FileSet, others: &FileSet) -> Result<(), AllocError> {
    for i in 0..others.len() {
        let (name, bytes) = others.at(i);
        files.put(name, Vec::from_slice(alloc, bytes)?)?;
    }
    Ok(())
}

/// A copy of the files.
pub fn copy_of(alloc: Global, files: &FileSet) -> Result<FileSet, AllocError> {
    let mut copy = FileSet::new(alloc)?;
    put_all(alloc, &mut copy, files)?;
    Ok(copy)
}

/// All files but one.
pub fn without(alloc: Global, files: &FileSet, name: FileName) -> Result<FileSet, AllocError> {
    let mut copy = FileSet::new(alloc)?;
    for i in 0..files.len() {
        let (other, bytes) = files.at(i);
        if other != name {
            copy.put(other, Vec::from_slice(alloc, bytes)?)?;
        }
    }
    Ok(copy)
}

/// Whether these files are among others, byte for byte.
pub fn are_among(files: &FileSet, others: &FileSet) -> bool {
    for i in 0..files.len() {
        let (name, bytes) = files.at(i);
        if others.get(name) != Some(bytes) {
            return false;
        }
    }
    true
}
