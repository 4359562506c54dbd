//! Folders and files for tests.
use std::fs::{File, OpenFile};
use std::rt::Files;
use std::{fs, io};

/// An empty folder, in place of one that an earlier run left.
pub fn fresh(rt: &(impl Files + AllocGlobal), path: &str) -> io::Result<()> {
    let _ = fs::remove_dir_all(rt, path);
    fs::create_dir(rt, path)
}

/// A sparse file of this many zero bytes.
pub fn sparse(rt: &impl Files, path: &str, length: u64) -> io::Result<()> {
    File::create(rt, path)?.set_len(length)
}
