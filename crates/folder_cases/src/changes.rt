//! Changes of what stands in folders.
use anyhow::Result;
use std::fs;
use std::fs::{File, OpenFile};
use std::os::unix::fs::symlink;
use std::rt::Files;

/// Does a change, if the words are one.
pub fn changed<R: Files>(rt: &R, words: &[&str]) -> Result<bool> {
    match words {
        ["rm", path] => fs::remove_file(rt, path)?,
        ["mkdir", path] => fs::create_dir(rt, path)?,
        ["rmdir", path] => fs::remove_dir(rt, path)?,
        ["link", target, path] => symlink(rt, target, path)?,
        ["sparse", bytes, path] => {
            File::create(rt, path)?.set_len(bytes.parse::<u64>()?)?;
        }
        _ => return Ok(false),
    }
    Ok(true)
}
