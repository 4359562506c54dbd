//! An open file of a file system in memory.
ghost use Rattle.std.specs.Prelude.{⊤};

use cs_file_system::{Owner, SetOwner, TryLock};
use std::io;

/// An open file of a file system in memory. Nobody else locks it, and anyone may own it.
#[derive(Drop)]
pub struct MemoryFile {
    pub path: String,
}

impl TryLock for MemoryFile {
    ghost is_locked = { λ file. ⊤ };

    fn take_lock(&self) -> io::Result<()> {
        Ok(())
    }
}

impl SetOwner for MemoryFile {
    fn set_owner(&self, _owner: Owner) -> io::Result<()> {
        Ok(())
    }
}
