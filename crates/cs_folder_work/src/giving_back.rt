//! Giving a store back.
use crate::finishing::{finish, remove_record};
use crate::shelf::FolderShelf;
use cs_file_system::StoreFiles;
use cs_store::StoreFault;
use std::io::ErrorKind;
use std::time::Clock;

/// How a store was given back.
#[derive(Clone, Copy)]
pub struct Ended {
    /// The number under which old files are kept, if some are.
    pub kept: Option<u32>,
    /// How many files this run replaced or took away.
    pub changed: u64,
    /// Whether it is on the disk that its record is gone: else a crash may bring the record back.
    pub is_synced: bool,
}

impl<R: StoreFiles + Clock + Copy + Drop> FolderShelf<R> {
    /// Gives the store back: its work is finished, or ended early. Work that ended early after the store may have changed
    /// stays unfinished.
    pub fn give_back(self, is_finished: bool) -> Result<Ended, StoreFault> {
        let kept = if self.has_kept {
            Some(self.number())
        } else {
            None
        };
        let folders = &self.folders;
        let ended = match &self.taken {
            Some(taken) if is_finished => {
                finish(self.alloc, &self.rt, folders, taken, &self.digests)
            }
            Some(_) if !self.has_changed => remove_record(self.alloc, &self.rt, folders.store()),
            _ => Ok(true),
        };
        match ended {
            Ok(is_synced) => Ok(Ended {
                kept,
                changed: self.changed,
                is_synced,
            }),
            Err(e) if e.kind() == ErrorKind::OutOfMemory => Err(StoreFault::Memory),
            Err(_) => Err(StoreFault::Device),
        }
    }
}
