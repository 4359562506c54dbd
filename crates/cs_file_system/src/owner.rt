//! Whose a new file is, and who may read it.
use crate::failed_calls::Operation;
use crate::noted_files::NotedFile;
use std::fs::{OpenFile, Permissions};
use std::io::ErrorKind;
use std::os::unix::fs::{MetadataExt, PermissionsExt, fchown};
use std::rt::Files;
use std::{fs, io};

/// The mode of a file that its owner alone may read and write.
pub const PRIVATE: u32 = 0o600;

/// The mode bits of a file that may be read by its owner.
const OWNER_READS: u32 = 0o400;

/// The mode bits by which anyone reads and writes.
const ALL_READ_AND_WRITE: u32 = 0o666;

/// The mode bits without those of the kind of file.
const MODE_BITS: u32 = 0o7777;

/// An owner with its group, and a mode.
#[derive(Clone, Copy)]
pub struct Owner {
    pub user: u32,
    pub group: u32,
    pub mode: u32,
}

/// An open file that can be given to an owner.
pub trait SetOwner {
    /// Gives the file to this owner and group, if it is not theirs, and then this mode. No path is looked at: what has the
    /// file's name meanwhile does not matter.
    fn set_owner(&self, owner: Owner) -> io::Result<()>;
}

impl SetOwner for NotedFile {
    fn set_owner(&self, owner: Owner) -> io::Result<()> {
        let made = OpenFile::metadata(self)?;
        if made.uid() != owner.user || made.gid() != owner.group {
            let given = fchown(&self.file, Some(owner.user), Some(owner.group));
            self.noted(Operation::SetOwner, given)?;
        }
        OpenFile::set_permissions(self, Permissions::from_mode(owner.mode))
    }
}

/// Whose the new file under a name of a store is to be: the old file's owner, or if there is no regular file that its owner
/// can read, the folder's.
pub fn owner_of<R: Files>(rt: &R, folder: &str, file: &str) -> io::Result<Owner> {
    match fs::symlink_metadata(rt, file) {
        Ok(old) if old.is_file() && old.mode() & OWNER_READS != 0 => Ok(Owner {
            user: old.uid(),
            group: old.gid(),
            mode: old.mode() & MODE_BITS,
        }),
        Ok(_) => folder_owner(rt, folder),
        Err(e) if e.kind() == ErrorKind::NotFound => folder_owner(rt, folder),
        Err(e) => Err(e),
    }
}

/// The folder's owner, with a mode by which that owner reads and writes, and others as they may the folder.
fn folder_owner<R: Files>(rt: &R, folder: &str) -> io::Result<Owner> {
    let found = fs::metadata(rt, folder)?;
    Ok(Owner {
        user: found.uid(),
        group: found.gid(),
        mode: (found.mode() & ALL_READ_AND_WRITE) | PRIVATE,
    })
}
