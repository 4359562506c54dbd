//! Replacing and taking away what is kept.
ghost use Rattle.std.specs.Prelude.{OnOk, string_bytes};
ghost use Rattle.cs_file_system.specs.Calls.{Always, IsSynced};
ghost use Rattle.cs_file_system.specs.Replacing.{IsReplaced, IsTakenAway};

use crate::beside::or_remove;
use crate::calls::FileSystem;
use crate::moving::see_kept;
use crate::owner::SetOwner;
use crate::placing::write_owned;
use std::io;

/// The paths of what changes if a file in a folder is replaced or taken away.
#[derive(Drop)]
pub struct Replacement {
    /// The folder.
    pub folder: String,
    /// The file.
    pub path: String,
    /// Where a new file is made.
    pub beside: String,
    /// Where what stands at the path is kept.
    pub kept: String,
    /// The folder in which that is.
    pub kept_folder: String,
}

/// Gives a new file, whose bytes are on the disk, the name of what stands there, once that was seen to be kept.
fn replace_seen<F: FileSystem>(files: &mut F, paths: &Replacement) -> io::Result<()>
    requires { Always (F.made files.old) (IsSynced (string_bytes paths.now.beside)) }
    ensures { OnOk result (Always (F.made files.new) (IsReplaced paths.now)) }
{
    let (path, beside) = (paths.path.as_str(), paths.beside.as_str());
    let (kept, folder) = (paths.kept.as_str(), paths.kept_folder.as_str());
    see_kept(files, path, kept, folder)?;
    files.replace(beside, path, kept, folder)
}

/// Puts a file of these bytes in the place of what stands there and is kept, with its owner and its mode, or if it is no
/// regular file, those of the folder. That it has the name is not on the disk yet. After an error the new file is gone, if it
/// can be removed.
///
/// An error of the kind `AlreadyExists` if what would be replaced is not kept.
pub fn replace_kept<F: FileSystem>(
    files: &mut F,
    paths: &Replacement,
    bytes: &[u8],
) -> io::Result<()>
where
    F::File: SetOwner,
    ensures { OnOk result (Always (F.made files.new) (IsReplaced paths.now)) }
{
    let (folder, path) = (paths.folder.as_str(), paths.path.as_str());
    let beside = paths.beside.as_str();
    write_owned(files, folder, beside, path, bytes)?;
    let replaced = replace_seen(files, paths);
    or_remove(files, beside, replaced)
}

/// Removes the file that stands at a path and is kept, if there is one. That it is gone is not on the disk yet.
///
/// An error of the kind `AlreadyExists` if what would be removed is not kept.
pub fn take_away<F: FileSystem>(files: &mut F, paths: &Replacement) -> io::Result<()>
    ensures { OnOk result (Always (F.made files.new) (IsTakenAway paths.now)) }
{
    let (path, kept) = (paths.path.as_str(), paths.kept.as_str());
    let folder = paths.kept_folder.as_str();
    see_kept(files, path, kept, folder)?;
    files.remove_kept(path, kept, folder)
}
