//! The folders in which files of some names stand, and bringing the names in them to the disk.
ghost use Rattle.std.specs.Prelude.{IfErr, IfOk, OnOk, map, string_bytes};
ghost use Rattle.std.specs.List.{All};
ghost use Rattle.cs_file_system.specs.Calls.{Always, IsNoMore};
ghost use Rattle.cs_folder_work.specs.Folders.{AreRefused, AreSettled, IsFolderOfOne, IsInOneOf};

use crate::store_folders::StoreFolders;
use cs_file_system::FileSystem;
use cs_schema::FileName;
use std::alloc::Global;
use std::io;

/// The paths of the folders in which the files of these names stand, and of no others.
pub fn folders_of<F: FileSystem>(
    files: &mut F,
    alloc: Global,
    folders: &StoreFolders,
    names: &[FileName],
) -> io::Result<Vec<String>>
    ensures each { IfOk result (λ paths. All (IsInOneOf F.has_identity folders.now (map string_bytes paths.items)) names.now) }
    ensures only { IfOk result (λ paths. All (IsFolderOfOne F.has_identity folders.now names.now) (map string_bytes paths.items)) }
    ensures refused { IfErr result (AreRefused folders.now names.now) }
    ensures same { IsNoMore (F.made files.old) (F.made files.new) }
{
    let parts = folders.parts(files, alloc, names)?;
    let mut paths = Vec::new(alloc);
    for part in parts.as_slice() {
        if !part.names.is_empty() {
            paths.push(String::from_str(alloc, part.folder)?)?;
        }
    }
    Ok(paths)
}

/// Brings the names in the folders of these names' files to the disk.
pub fn sync_folders_of<F: FileSystem>(
    files: &mut F,
    alloc: Global,
    folders: &StoreFolders,
    names: &[FileName],
) -> io::Result<()>
    ensures { OnOk result (Always (F.made files.new) (AreSettled F.has_identity folders.now names.now)) }
{
    let paths = folders_of(files, alloc, folders, names)?;
    for path in paths.as_slice() {
        files.sync_folder(path.as_str())?;
    }
    Ok(())
}
