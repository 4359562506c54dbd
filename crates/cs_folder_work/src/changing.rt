//! Changing the files of names, each in the folder of its name and over what is kept.
ghost use Rattle.std.specs.Prelude.{◌≡◌, ◌++◌, IfOk, OnOk, codes, decimal, string_bytes};
ghost use Rattle.cs_file_system.specs.Calls.{Always};
ghost use Rattle.cs_folder_work.specs.Changing.{ArePathsOf, IsNameMovedBack, IsNameReplaced, IsNameTakenAway};

use crate::record::Record;
use crate::store_folders::StoreFolders;
use cs_file_system::{
    FileSystem, Replacement, SetOwner, move_back, put_owned, replace_kept, take_away,
};
use cs_folders::file_in;
use cs_schema::FileName;
use std::alloc::{AllocError, Global};
use std::io;

/// The folder that keeps what work of this number replaces in a folder.
fn kept_folder_of(alloc: Global, folder: &str, number: u32) -> Result<String, AllocError>
    ensures { IfOk result (λ kept. string_bytes kept ≡ folder.now ++ codes "/replaced/" ++ decimal number) }
{
    format!(in alloc; "{folder}/replaced/{number}")
}

/// The paths of what changes with a name in a folder, by work of this number.
fn paths_of(
    alloc: Global,
    folder: &str,
    number: u32,
    name: FileName,
) -> Result<Replacement, AllocError>
    ensures { IfOk result (λ paths. ArePathsOf folder.now number name paths) }
{
    let kept_folder = kept_folder_of(alloc, folder, number)?;
    let kept = file_in(alloc, kept_folder.as_str(), name)?;
    let path = file_in(alloc, folder, name)?;
    let beside = path.as_str();
    let beside = format!(in alloc; "{beside}.restoring")?;
    Ok(Replacement {
        folder: String::from_str(alloc, folder)?,
        path,
        beside,
        kept,
        kept_folder,
    })
}

/// Gives a name a file of these bytes: what stood there stays until the rename, which is one step, and was kept before. What
/// stands under a name where nothing stood before the work is of the work itself, and is not kept.
pub fn replace_name<F: FileSystem>(
    files: &mut F,
    alloc: Global,
    folders: &StoreFolders,
    noted: &Record,
    name: FileName,
    bytes: &[u8],
) -> io::Result<()>
where
    F::File: SetOwner,
    ensures { OnOk result (Always (F.made files.new) (IsNameReplaced F.has_identity folders.now noted.now name)) }
{
    let folder = folders.reach(files, name)?;
    let paths = paths_of(alloc, folder, noted.kept, name)?;
    if noted.is_new(name) {
        let (beside, path) = (paths.beside.as_str(), paths.path.as_str());
        return put_owned(files, folder, beside, path, bytes);
    }
    replace_kept(files, &paths, bytes)
}

/// Takes what stands under a name away, which is one step. It was kept before.
pub fn take_name_away<F: FileSystem>(
    files: &mut F,
    alloc: Global,
    folders: &StoreFolders,
    noted: &Record,
    name: FileName,
) -> io::Result<()>
    ensures { OnOk result (Always (F.made files.new) (IsNameTakenAway F.has_identity folders.now noted.now name)) }
{
    let folder = folders.reach(files, name)?;
    let paths = paths_of(alloc, folder, noted.kept, name)?;
    take_away(files, &paths)
}

/// Moves back what work of this number kept of a name. What stands there now was kept before.
pub fn move_name_back<F: FileSystem>(
    files: &mut F,
    alloc: Global,
    folders: &StoreFolders,
    noted: &Record,
    name: FileName,
    number: u32,
) -> io::Result<()>
    ensures { OnOk result (Always (F.made files.new) (IsNameMovedBack F.has_identity folders.now noted.now name number)) }
{
    let folder = folders.reach(files, name)?;
    let old = paths_of(alloc, folder, number, name)?;
    let new = paths_of(alloc, folder, noted.kept, name)?;
    let (from, to) = (old.kept.as_str(), new.path.as_str());
    let (kept, kept_folder) = (new.kept.as_str(), new.kept_folder.as_str());
    move_back(files, from, to, kept, kept_folder)
}
