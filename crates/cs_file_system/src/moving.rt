//! Moving back what is kept.
ghost use Rattle.std.specs.Prelude.{IfOk, IsTrue, OnOk};
ghost use Rattle.cs_file_system.specs.Calls.{Always, IsSeenKept, KeepsSynced, MayBeReplaced};
ghost use Rattle.cs_file_system.specs.Moving.{IsMovedBack};

use crate::calls::FileSystem;
use crate::standing::Standing;
use std::io;
use std::io::ErrorKind;

/// Whether something is kept at one path, or nothing stands at the other.
fn is_kept<F: FileSystem>(files: &mut F, path: &str, kept: &str) -> io::Result<bool>
    ensures kept { IfOk result (λ is_kept. IsTrue is_kept → Always (F.made files.new) (IsSeenKept path.now kept.now)) }
    ensures synced { OnOk result (KeepsSynced (F.made files.old) (F.made files.new)) }
{
    match files.look(kept)? {
        Standing::File => Ok(true),
        Standing::Folder => Ok(true),
        Standing::Nothing => match files.look(path)? {
            Standing::Nothing => Ok(true),
            Standing::File => Ok(false),
            Standing::Folder => Ok(false),
        },
    }
}

/// Sees that what stands at a path is kept in a folder, and brings the names of what is kept to the disk. An error of the kind
/// `AlreadyExists` if it is not kept.
pub fn see_kept<F: FileSystem>(
    files: &mut F,
    path: &str,
    kept: &str,
    folder: &str,
) -> io::Result<()>
    ensures kept { OnOk result (Always (F.made files.new) (MayBeReplaced path.now kept.now folder.now)) }
    ensures synced { OnOk result (KeepsSynced (F.made files.old) (F.made files.new)) }
{
    if !is_kept(files, path, kept)? {
        return Err(io::Error::from(ErrorKind::AlreadyExists));
    }
    files.sync_folder(folder)
}

/// Moves what stands at a path, whatever it is, back to where it was, in the place of what stands there and is kept in a
/// folder. Nothing changes if nothing stands at the path: a call that was stopped has moved it.
///
/// An error of the kind `AlreadyExists` if what would be replaced is not kept.
pub fn move_back<F: FileSystem>(
    files: &mut F,
    from: &str,
    to: &str,
    kept: &str,
    folder: &str,
) -> io::Result<()>
    ensures { OnOk result (Always (F.made files.new) (IsMovedBack from.now to.now kept.now folder.now)) }
{
    match files.look(from)? {
        Standing::Nothing => Ok(()),
        Standing::File => {
            see_kept(files, to, kept, folder)?;
            files.move_over(from, to, kept, folder)
        }
        Standing::Folder => {
            see_kept(files, to, kept, folder)?;
            // a folder takes no file's place
            files.remove_kept(to, kept, folder)?;
            files.move_over(from, to, kept, folder)
        }
    }
}
