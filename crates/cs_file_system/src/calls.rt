//! The calls of a file system.
ghost use Rattle.std.specs.Prelude.{◌≡◌, ℕ, List, false, IfOk, OnOk, OnErr};
ghost use Rattle.cs_file_system.specs.Calls.{Adds, Always, Calls, IsNoMore, IsSettled, IsSynced, MayAdd, MayBeReplaced, create, finish, keep, link, make, remove, rename, sync, sync_folder, write};
ghost use Rattle.cs_file_system.specs.Seeing.{AreCompared, IsSeen};
ghost use Rattle.cs_file_system.specs.declared.identity.Identity.{Identity};

use crate::identity::Identity;
use crate::owner::Owner;
use crate::standing::Standing;
use std::alloc::Global;
use std::io;

/// A file system whose calls are remembered. A path is the bytes of its text.
pub trait FileSystem {
    /// A file that is open to be written at its end.
    type File: Drop;

    /// The calls that were made so far, the last one first. The file system of the system, of which no contract is told, makes
    /// no claim (no such calls).
    ghost made: { Self → Calls → Type 0 };

    /// An open file is the one that was made or opened at this path.
    ghost is_at: { Self.File → List ℕ → Type 0 };

    /// The folder at this path was found to have this identity.
    ghost has_identity: { List ℕ → Identity → Type 0 };

    /// No link was seen at this path.
    ghost has_no_link: { List ℕ → Type 0 };

    /// The identity of the folder at a path.
    fn identity(&mut self, path: &str) -> io::Result<Identity>
        ensures found { IfOk result (λ identity. has_identity path.now identity) }
        ensures same { IsNoMore (made self.old) (made self.new) };

    /// Whether a link is seen at a path.
    fn is_link(&mut self, path: &str) -> io::Result<bool>
        ensures none { IfOk result (λ is. is ≡ false → has_no_link path.now) }
        ensures same { IsNoMore (made self.old) (made self.new) };

    /// What stands at a path.
    fn look(&mut self, path: &str) -> io::Result<Standing>
        ensures ok { IfOk result (λ found. IsSeen found path.now (made self.old) (made self.new)) }
        ensures err { OnErr result (IsNoMore (made self.old) (made self.new)) };

    /// Makes a new file, in which nothing is yet. An error of the kind `AlreadyExists` if something has the name.
    fn create(&mut self, path: &str) -> io::Result<Self::File>
        ensures file { IfOk result (λ file. is_at file path.now) }
        ensures ok { OnOk result (Adds (create path.now) (made self.old) (made self.new)) }
        ensures err { OnErr result (MayAdd (create path.now) (made self.old) (made self.new)) };

    /// Makes a new file that its owner alone may read, in which nothing is yet. An error of the kind `AlreadyExists` if something
    /// has the name.
    fn create_private(&mut self, path: &str) -> io::Result<Self::File>
        ensures file { IfOk result (λ file. is_at file path.now) }
        ensures ok { OnOk result (Adds (create path.now) (made self.old) (made self.new)) }
        ensures err { OnErr result (MayAdd (create path.now) (made self.old) (made self.new)) };

    /// Makes the mark that a folder is whole, a new file in which nothing is yet. The folder's names are on the disk.
    fn create_mark(&mut self, folder: &str, path: &str) -> io::Result<Self::File>
        requires { Always (made self.old) (IsSettled folder.now) }
        ensures file { IfOk result (λ file. is_at file path.now) }
        ensures ok { OnOk result (Adds (create path.now) (made self.old) (made self.new)) }
        ensures err { OnErr result (MayAdd (create path.now) (made self.old) (made self.new)) };

    /// Opens the file at a path, which is made if nothing stands there.
    fn open_end(&mut self, path: &str) -> io::Result<Self::File>
        ensures file { IfOk result (λ file. is_at file path.now) }
        ensures ok { OnOk result (Adds (create path.now) (made self.old) (made self.new)) }
        ensures err { OnErr result (MayAdd (create path.now) (made self.old) (made self.new)) };

    /// Writes these bytes at the end of a file. Until a sync they may not be on the disk.
    fn write(&mut self, path: &str, file: &mut Self::File, bytes: &[u8]) -> io::Result<()>
        requires { is_at file.old path.now }
        ensures file { is_at file.new path.now }
        ensures ok { OnOk result (Adds (write path.now) (made self.old) (made self.new)) }
        ensures err { OnErr result (MayAdd (write path.now) (made self.old) (made self.new)) };

    /// Writes the bytes of the regular file at another path at the end of a file. Until a sync they may not be on the disk.
    fn write_copy(&mut self, from: &str, path: &str, file: &mut Self::File) -> io::Result<()>
        requires { is_at file.old path.now }
        ensures file { is_at file.new path.now }
        ensures ok { OnOk result (Adds (write path.now) (made self.old) (made self.new)) }
        ensures err { OnErr result (MayAdd (write path.now) (made self.old) (made self.new)) };

    /// Whose the file at a path is and who may read it; if no regular file stands there that its owner can read, whose the
    /// folder is.
    fn owner_of(&mut self, folder: &str, path: &str) -> io::Result<Owner>
        ensures { IsNoMore (made self.old) (made self.new) };

    /// Brings the bytes of a file to the disk.
    fn sync(&mut self, path: &str, file: &mut Self::File) -> io::Result<()>
        requires { is_at file.old path.now }
        ensures file { is_at file.new path.now }
        ensures ok { OnOk result (Adds (sync path.now) (made self.old) (made self.new)) }
        ensures err { OnErr result (IsNoMore (made self.old) (made self.new)) };

    /// Gives a new file, whose bytes are on the disk, another name, in the place of what has that name.
    fn rename(&mut self, from: &str, to: &str) -> io::Result<()>
        requires { Always (made self.old) (IsSynced from.now) }
        ensures ok { OnOk result (Adds (rename from.now to.now) (made self.old) (made self.new)) }
        ensures err { OnErr result (MayAdd (rename from.now to.now) (made self.old) (made self.new)) };

    /// Gives a new file, whose bytes are on the disk, the name of what stands there, in its place. That is kept in a folder, and
    /// the names of what is kept are on the disk.
    fn replace(&mut self, from: &str, to: &str, kept: &str, folder: &str) -> io::Result<()>
        requires synced { Always (made self.old) (IsSynced from.now) }
        requires safe { Always (made self.old) (MayBeReplaced to.now kept.now folder.now) }
        ensures ok { OnOk result (Adds (rename from.now to.now) (made self.old) (made self.new)) }
        ensures err { OnErr result (MayAdd (rename from.now to.now) (made self.old) (made self.new)) };

    /// Gives a new folder, whose names are on the disk, another name.
    fn rename_folder(&mut self, from: &str, to: &str) -> io::Result<()>
        requires { Always (made self.old) (IsSettled from.now) }
        ensures ok { OnOk result (Adds (rename from.now to.now) (made self.old) (made self.new)) }
        ensures err { OnErr result (MayAdd (rename from.now to.now) (made self.old) (made self.new)) };

    /// Gives a new file, whose bytes are on the disk, a second name. An error of the kind `AlreadyExists` if something has that
    /// name.
    fn link_new(&mut self, from: &str, to: &str) -> io::Result<()>
        requires { Always (made self.old) (IsSynced from.now) }
        ensures ok { OnOk result (Adds (link from.now to.now) (made self.old) (made self.new)) }
        ensures err { OnErr result (MayAdd (link from.now to.now) (made self.old) (made self.new)) };

    /// Gives what stands at a path a second name. An error of the kind `AlreadyExists` if something has that name.
    fn link(&mut self, from: &str, to: &str) -> io::Result<()>
        ensures ok { OnOk result (Adds (keep from.now to.now) (made self.old) (made self.new)) }
        ensures err { OnErr result (MayAdd (keep from.now to.now) (made self.old) (made self.new)) };

    /// Whether one file stands at two paths, or two regular files of the same bytes.
    fn is_same(&mut self, path: &str, other: &str) -> io::Result<bool>
        ensures ok { IfOk result (λ is. AreCompared is path.now other.now (made self.old) (made self.new)) }
        ensures err { OnErr result (IsNoMore (made self.old) (made self.new)) };

    /// Whether a path still is the name of an open file.
    fn is_named(&mut self, path: &str, file: &Self::File) -> io::Result<bool>
        ensures { IsNoMore (made self.old) (made self.new) };

    /// Moves a folder to another name. An error of the kind `AlreadyExists` if something has that name.
    fn move_folder(&mut self, from: &str, to: &str) -> io::Result<()>
        ensures ok { OnOk result (Adds (keep from.now to.now) (made self.old) (made self.new)) }
        ensures err { OnErr result (MayAdd (keep from.now to.now) (made self.old) (made self.new)) };

    /// Moves what stands at a path, whatever it is, to another, in the place of what stands there. That is kept in a folder,
    /// and the names of what is kept are on the disk.
    fn move_over(&mut self, from: &str, to: &str, kept: &str, folder: &str) -> io::Result<()>
        requires { Always (made self.old) (MayBeReplaced to.now kept.now folder.now) }
        ensures ok { OnOk result (Adds (rename from.now to.now) (made self.old) (made self.new)) }
        ensures err { OnErr result (MayAdd (rename from.now to.now) (made self.old) (made self.new)) };

    /// Removes the file at a path, if there is one. It is kept in a folder, and the names of what is kept are on the disk.
    fn remove_kept(&mut self, path: &str, kept: &str, folder: &str) -> io::Result<()>
        requires { Always (made self.old) (MayBeReplaced path.now kept.now folder.now) }
        ensures ok { OnOk result (Adds (remove path.now) (made self.old) (made self.new)) }
        ensures err { OnErr result (MayAdd (remove path.now) (made self.old) (made self.new)) };

    /// Makes a new folder. An error of the kind `AlreadyExists` if something has the name.
    fn create_folder(&mut self, path: &str) -> io::Result<()>
        ensures ok { OnOk result (Adds (make path.now) (made self.old) (made self.new)) }
        ensures err { OnErr result (MayAdd (make path.now) (made self.old) (made self.new)) };

    /// Makes the folder, unless it is there.
    fn make_folder(&mut self, path: &str) -> io::Result<()>
        ensures ok { OnOk result (Adds (create path.now) (made self.old) (made self.new)) }
        ensures err { OnErr result (MayAdd (create path.now) (made self.old) (made self.new)) };

    /// Removes the file, if there is one.
    fn remove(&mut self, path: &str) -> io::Result<()>
        ensures ok { OnOk result (Adds (remove path.now) (made self.old) (made self.new)) }
        ensures err { OnErr result (MayAdd (remove path.now) (made self.old) (made self.new)) };

    /// Gives what a run left that was stopped the name of an empty folder of this run's own, or one in such a folder.
    fn move_left(&mut self, from: &str, own: &str) -> io::Result<()>
        ensures ok { OnOk result (Adds (rename from.now own.now) (made self.old) (made self.new)) }
        ensures err { OnErr result (MayAdd (rename from.now own.now) (made self.old) (made self.new)) };

    /// Removes a folder of this run's own with all that is in it. Links are not followed.
    fn remove_tree(&mut self, alloc: Global, path: &str) -> io::Result<()>
        ensures ok { OnOk result (Adds (remove path.now) (made self.old) (made self.new)) }
        ensures err { OnErr result (MayAdd (remove path.now) (made self.old) (made self.new)) };

    /// Brings a folder's names to the disk.
    fn sync_folder(&mut self, path: &str) -> io::Result<()>
        ensures ok { OnOk result (Adds (sync_folder path.now) (made self.old) (made self.new)) }
        ensures err { OnErr result (IsNoMore (made self.old) (made self.new)) };

    /// Gives the mark of work on a folder, which is done, a second name, unless something has that name already. What was
    /// written into a log about the work is on the disk, as are the folder's names.
    fn keep_mark(&mut self, folder: &str, log: &str, mark: &str, kept: &str) -> io::Result<()>
        requires logged { Always (made self.old) (IsSynced log.now) }
        requires settled { Always (made self.old) (IsSettled folder.now) }
        ensures ok { OnOk result (Adds (keep mark.now kept.now) (made self.old) (made self.new)) }
        ensures err { OnErr result (MayAdd (keep mark.now kept.now) (made self.old) (made self.new)) };

    /// Removes the mark of unfinished work on a folder, if there is one. The folder's names are on the disk.
    fn finish(&mut self, folder: &str, mark: &str) -> io::Result<()>
        requires { Always (made self.old) (IsSettled folder.now) }
        ensures ok { OnOk result (Adds (finish mark.now) (made self.old) (made self.new)) }
        ensures err { OnErr result (MayAdd (finish mark.now) (made self.old) (made self.new)) };

    /// Removes the mark of unfinished work on a folder, if there is one. The folder's names are on the disk, as are those in
    /// the folder that keeps what the work replaced.
    fn finish_kept(&mut self, folder: &str, kept: &str, mark: &str) -> io::Result<()>
        requires settled { Always (made self.old) (IsSettled folder.now) }
        requires kept_settled { Always (made self.old) (IsSettled kept.now) }
        ensures ok { OnOk result (Adds (finish mark.now) (made self.old) (made self.new)) }
        ensures err { OnErr result (MayAdd (finish mark.now) (made self.old) (made self.new)) };
}
