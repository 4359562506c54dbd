//! The file system of the system. Each call is one of `std::fs`; that the trait says what it does is trusted.
ghost use Rattle.std.specs.Prelude.{⊤};
ghost use Rattle.cs_file_system.specs.System.{system_calls, system_identity, system_no_link};

use crate::calls::FileSystem;
use crate::copying::{copy_all, is_named, is_same, open_unlinked};
use crate::identity::Identity;
use crate::owner::{Owner, PRIVATE, owner_of};
use crate::standing::Standing;
use std::alloc::Global;
use std::fs::{OpenFile, OpenOptions};
use std::io::{ErrorKind, Write};
use std::os::unix::fs::{MetadataExt, OpenOptionsExt};
use std::rt::Files;
use std::{fs, io};

/// The file system of the system.
#[derive(Drop)]
pub struct SystemFiles<'a, R>(pub &'a R);

/// That nothing is done if something has the name already.
fn unless_taken(done: io::Result<()>) -> io::Result<()> {
    match done {
        Err(e) if e.kind() == ErrorKind::AlreadyExists => Ok(()),
        done => done,
    }
}

/// An error if something has the name already.
fn require_free<R: Files>(rt: &R, path: &str) -> io::Result<()> {
    match fs::symlink_metadata(rt, path) {
        Ok(_) => Err(io::Error::from(ErrorKind::AlreadyExists)),
        Err(e) if e.kind() == ErrorKind::NotFound => Ok(()),
        Err(e) => Err(e),
    }
}

/// That nothing is done if nothing is there.
fn unless_gone(done: io::Result<()>) -> io::Result<()> {
    match done {
        Err(e) if e.kind() == ErrorKind::NotFound => Ok(()),
        done => done,
    }
}

#[tactic(auto, using(crate::specs::System::trusted, crate::specs::System::trusted_identity, crate::specs::System::trusted_no_link))]
impl<R: Files> FileSystem for SystemFiles<'_, R> {
    type File = R::File;

    ghost made = { λ files calls. system_calls files calls };

    ghost is_at = { λ file path. ⊤ };

    ghost has_identity = { system_identity };

    ghost has_no_link = { system_no_link };

    fn identity(&mut self, path: &str) -> io::Result<Identity> {
        let found = fs::metadata(self.0, path)?;
        Ok(Identity {
            device: found.dev(),
            number: found.ino(),
        })
    }

    fn is_link(&mut self, path: &str) -> io::Result<bool> {
        match fs::symlink_metadata(self.0, path) {
            Ok(found) => Ok(found.is_symlink()),
            Err(e) if e.kind() == ErrorKind::NotFound => Ok(false),
            Err(e) => Err(e),
        }
    }

    fn look(&mut self, path: &str) -> io::Result<Standing> {
        match fs::symlink_metadata(self.0, path) {
            Ok(found) if found.is_dir() => Ok(Standing::Folder),
            Ok(_) => Ok(Standing::File),
            Err(e) if e.kind() == ErrorKind::NotFound => Ok(Standing::Nothing),
            Err(e) => Err(e),
        }
    }

    fn create(&mut self, path: &str) -> io::Result<R::File> {
        let mut how = OpenOptions::new();
        how.write(true).create_new(true).open(self.0, path)
    }

    fn create_private(&mut self, path: &str) -> io::Result<R::File> {
        let mut how = OpenOptions::new();
        how.write(true).create_new(true).mode(PRIVATE);
        how.open(self.0, path)
    }

    fn create_mark(&mut self, _folder: &str, path: &str) -> io::Result<R::File> {
        self.create(path)
    }

    fn open_end(&mut self, path: &str) -> io::Result<R::File> {
        let mut how = OpenOptions::new();
        how.append(true).create(true).open(self.0, path)
    }

    fn write(&mut self, _path: &str, file: &mut R::File, bytes: &[u8]) -> io::Result<()> {
        file.write_all(bytes)
    }

    fn write_copy(&mut self, from: &str, _path: &str, file: &mut R::File) -> io::Result<()> {
        copy_all(&mut open_unlinked(self.0, from)?, file)
    }

    fn owner_of(&mut self, folder: &str, path: &str) -> io::Result<Owner> {
        owner_of(self.0, folder, path)
    }

    fn sync(&mut self, _path: &str, file: &mut R::File) -> io::Result<()> {
        file.sync_all()
    }

    fn rename(&mut self, from: &str, to: &str) -> io::Result<()> {
        fs::rename(self.0, from, to)
    }

    fn replace(&mut self, from: &str, to: &str, _kept: &str, _folder: &str) -> io::Result<()> {
        fs::rename(self.0, from, to)
    }

    fn rename_folder(&mut self, from: &str, to: &str) -> io::Result<()> {
        fs::rename(self.0, from, to)
    }

    fn link_new(&mut self, from: &str, to: &str) -> io::Result<()> {
        fs::hard_link(self.0, from, to)
    }

    fn link(&mut self, from: &str, to: &str) -> io::Result<()> {
        fs::hard_link(self.0, from, to)
    }

    fn is_same(&mut self, path: &str, other: &str) -> io::Result<bool> {
        is_same(self.0, path, other)
    }

    fn is_named(&mut self, path: &str, file: &R::File) -> io::Result<bool> {
        is_named(self.0, path, file)
    }

    fn move_folder(&mut self, from: &str, to: &str) -> io::Result<()> {
        require_free(self.0, to)?;
        fs::rename(self.0, from, to)
    }

    fn move_over(&mut self, from: &str, to: &str, _kept: &str, _folder: &str) -> io::Result<()> {
        fs::rename(self.0, from, to)
    }

    fn remove_kept(&mut self, path: &str, _kept: &str, _folder: &str) -> io::Result<()> {
        self.remove(path)
    }

    fn create_folder(&mut self, path: &str) -> io::Result<()> {
        fs::create_dir(self.0, path)
    }

    fn make_folder(&mut self, path: &str) -> io::Result<()> {
        unless_taken(fs::create_dir(self.0, path))
    }

    fn remove(&mut self, path: &str) -> io::Result<()> {
        unless_gone(fs::remove_file(self.0, path))
    }

    fn move_left(&mut self, from: &str, own: &str) -> io::Result<()> {
        fs::rename(self.0, from, own)
    }

    fn remove_tree(&mut self, alloc: Global, path: &str) -> io::Result<()> {
        self.0.remove_dir_all(alloc, path)
    }

    fn sync_folder(&mut self, path: &str) -> io::Result<()> {
        fs::open(self.0, path)?.sync_all()
    }

    fn keep_mark(&mut self, _folder: &str, _log: &str, mark: &str, kept: &str) -> io::Result<()> {
        unless_taken(fs::hard_link(self.0, mark, kept))
    }

    fn finish(&mut self, _folder: &str, mark: &str) -> io::Result<()> {
        unless_gone(fs::remove_file(self.0, mark))
    }

    fn finish_kept(&mut self, _folder: &str, _kept: &str, mark: &str) -> io::Result<()> {
        unless_gone(fs::remove_file(self.0, mark))
    }
}
