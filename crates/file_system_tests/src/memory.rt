//! A file system in memory.
ghost use Rattle.std.specs.Prelude.{◌≡◌, ⊤, IfOk, OnErr, OnOk, string_bytes};
ghost use Rattle.cs_file_system.specs.Calls.{Adds, MayAdd};
ghost use Rattle.file_system_tests.specs.History.{call_of, calls_of};

use crate::events::What;
use crate::failing::Failing;
use crate::log::Log;
use crate::open_file::MemoryFile;
use cs_file_system::{FileSystem, Identity, Owner, Standing};
use std::alloc::Global;
use std::collections::BTreeMap;
use std::io;
use std::io::ErrorKind;

/// A file system that remembers its calls, and what stands at each path, but no bytes. One call can be made to fail.
#[derive(Drop)]
pub struct MemoryFiles {
    alloc: Global,
    pub log: Log,
    failing: Failing,
    standing: BTreeMap<String, Standing>,
    /// Whether it has hard links.
    pub links: bool,
    /// Whether any two files in it have the same bytes.
    pub alike: bool,
}

/// Notes what stands at a path now.
fn place(
    alloc: Global,
    standing: &mut BTreeMap<String, Standing>,
    path: &str,
    now: Standing,
) -> io::Result<()> {
    let path = String::from_str(alloc, path)?;
    match standing.insert(path, now) {
        Ok(_) => Ok(()),
        Err(_) => Err(io::Error::from(ErrorKind::OutOfMemory)),
    }
}

impl MemoryFiles {
    /// Nothing stands in it. One of its calls fails after so many of them, or none does.
    pub fn new(alloc: Global, before_failure: Option<u64>) -> Self {
        Self {
            alloc,
            log: Log::new(alloc),
            failing: Failing(before_failure),
            standing: BTreeMap::new(alloc),
            links: true,
            alike: true,
        }
    }

    /// Lets this stand at a path, by no call.
    pub fn let_stand(&mut self, path: &str, what: Standing) -> io::Result<()> {
        place(self.alloc, &mut self.standing, path, what)
    }

    /// What stands at a path.
    fn at(&self, path: &str) -> Standing {
        match self.standing.get(path) {
            Some(standing) => *standing,
            None => Standing::Nothing,
        }
    }

    /// Whether a file can get this name by a link: an error if something has it, or there are no links.
    fn require_links(&self, to: &str) -> io::Result<()> {
        if self.at(to) != Standing::Nothing {
            return Err(io::Error::from(ErrorKind::AlreadyExists));
        }
        if self.links {
            Ok(())
        } else {
            Err(io::Error::from(ErrorKind::Unsupported))
        }
    }

    /// A file that is opened at a path.
    fn open(&self, path: &str) -> io::Result<MemoryFile>
        ensures { IfOk result (λ file. string_bytes file.path ≡ path.now) }
    {
        Ok(MemoryFile {
            path: String::from_str(self.alloc, path)?,
        })
    }

    /// Moves what stands at a path to another.
    fn move_to(&mut self, what: What, from: &str, to: &str) -> io::Result<()>
        ensures ok { OnOk result (Adds (call_of what from.now to.now)
            (λ calls. calls ≡ calls_of self.old.log.events.items) (λ calls. calls ≡ calls_of self.new.log.events.items)) }
        ensures err { OnErr result (MayAdd (call_of what from.now to.now)
            (λ calls. calls ≡ calls_of self.old.log.events.items) (λ calls. calls ≡ calls_of self.new.log.events.items)) }
    {
        let moved = self.at(from);
        self.failing.begin()?;
        place(self.alloc, &mut self.standing, from, Standing::Nothing)?;
        place(self.alloc, &mut self.standing, to, moved)?;
        self.log.add(what, from, to)
    }
}

impl FileSystem for MemoryFiles {
    type File = MemoryFile;

    ghost made = { λ s calls. calls ≡ calls_of s.log.events.items };

    ghost is_at = { λ file path. string_bytes file.path ≡ path };

    ghost has_identity = { λ path identity. identity.number ≡ 0 };

    ghost has_no_link = { λ path. ⊤ };

    fn identity(&mut self, _path: &str) -> io::Result<Identity> {
        Ok(Identity {
            device: 0,
            number: 0,
        })
    }

    fn is_link(&mut self, _path: &str) -> io::Result<bool> {
        Ok(false)
    }

    fn look(&mut self, path: &str) -> io::Result<Standing> {
        match self.at(path) {
            Standing::Nothing => {
                self.failing.begin()?;
                self.log.add(What::Miss, path, "")?;
                Ok(Standing::Nothing)
            }
            Standing::Folder => {
                self.failing.begin()?;
                self.log.add(What::See, path, "")?;
                Ok(Standing::Folder)
            }
            Standing::File => {
                self.failing.begin()?;
                self.log.add(What::See, path, "")?;
                Ok(Standing::File)
            }
        }
    }

    fn create(&mut self, path: &str) -> io::Result<MemoryFile> {
        if self.at(path) != Standing::Nothing {
            return Err(io::Error::from(ErrorKind::AlreadyExists));
        }
        let file = self.open(path)?;
        self.failing.begin()?;
        place(self.alloc, &mut self.standing, path, Standing::File)?;
        self.log.add(What::Create, path, "")?;
        Ok(file)
    }

    fn create_private(&mut self, path: &str) -> io::Result<MemoryFile> {
        self.create(path)
    }

    fn create_mark(&mut self, _folder: &str, path: &str) -> io::Result<MemoryFile> {
        self.create(path)
    }

    fn open_end(&mut self, path: &str) -> io::Result<MemoryFile> {
        let file = self.open(path)?;
        self.failing.begin()?;
        place(self.alloc, &mut self.standing, path, Standing::File)?;
        self.log.add(What::Create, path, "")?;
        Ok(file)
    }

    fn write(&mut self, path: &str, _file: &mut MemoryFile, _bytes: &[u8]) -> io::Result<()> {
        self.failing.begin()?;
        self.log.add(What::Write, path, "")
    }

    fn write_copy(&mut self, _from: &str, path: &str, _file: &mut MemoryFile) -> io::Result<()> {
        self.failing.begin()?;
        self.log.add(What::Write, path, "")
    }

    fn owner_of(&mut self, _folder: &str, _path: &str) -> io::Result<Owner> {
        let (user, group, mode) = (0, 0, 0);
        Ok(Owner { user, group, mode })
    }

    fn sync(&mut self, path: &str, _file: &mut MemoryFile) -> io::Result<()> {
        self.failing.begin()?;
        self.log.add(What::Sync, path, "")
    }

    fn rename(&mut self, from: &str, to: &str) -> io::Result<()> {
        self.move_to(What::Rename, from, to)
    }

    fn replace(&mut self, from: &str, to: &str, _kept: &str, _folder: &str) -> io::Result<()> {
        self.move_to(What::Rename, from, to)
    }

    fn rename_folder(&mut self, from: &str, to: &str) -> io::Result<()> {
        self.move_to(What::Rename, from, to)
    }

    fn link_new(&mut self, from: &str, to: &str) -> io::Result<()> {
        self.require_links(to)?;
        self.failing.begin()?;
        place(self.alloc, &mut self.standing, to, Standing::File)?;
        self.log.add(What::Link, from, to)
    }

    fn link(&mut self, from: &str, to: &str) -> io::Result<()> {
        self.require_links(to)?;
        self.failing.begin()?;
        place(self.alloc, &mut self.standing, to, Standing::File)?;
        self.log.add(What::Keep, from, to)
    }

    fn is_same(&mut self, path: &str, other: &str) -> io::Result<bool> {
        if !self.alike {
            return Ok(false);
        }
        self.failing.begin()?;
        self.log.add(What::Same, path, other)?;
        Ok(true)
    }

    fn is_named(&mut self, path: &str, _file: &MemoryFile) -> io::Result<bool> {
        Ok(self.at(path) == Standing::File)
    }

    fn move_folder(&mut self, from: &str, to: &str) -> io::Result<()> {
        if self.at(to) != Standing::Nothing {
            return Err(io::Error::from(ErrorKind::AlreadyExists));
        }
        self.move_to(What::Keep, from, to)
    }

    fn move_over(&mut self, from: &str, to: &str, _kept: &str, _folder: &str) -> io::Result<()> {
        self.move_to(What::Rename, from, to)
    }

    fn remove_kept(&mut self, path: &str, _kept: &str, _folder: &str) -> io::Result<()> {
        self.remove(path)
    }

    fn create_folder(&mut self, path: &str) -> io::Result<()> {
        if self.at(path) != Standing::Nothing {
            return Err(io::Error::from(ErrorKind::AlreadyExists));
        }
        self.failing.begin()?;
        place(self.alloc, &mut self.standing, path, Standing::Folder)?;
        self.log.add(What::Make, path, "")
    }

    fn make_folder(&mut self, path: &str) -> io::Result<()> {
        self.failing.begin()?;
        place(self.alloc, &mut self.standing, path, Standing::Folder)?;
        self.log.add(What::Create, path, "")
    }

    fn remove(&mut self, path: &str) -> io::Result<()> {
        self.failing.begin()?;
        place(self.alloc, &mut self.standing, path, Standing::Nothing)?;
        self.log.add(What::Remove, path, "")
    }

    fn move_left(&mut self, from: &str, own: &str) -> io::Result<()> {
        self.move_to(What::Rename, from, own)
    }

    fn remove_tree(&mut self, _alloc: Global, path: &str) -> io::Result<()> {
        self.remove(path)
    }

    fn sync_folder(&mut self, path: &str) -> io::Result<()> {
        self.failing.begin()?;
        self.log.add(What::SyncFolder, path, "")
    }

    fn keep_mark(&mut self, _folder: &str, _log: &str, mark: &str, kept: &str) -> io::Result<()> {
        self.failing.begin()?;
        place(self.alloc, &mut self.standing, kept, Standing::File)?;
        self.log.add(What::Keep, mark, kept)
    }

    fn finish(&mut self, _folder: &str, mark: &str) -> io::Result<()> {
        self.failing.begin()?;
        place(self.alloc, &mut self.standing, mark, Standing::Nothing)?;
        self.log.add(What::Finish, mark, "")
    }

    fn finish_kept(&mut self, folder: &str, _kept: &str, mark: &str) -> io::Result<()> {
        self.finish(folder, mark)
    }
}
