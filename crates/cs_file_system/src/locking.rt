//! Files that one program at a time has locked.
ghost use Rattle.std.specs.Prelude.{OnOk};
ghost use Rattle.cs_file_system.specs.System.{system_locked};

use crate::failed_calls::Operation;
use crate::noted_files::NotedFile;
use std::fs::TryLockError;
use std::io;
use std::io::ErrorKind;

/// How often a lock is asked for before another program counts as having it: one that looks whether there is work on a store
/// has the lock for a moment.
const TRIES: u32 = 1_000;

/// An open file that can be locked.
pub trait TryLock {
    /// The file was locked by this program, which keeps the lock as long as the file is open.
    ghost is_locked: { Self → Type 0 };

    /// Locks the file as long as it is open. An error of the kind `WouldBlock` if another program has it locked.
    fn take_lock(&self) -> io::Result<()>
        ensures { OnOk result (is_locked self.now) };
}

/// What a try to lock came to.
fn lock_error(tried: Result<(), TryLockError>) -> io::Result<()> {
    match tried {
        Ok(()) => Ok(()),
        Err(TryLockError::WouldBlock) => Err(io::Error::from(ErrorKind::WouldBlock)),
        Err(TryLockError::Error(e)) => Err(e),
    }
}

/// Whether another program has a file locked, by a lock that is let go at once.
pub fn is_held(file: &NotedFile) -> io::Result<bool> {
    match lock_error(file.file.try_lock_shared()) {
        Ok(()) => {
            file.noted(Operation::Lock, file.file.unlock())?;
            Ok(false)
        }
        Err(e) if e.kind() == ErrorKind::WouldBlock => Ok(true),
        Err(e) => file.noted(Operation::Lock, Err(e)),
    }
}

#[tactic(auto, using(crate::specs::System::trusted_locked))]
impl TryLock for NotedFile {
    ghost is_locked = { system_locked };

    fn take_lock(&self) -> io::Result<()> {
        for _ in 1..TRIES {
            match lock_error(self.file.try_lock()) {
                Err(e) if e.kind() == ErrorKind::WouldBlock => {}
                done => return self.noted(Operation::Lock, done),
            }
        }
        self.noted(Operation::Lock, lock_error(self.file.try_lock()))
    }
}
