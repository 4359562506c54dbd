//! Moving back what an undo can't copy.
ghost use Rattle.std.specs.Prelude.{◌≡◌};

use crate::changing::move_name_back;
use crate::shelf::FolderShelf;
use cs_file_system::SystemFiles;
use cs_schema::FileName;
use cs_shelf::Work;
use std::io;
use std::rt::Files;

impl<R: Files + Copy + Drop> FolderShelf<R> {
    /// Whether what an undo puts back under a name is moved there.
    pub(crate) fn is_moved(&self, name: FileName) -> bool {
        match &self.taken {
            Some(taken) => taken.moves.as_slice().contains(&name),
            None => false,
        }
    }

    /// Moves back what is kept of a name. What stands there now was kept before.
    pub(crate) fn move_back(&mut self, name: FileName) -> io::Result<()>
        ensures { self.new.faults ≡ self.old.faults }
    {
        let Some(taken) = &self.taken else {
            return Ok(());
        };
        let Work::Undo(number) = taken.record.work else {
            return Ok(());
        };
        self.has_changed = true;
        move_name_back(
            &mut SystemFiles(&self.rt),
            self.alloc,
            &self.folders,
            &taken.record,
            name,
            number,
        )
    }
}
