//! Tables as CSV, and new stores, by path.
ghost use Rattle.std.specs.Prelude.{◌≡◌, ℕ, List, ◌≤◌, IfOk, OnOk, IsErrOf};

use cs_folders::Way;
use cs_schema::FileName;
use cs_store::{Sink, StoreFault};
use std::alloc::{AllocError, Global};
use std::io::Read;

/// What takes the files of a new store, and can say what of it could not be written.
pub trait NewFiles {
    /// The path of what takes the bytes of this file, or without a file that of the store, with what has its name already.
    fn unwritten(&self, alloc: Global, at: Option<FileName>) -> Result<String, AllocError>;
}

/// Tables as CSV, and new stores, by path. Places in memory can say by their ghost members what they found and made; those
/// over folders say nothing.
pub trait Tables {
    /// A text, as a stream.
    type Input: Read + Drop;

    /// What takes the files of a new store. Its mark gives the store its name.
    type NewStore: Sink + NewFiles + Drop;

    /// A text that was found: the state before, the path, the stream, and the state after.
    ghost opens_table: { Self → List ℕ → Self.Input → Self → Type 0 };

    /// A new store that was begun: the state before, the path, the bytes of its catalog, what takes its files, and the state
    /// after.
    ghost begins: { Self → List ℕ → List ℕ → Self.NewStore → Self → Type 0 };

    /// A CSV that was written: the state before, the path, the text, and the state after.
    ghost writes_table: { Self → List ℕ → List ℕ → Self → Type 0 };

    /// What stands where something new is to be made. Nothing is changed.
    fn way(&self, path: &str) -> Result<Way, StoreFault>;

    /// The text at this path, a CSV or a manifest, or that of standard input where the path is `-`.
    fn table(&mut self, path: &str) -> Result<Self::Input, StoreFault>
        ensures { IfOk result (λ input. opens_table self.old path.now input self.new) };

    /// Begins a new store of this catalog beside this path, if `replaces` in the place of one that a run left which was
    /// stopped.
    fn new_store(
        &mut self,
        path: &str,
        catalog: &[u8],
        replaces: bool,
    ) -> Result<Self::NewStore, StoreFault>
        ensures { IfOk result (λ store. begins self.old path.now catalog.now store self.new) };

    /// Writes a CSV to a new file, which gets its name when all of it is on the disk. It fails if something has the name.
    fn write_table(&mut self, path: &str, text: &[u8]) -> Result<(), StoreFault>
        ensures { OnOk result (writes_table self.old path.now text.now self.new) };
}
