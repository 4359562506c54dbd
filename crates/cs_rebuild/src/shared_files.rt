//! The files of a store, shared by two readers. They may be released before there is an answer.
ghost use Rattle.std.specs.Prelude.{◌≡◌, Some, None, IfOk};
ghost use Rattle.cs_store.specs.FileSet.{Files};
ghost use Rattle.cs_rebuild.specs.SharedFiles.{shared_files};

use cs_store::FileSet;
use std::alloc::{AllocError, Global};
use std::sync::Arc;

/// The files of a store, as one reader has them.
#[derive(Drop)]
pub enum SharedFiles<'a> {
    /// Owned by the caller.
    Borrowed(&'a FileSet),
    /// Shared: their memory is freed once each reader has released them.
    Shared(Arc<FileSet>),
    /// Released.
    Released,
}

impl<'a> SharedFiles<'a> {
    /// The files, which have not been released.
    pub fn files(&self) -> &FileSet
        requires { (files : Files) × shared_files self.now ≡ Some files }
        ensures { shared_files self.now ≡ Some result.now }
    {
        match self {
            SharedFiles::Borrowed(files) => files,
            SharedFiles::Shared(files) => files,
            SharedFiles::Released => unreachable!(),
        }
    }

    /// Files for two readers to share.
    pub fn shared(
        alloc: Global,
        files: FileSet,
    ) -> Result<(SharedFiles<'a>, SharedFiles<'a>), AllocError>
        ensures first { IfOk result (λ both. shared_files both.0 ≡ Some files) }
        ensures second { IfOk result (λ both. shared_files both.1 ≡ Some files) }
    {
        let files = Arc::new(alloc, files)?;
        let others = Arc::try_clone(&files)?;
        Ok((SharedFiles::Shared(files), SharedFiles::Shared(others)))
    }

    /// Releases the files.
    pub fn release(&mut self)
        ensures { shared_files self.new ≡ None }
    {
        *self = SharedFiles::Released;
    }
}
