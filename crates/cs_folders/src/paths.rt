//! The paths of files in a folder.
ghost use Rattle.std.specs.Prelude.{◌≡◌, ◌++◌, IfOk, codes, string_bytes};
ghost use Rattle.cs_folders.specs.Paths.{file_at};

use cs_schema::FileName;
use cs_store::StoreFault;
use std::alloc::{AllocError, Global};

/// The path of what has this name in a folder.
pub fn path_in(alloc: Global, folder: &str, name: &str) -> Result<String, AllocError>
    ensures { IfOk result (λ path. string_bytes path ≡ folder.now ++ codes "/" ++ name.now) }
{
    format!(in alloc; "{folder}/{name}")
}

/// The path of a store's file in a folder.
pub fn file_in(alloc: Global, folder: &str, name: FileName) -> Result<String, AllocError>
    ensures { IfOk result (λ path. string_bytes path ≡ file_at folder.now name) }
{
    let name = name.path();
    path_in(alloc, folder, name.as_str())
}

/// The fault of a refused allocation.
pub fn no_memory(_refused: AllocError) -> StoreFault
    ensures { result ≡ StoreFault.Memory }
{
    StoreFault::Memory
}
