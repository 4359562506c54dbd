//! The names of what stands in a store's folder.
ghost use Rattle.std.specs.Prelude.{◌≡◌, [], ◌∷◌, ◌++◌, if◌then◌else◌, map, string_bytes, IfOk, OnOk};
ghost use Rattle.std.specs.FinMap.{entries};
ghost use Rattle.std.specs.List.Sorted.{IsPermutation};
ghost use Rattle.cs_schema.specs.FileNames.{file_path};
ghost use Rattle.verb_cases.specs.Standing.{names_of};

use crate::standing::Standing;
use cs_store::FileSet;
use pinepolo_places::RESTORING;
use std::alloc::{AllocError, Global};

/// The name of a store's catalog.
pub const CATALOG: &str = "catalog.toml";

/// The names of the files.
fn file_names(alloc: Global, files: &FileSet) -> Result<Vec<String>, AllocError>
    ensures { IfOk result (λ names. map string_bytes names.items ≡ map (λ file. file_path file.0) (entries files.now)) }
{
    let mut names = Vec::new(alloc);
    for i in 0..files.len() {
        let (name, _) = files.at(i);
        let path = name.path();
        names.push(String::from_str(alloc, path.as_str())?)?;
    }
    Ok(names)
}

/// Adds the name, if there is such a file.
fn push_if(
    alloc: Global,
    names: &mut Vec<String>,
    is_there: bool,
    name: &str,
) -> Result<(), AllocError>
    ensures { OnOk result (map string_bytes names.new.items
        ≡ map string_bytes names.old.items ++ (if is_there then name.now ∷ [] else [])) }
{
    if is_there {
        names.push(String::from_str(alloc, name)?)?;
    }
    Ok(())
}

/// The names of what stands in the folder of a store, ascending.
pub fn sorted_names(alloc: Global, store: &Standing) -> Result<Vec<String>, AllocError>
    ensures { IfOk result (λ names. IsPermutation (names_of store.now) (map string_bytes names.items)) }
{
    let mut names = file_names(alloc, &store.files)?;
    push_if(alloc, &mut names, store.catalog.is_some(), CATALOG)?;
    push_if(alloc, &mut names, store.restoring.is_some(), RESTORING)?;
    names.sort_unstable();
    Ok(names)
}
