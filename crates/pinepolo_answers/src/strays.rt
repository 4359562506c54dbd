//! What stands in a store's folder that its catalog doesn't name.
use crate::file_lines::FileLine;
use arrayvec::ArrayString;
use pinepolo_places::{JOURNAL, RESTORING};
use std::alloc::{AllocError, Global};

/// The name of a store's catalog.
const CATALOG: &str = "catalog.toml";

/// The name of the folder that keeps what restores and undos replaced.
const REPLACED: &str = "replaced";

/// The paths of the files, in the order of their texts.
fn paths_of(alloc: Global, lines: &[FileLine]) -> Result<Vec<ArrayString<24>>, AllocError> {
    let mut paths = Vec::new(alloc);
    for line in lines {
        paths.push(line.name.path())?;
    }
    paths.sort_unstable();
    Ok(paths)
}

/// Whether a path stands among sorted ones.
fn is_named(paths: &[ArrayString<24>], name: &str) -> bool {
    [CATALOG, RESTORING, JOURNAL, REPLACED].contains(&name)
        || paths
            .binary_search_by(|path| path.as_str().cmp(name))
            .is_ok()
}

/// Those of the names in a store's folder that are none of its files, of its catalog or of restores and undos.
pub fn strays_of(
    alloc: Global,
    lines: &[FileLine],
    names: Vec<String>,
) -> Result<Vec<String>, AllocError> {
    let paths = paths_of(alloc, lines)?;
    let mut strays = Vec::new(alloc);
    for name in names {
        if !is_named(paths.as_slice(), name.as_str()) {
            strays.push(name)?;
        }
    }
    Ok(strays)
}
