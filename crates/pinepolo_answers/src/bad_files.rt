//! Bad files with their sites.
use crate::changed::{ChangedFile, problem_in};
use cs_inspection::Badness;
use cs_reports::{BadFile, FileProblem};
use cs_schema::{Catalog, FileName};
use std::alloc::{AllocError, Global};

/// What is wrong with a file that was inspected.
pub fn problem_of(badness: Badness) -> FileProblem {
    match badness {
        Badness::Unreadable => FileProblem::Unreadable,
        Badness::Missing => FileProblem::Missing,
        Badness::Damaged => FileProblem::Damaged,
    }
}

/// Bad files with their sites; of some a manifest says another digest.
pub fn files_of(
    alloc: Global,
    catalog: &Catalog,
    bad: &[(FileName, Badness)],
    changed: &[ChangedFile],
) -> Result<Vec<BadFile>, AllocError> {
    let mut files = Vec::new(alloc);
    for (name, badness) in bad {
        let problem = problem_in(changed, *name, *badness);
        files.push(BadFile::new(catalog, *name, problem))?;
    }
    Ok(files)
}
