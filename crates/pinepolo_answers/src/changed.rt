//! Files of which a manifest says another digest.
use crate::bad_files::problem_of;
use cs_inspection::Badness;
use cs_reports::FileProblem;
use cs_schema::FileName;

/// A file of which a manifest says another digest.
#[derive(Clone, Copy)]
pub struct ChangedFile {
    pub name: FileName,
    /// Whether its own bytes are no file of its name.
    pub is_damaged: bool,
}

/// What is wrong with a bad file, if some are bad because a manifest says so.
pub fn problem_in(changed: &[ChangedFile], name: FileName, badness: Badness) -> FileProblem {
    for file in changed {
        if file.name == name {
            return if file.is_damaged {
                FileProblem::Damaged
            } else {
                FileProblem::Changed
            };
        }
    }
    problem_of(badness)
}

/// Whether one of these files reads well by itself.
pub fn reads_well(changed: &[ChangedFile]) -> bool {
    for file in changed {
        if !file.is_damaged {
            return true;
        }
    }
    false
}
