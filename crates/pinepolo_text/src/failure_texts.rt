//! What is said of a call on a file, a folder or a stream that failed.
//!
//! Texts have the places of those of refusals.
use crate::error_texts::ErrorTexts;
use pinepolo_places::Failure;

/// The texts of a failure after which the same command is run again; `found` is what is wrong if no call failed.
const fn again(said: &'static str, found: &'static str, next: &'static str) -> ErrorTexts {
    ErrorTexts {
        said,
        found,
        state: "",
        next,
        again: "run it again",
    }
}

/// The texts of a failure after which this is done once it is mended.
const fn then(
    said: &'static str,
    state: &'static str,
    next: &'static str,
    again: &'static str,
) -> ErrorTexts {
    ErrorTexts {
        said,
        found: "",
        state,
        next,
        again,
    }
}

/// What resumes work.
const RESUME: &str = "pinepolo {3} --resume {5}";

/// What is said of a failure.
pub fn failure_text(failure: &Failure) -> ErrorTexts {
    match failure {
        Failure::ReadCatalog => again(
            "could not read the catalog at {0}",
            ": not a regular file, or longer than 1 MiB",
            "check that {0} is a store whose disk is mounted, and that its catalog is a regular file of at most 1 MiB",
        ),
        Failure::ReadManifest => again(
            "could not read {0}",
            ": 16 MiB or longer",
            "check that {0} is a file of less than 16 MiB that may be read",
        ),
        Failure::ReadTable => again(
            "could not read {0}",
            "",
            "check that {0} is a file that may be read",
        ),
        Failure::ReadSites => again(
            "could not read {0}",
            ": not a regular file, or longer than 1 MiB",
            "check that it is a regular file of at most 1 MiB that may be read",
        ),
        Failure::ReadStore => again(
            "could not read {0}",
            "",
            "check that {0} is a folder and may be read",
        ),
        Failure::ListStore | Failure::ListSite => again(
            "could not list {0}",
            "",
            "check that {0} is a folder and may be read",
        ),
        Failure::MakeOutput => again(
            "could not write {0}",
            "",
            "check that nothing is at {0} yet, and that its parent folder is there and may be written to",
        ),
        Failure::WriteOutput(_) => then(
            "could not write {0}/{4}",
            "",
            "check that the disk has room, remove {0}, and run it again",
            "remove {0}, and run it again",
        ),
        Failure::MakeNew => again(
            "could not write {0}",
            "",
            "check that its parent folder is there and may be written to",
        ),
        Failure::WriteNew => then(
            "could not write {0}",
            "",
            "check that the disk has room, and run it again with --replace-partial",
            "run it again with --replace-partial",
        ),
        Failure::WriteRecord => again(
            "could not read or write {0}/RESTORING or {0}/replaced",
            "",
            "check that {0} is a folder, and that it, RESTORING and replaced in it may be read and written to",
        ),
        Failure::RemoveRecord(_) => then(
            "could not write {0}/restores.jsonl or remove {0}/RESTORING",
            ": all files are in place, but the {3} is not finished",
            RESUME,
            RESUME,
        ),
        Failure::GiveBack(_) => then(
            "could not remove {0}/RESTORING",
            ": no file has changed, but the {3} counts as unfinished",
            RESUME,
            RESUME,
        ),
        Failure::GoOn(_) => then(
            "could not read the catalog, or read and lock the record of the {3}, at {0}",
            ": the {3} is still unfinished",
            "check that {0} may be read and written to, then pinepolo {3} --resume {5}",
            RESUME,
        ),
        Failure::SyncEnd => then(
            "could not sync {0}",
            ": all files are in place, but a crash may bring RESTORING back",
            "sync -f {1}",
            "sync -f {1}",
        ),
        Failure::ReachSite(_) => then(
            "the folder of site {3} is away, or is not the one in which the work on {0} was begun",
            "",
            "bring it back, and run it again; or give an empty folder on a new disk, or the one in which the work was begun: --to {3}=FOLDER",
            "run it again\nif that cannot be done: give an empty folder on a new disk, or the one in which the work was begun: --to {3}=FOLDER",
        ),
    }
}
