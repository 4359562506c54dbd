//! What a comparison with a manifest answers.
ghost use Rattle.std.specs.Prelude.{◌≡◌};
ghost use Rattle.std.specs.List.{list_any};
ghost use Rattle.pinepolo_answers.specs.Statuses.{verified_status, differing_status, is_unreadable};

use cs_manifest::{Comparison, Difference};
use cs_reports::FileProblem;
use cs_schema::{Catalog, FileName};
use pinepolo_places::{DEVICE, DONE, REFUSED};

/// A store beside a manifest.
#[derive(Drop)]
pub struct Verified {
    /// The catalog of the store.
    pub catalog: Catalog,
    /// How many files were compared, with the catalog.
    pub files: usize,
    /// What differs.
    pub comparison: Comparison,
}

/// Whether a file could not be read.
fn is_unreadable(how: &Difference) -> bool
    ensures { result ≡ is_unreadable how.now }
{
    matches!(how, Difference::Unreadable)
}

/// What is wrong with a file that differs.
pub fn difference_problem(how: Difference) -> FileProblem {
    match how {
        Difference::Missing => FileProblem::Missing,
        Difference::Unreadable => FileProblem::Unreadable,
        Difference::NotNamed => FileProblem::NotNamed,
        Difference::Changed => FileProblem::Changed,
    }
}

/// Whether one of the files could not be read.
fn any_unreadable(files: &[(FileName, Difference)]) -> bool
    ensures { result ≡ list_any (λ file. is_unreadable file.1) files.now }
{
    files.iter().any(|file| is_unreadable(&file.1))
}

/// The status that tells how a catalog and files differ.
fn status_of(catalog: Option<Difference>, files: &[(FileName, Difference)]) -> u8
    ensures { result ≡ differing_status catalog files.now }
{
    if any_unreadable(files) {
        return DEVICE;
    }
    match (catalog, files) {
        (None, []) => DONE,
        _ => REFUSED,
    }
}

impl Verified {
    /// The status that tells it: 4 where a file could not be read, 0 where none differs, else 1.
    pub fn status(&self) -> u8
        ensures { result ≡ verified_status self.now.comparison }
    {
        status_of(self.comparison.catalog, self.comparison.files.as_slice())
    }
}
