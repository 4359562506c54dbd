//! Whether there are no files under some names.
ghost use Rattle.std.specs.Prelude.{◌≡◌, ◌↔◌, ℕ, ◌<◌, IsTrue, None, Some};
ghost use Rattle.cs_store.specs.FileSet.{contents_of};
ghost use Rattle.cs_inspection.specs.Laws.{AreAbsent};

use cs_schema::FileName;
use cs_store::FileSet;

/// Whether there is no file under any of these names.
pub fn are_absent(files: &FileSet, names: &[FileName]) -> bool
    ensures { IsTrue result ↔ AreAbsent (contents_of files.now) names.now }
{
    for name in names {
        match files.get(*name) {
            Some(_) => return false,
            None => {}
        }
    }
    true
}
