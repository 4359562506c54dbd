//! Rebuilt files beside those that stand.
ghost use Rattle.std.specs.Prelude.{◌≡◌, ◌↔◌, IsTrue, Some};
ghost use Rattle.std.specs.FinMap.{entries};
ghost use Rattle.cs_store.specs.FileSet.{contents_of};
ghost use Rattle.cs_drill.specs.Drills.{IsFirstOther};

use cs_schema::FileName;
use cs_store::FileSet;

/// Whether these bytes stand under a name.
fn stands(files: &FileSet, name: FileName, bytes: &[u8]) -> bool
    ensures { IsTrue result ↔ (contents_of files.now name ≡ Some bytes.now) }
{
    match files.get(name) {
        Some(standing) => standing == bytes,
        None => false,
    }
}

/// The first rebuilt file of which other bytes stand, or none.
pub fn first_other(files: &FileSet, rebuilt: &FileSet) -> Option<FileName>
    ensures { IsFirstOther (contents_of files.now) (entries rebuilt.now) result }
{
    for i in 0..rebuilt.len() {
        let (name, bytes) = rebuilt.at(i);
        if !stands(files, name, bytes) {
            return Some(name);
        }
    }
    None
}
