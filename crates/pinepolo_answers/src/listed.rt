//! What a list of a store's files answers.
ghost use Rattle.std.specs.Prelude.{◌≡◌};
ghost use Rattle.std.specs.List.{list_any};
ghost use Rattle.pinepolo_answers.specs.Statuses.{listed_status, is_missing, is_unread};

use cs_manifest::Digested;
use cs_schema::{Catalog, FileName};
use pinepolo_places::{DEVICE, DONE, REFUSED};

/// The manifest of a store, and what its files came to.
#[derive(Drop)]
pub struct Listed {
    /// The catalog of the store.
    pub catalog: Catalog,
    /// Its files, each with what it came to, in the order of their names.
    pub files: Vec<(FileName, Digested)>,
    /// The manifest: the lines of the catalog and of the files that are there.
    pub text: Vec<u8>,
}

/// Whether a file could not be read.
fn is_unread(found: &Digested) -> bool
    ensures { result ≡ is_unread found.now }
{
    matches!(found, Digested::Unreadable)
}

/// Whether a file is missing.
fn is_missing(found: &Digested) -> bool
    ensures { result ≡ is_missing found.now }
{
    matches!(found, Digested::Missing)
}

/// Whether one of the files could not be read.
fn any_unread(files: &[(FileName, Digested)]) -> bool
    ensures { result ≡ list_any (λ file. is_unread file.1) files.now }
{
    files.iter().any(|file| is_unread(&file.1))
}

/// Whether one of the files is missing.
fn any_missing(files: &[(FileName, Digested)]) -> bool
    ensures { result ≡ list_any (λ file. is_missing file.1) files.now }
{
    files.iter().any(|file| is_missing(&file.1))
}

impl Listed {
    /// The status that tells it: 4 where a file could not be read, else 1 where one is missing, else 0.
    pub fn status(&self) -> u8
        ensures { result ≡ listed_status self.now.files.items }
    {
        status_of(self.files.as_slice())
    }
}

/// The status that tells what files came to.
fn status_of(files: &[(FileName, Digested)]) -> u8
    ensures { result ≡ listed_status files.now }
{
    if any_unread(files) {
        return DEVICE;
    }
    if any_missing(files) { REFUSED } else { DONE }
}
