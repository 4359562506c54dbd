//! Writes manifests.
ghost use Rattle.std.specs.Prelude.{◌≡◌, ◌++◌, IfOk, OnOk};
ghost use Rattle.cs_manifest.specs.Lines.{manifest_text, file_line};

use crate::digesting::Digested;
use crate::line::{CATALOG, push_line};
use cs_schema::FileName;
use std::alloc::{AllocError, Global};

/// The manifest of a store: a line for its catalog, which has this digest, and one for each file that exists.
pub fn write_manifest(
    alloc: Global,
    catalog: &[u8; 32],
    files: &[(FileName, Digested)],
) -> Result<Vec<u8>, AllocError>
    ensures { IfOk result (λ text. text.items ≡ manifest_text catalog.now files.now) }
{
    let mut text = Vec::new(alloc);
    push_line(&mut text, CATALOG, catalog)?;
    for (name, found) in files {
        push_file(&mut text, *name, found)?;
    }
    Ok(text)
}

/// Appends the line of a file, if it exists.
fn push_file(text: &mut Vec<u8>, name: FileName, found: &Digested) -> Result<(), AllocError>
    ensures { OnOk result (text.new.items ≡ text.old.items ++ file_line (name, found.now)) }
{
    match found {
        Digested::Found(digest) => push_line(text, name.path().as_str(), digest),
        Digested::Missing | Digested::Unreadable => Ok(()),
    }
}
