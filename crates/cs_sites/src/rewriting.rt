//! Writing a SITES file anew, with other folders.
ghost use Rattle.std.specs.Prelude.{◌≡◌, true, IfOk, IfSome, string_bytes};
ghost use Rattle.cs_sites.specs.Reading.{IsSitesOf};

use crate::SitesFault;
use crate::entries::SiteFolder;
use crate::reading::read_sites;
use std::alloc::{AllocError, Global};

/// The folder that the line of a text is to name, if it names one that changes. `table` counts the tables up to the line.
fn new_folder<'a>(
    line: &str,
    table: usize,
    old: &[SiteFolder],
    new: &'a [SiteFolder],
) -> Option<&'a str> {
    let value = line.trim_start().strip_prefix("folder")?.trim_start();
    if !value.starts_with("=") {
        return None;
    }
    let at = table.checked_sub(1)?;
    let (old, new) = (old.get(at)?, new.get(at)?);
    if old.folder.as_str() == new.folder.as_str() {
        return None;
    }
    Some(new.folder.as_str())
}

/// The lines of a text, but for those that name a folder which changes.
fn changed_lines(
    alloc: Global,
    text: &str,
    old: &[SiteFolder],
    new: &[SiteFolder],
) -> Result<String, AllocError> {
    let mut lines = String::new(alloc);
    let mut table = 0usize;
    for line in text.lines() {
        if line.trim_start().starts_with("[[site]]") {
            table = table.saturating_add(1);
        }
        let changed = match new_folder(line, table, old, new) {
            Some(folder) => format!(in alloc; "folder = {folder:?}\n")?,
            None => format!(in alloc; "{line}\n")?,
        };
        lines.push_str(changed.as_str())?;
    }
    Ok(lines)
}

/// Whether two lists name the same folders of the same sites, in one order.
fn are_same(one: &[SiteFolder], other: &[SiteFolder]) -> bool
    ensures { result ≡ true → one.now ≡ other.now }
{
    if one.len() != other.len() {
        return false;
    }
    for at in 0..one.len() {
        let left = &one[at];
        let right = &other[at];
        if left.number != right.number || left.folder.as_str() != right.folder.as_str() {
            return false;
        }
    }
    true
}

/// The text of a SITES file with other folders, in the order of its tables: `old` is what it names, and `new` what it is to
/// name. All else that stands in it stays. None if a folder that changes has no line of its own.
pub fn with_folders(
    alloc: Global,
    text: &str,
    old: &[SiteFolder],
    new: &[SiteFolder],
) -> Result<Option<String>, AllocError>
    ensures { IfOk result (λ made. IfSome made (λ text. IsSitesOf (string_bytes text) new.now)) }
{
    let made = changed_lines(alloc, text, old, new)?;
    match read_sites(alloc, made.as_str().as_bytes()) {
        Ok(read) => {
            if are_same(read.as_slice(), new) {
                Ok(Some(made))
            } else {
                Ok(None)
            }
        }
        Err(SitesFault::Memory) => Err(AllocError),
        Err(_) => Ok(None),
    }
}
