//! The folders of a catalog's sites.
ghost use Rattle.std.specs.Prelude.{◌≡◌, ◌==◌, ◌+◌, ◌<◌, ℕ, true, [], IfOk, IfErr, IfSome, IfNone, map, option_map, nat_le, slice_get, string_bytes, unwrap_or, vec_len};
ghost use Rattle.std.specs.List.{list_all, list_any};
ghost use Rattle.std.specs.Path.{path_join, path_parent};
ghost use Rattle.cs_sites.specs.Placing.{folder_at, IsMisplaced};

use crate::SitesFault;
use crate::entries::{SiteFolder, push};
use std::alloc::{AllocError, Global};
use std::path::{Path, PathBuf};

/// The path of a folder that a file names: a relative one begins at the folder of the file.
pub fn folder_beside(alloc: Global, file: &str, folder: &str) -> Result<String, AllocError>
    ensures { IfOk result (λ path. string_bytes path ≡ path_join (unwrap_or (path_parent file.now) []) folder.now) }
{
    let base = match Path::new(file).parent() {
        Some(parent) => parent.to_path_buf(alloc),
        None => Ok(PathBuf::new(alloc)),
    };
    let Ok(mut path) = base else {
        return Err(AllocError);
    };
    match path.push(folder) {
        Ok(()) => Ok(path.into_string()),
        Err(_) => Err(AllocError),
    }
}

/// The folder of the first entry with this number.
fn folder_at(found: &[SiteFolder], site: u8) -> Option<&str>
    ensures { option_map (λ s. s.now) result ≡ folder_at found.now site }
{
    for entry in found {
        if entry.number == site {
            return Some(entry.folder.as_str());
        }
    }
    None
}

/// The first number above this one.
fn number_above(found: &[SiteFolder], sites: u8) -> Option<u8>
    ensures none { IfNone result (list_all (λ e. nat_le e.number sites) found.now ≡ true) }
    ensures some { IfSome result (λ n. (sites < n) × (list_any (λ e. e.number == n) found.now ≡ true)) }
{
    for entry in found {
        if sites < entry.number {
            return Some(entry.number);
        }
    }
    None
}

/// The folders of the sites from 1 to `sites`, in their order, if the list has these sites and no others.
pub fn folders_of<'a>(
    alloc: Global,
    found: &'a [SiteFolder],
    sites: u8,
) -> Result<Vec<&'a str>, SitesFault>
    ensures count { IfOk result (λ v. vec_len v ≡ sites) }
    ensures each { IfOk result (λ v. (k : ℕ) → k < sites → slice_get (map (λ s. s.now) v.items) k ≡ folder_at found.now (k + 1)) }
    ensures known { IfOk result (λ _. list_all (λ e. nat_le e.number sites) found.now ≡ true) }
    ensures refused { IfErr result (IsMisplaced found.now sites) }
{
    if let Some(number) = number_above(found, sites) {
        return Err(SitesFault::Unknown(number));
    }
    let mut folders = Vec::new(alloc);
    for k in 0..sites {
        let Some(folder) = folder_at(found, k + 1) else {
            return Err(SitesFault::Missing(k + 1));
        };
        push(&mut folders, folder)?;
    }
    Ok(folders)
}
