//! A new store gets its name: first the files of its sites do, then the copies of the catalog there, and last its folder.
ghost use Rattle.std.specs.Prelude.{◌≡◌, ◌∷◌, IfOk, OnOk, length, string_bytes};
ghost use Rattle.cs_file_system.specs.Calls.{Adds, AddsAll, Always, Extends, see, sync_folder};
ghost use Rattle.cs_folders.specs.Naming.{AreNamed, AreSitesNamed, AreWhole, IsStoreNamed, catalog_at, file_named};
ghost use Rattle.cs_folders.specs.Paths.{beside_of};

use crate::new_site::NewSite;
use crate::paths::{file_in, path_in};
use cs_file_system::{FileSystem, Standing, put_folder};
use cs_schema::FileName;
use std::alloc::{AllocError, Global};
use std::io;
use std::io::ErrorKind;

/// Where a file stands before it has its name.
fn beside(alloc: Global, path: &str) -> Result<String, AllocError>
    ensures { IfOk result (λ beside. string_bytes beside ≡ beside_of path.now) }
{
    format!(in alloc; "{path}.partial")
}

/// Sees that something stands at a path.
fn look_for<F: FileSystem>(files: &mut F, path: &str) -> io::Result<()>
    ensures { OnOk result (Adds (see path.now) (F.made files.old) (F.made files.new)) }
{
    match files.look(path)? {
        Standing::Nothing => Err(io::Error::from(ErrorKind::NotFound)),
        Standing::File => Ok(()),
        Standing::Folder => Ok(()),
    }
}

/// Gives a new file its name, once its bytes are on the disk. That it has the name is not there yet.
fn name_file<F: FileSystem>(files: &mut F, alloc: Global, path: &str) -> io::Result<()>
    ensures { OnOk result (AddsAll (file_named path.now) (F.made files.old) (F.made files.new)) }
{
    let beside = beside(alloc, path)?;
    let beside = beside.as_str();
    look_for(files, beside)?;
    let mut file = files.open_end(beside)?;
    files.sync(beside, &mut file)?;
    files.rename(beside, path)
}

/// Gives files of a folder their names, each once its bytes are on the disk, and then brings the names there.
fn name_files<F: FileSystem>(
    files: &mut F,
    alloc: Global,
    folder: &str,
    names: &[FileName],
) -> io::Result<()>
    ensures named { OnOk result (Always (F.made files.new) (AreNamed folder.now names.now (length names.now))) }
    ensures more { OnOk result (Extends (F.made files.old) (F.made files.new)) }
{
    for name in names {
        let path = file_in(alloc, folder, *name)?;
        name_file(files, alloc, path.as_str())?;
    }
    files.sync_folder(folder)
}

/// Gives the copy of the catalog in a folder its name, and brings that to the disk. All files of the sites have theirs.
fn name_catalog<F: FileSystem>(
    files: &mut F,
    alloc: Global,
    sites: &[NewSite],
    folder: &str,
) -> io::Result<()>
    requires { Always (F.made files.old) (AreSitesNamed sites.now (length sites.now)) }
    ensures { OnOk result (AddsAll (sync_folder folder.now ∷ file_named (catalog_at folder.now)) (F.made files.old) (F.made files.new)) }
{
    let path = path_in(alloc, folder, "catalog.toml")?;
    name_file(files, alloc, path.as_str())?;
    files.sync_folder(folder)
}

/// Gives the copies of the catalog in the folders of sites their names. All files of the sites have theirs.
fn name_catalogs<F: FileSystem>(files: &mut F, alloc: Global, sites: &[NewSite]) -> io::Result<()>
    requires { Always (F.made files.old) (AreSitesNamed sites.now (length sites.now)) }
    ensures { OnOk result (Always (F.made files.new) (AreWhole sites.now (length sites.now))) }
{
    for site in sites {
        name_catalog(files, alloc, sites, site.path.as_str())?;
    }
    Ok(())
}

/// Gives the files of the sites of a new store their names, each once its bytes are on the disk, and when all have theirs,
/// the copies of the catalog. `named` is the number of folders in which all files have their names, also after an error.
fn name_sites<F: FileSystem>(
    files: &mut F,
    alloc: Global,
    sites: &[NewSite],
    named: &mut usize,
) -> io::Result<()>
    ensures { OnOk result (Always (F.made files.new) (AreWhole sites.now (length sites.now))) }
{
    for site in sites {
        name_files(files, alloc, site.path.as_str(), site.names.as_slice())?;
        *named = named.saturating_add(1);
    }
    name_catalogs(files, alloc, sites)
}

/// Gives a new store its name: first the files of its sites, if it has any, and the copies of the catalog get theirs, and
/// last the folder at `beside`, once the names in it are on the disk. `named` is the number of folders of sites in which all
/// files have their names, also after an error.
pub fn name_store<F: FileSystem>(
    files: &mut F,
    alloc: Global,
    sites: &[NewSite],
    named: &mut usize,
    beside: &str,
    path: &str,
) -> io::Result<()>
    ensures { OnOk result (Always (F.made files.new) (IsStoreNamed sites.now beside.now path.now)) }
{
    let parent = path_in(alloc, path, "..")?;
    name_sites(files, alloc, sites, named)?;
    put_folder(files, beside, path, parent.as_str())
}
