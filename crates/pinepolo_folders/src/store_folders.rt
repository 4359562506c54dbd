//! In which folder each file of a store stands.
ghost use Rattle.std.specs.Prelude.{◌≡◌, IfOk, IfSome, MatchOption, OnOk, string_bytes};
ghost use Rattle.pinepolo_folders.specs.Folders.{AreOfLinks, AreOfSites, AreSiteFolders, IsLinkNoted, IsSiteFolder};

use crate::folders::Folders;
use crate::sites::SiteFolders;
use cs_file_system::{FileSystem, SystemFiles};
use cs_folder_work::{OtherFolder, Places, StoreFolders, find_folder};
use cs_folders::file_in;
use cs_schema::{Catalog, FileName, Loss};
use cs_sites::Routes;
use cs_store::StoreFault;
use std::alloc::{AllocError, Global};
use std::collections::BTreeMap;
use std::rt::Files;

/// The fault of a refused allocation.
fn no_memory(_refused: AllocError) -> StoreFault {
    StoreFault::Memory
}

/// The folder of a site, if it is not away.
fn site_folder<R: Files>(
    alloc: Global,
    rt: &R,
    sites: &SiteFolders,
    site: u8,
) -> Result<Option<OtherFolder>, AllocError>
    ensures { IfOk result (λ found. IfSome found (λ other. IsSiteFolder sites.now site (string_bytes other.path))) }
{
    match sites.folder(site) {
        Some(path) => find_folder(&mut SystemFiles(rt), alloc, path),
        None => Ok(None),
    }
}

/// The folders of so many sites, in the order of their numbers from 1; none for one that is away.
fn site_folders<R: Files>(
    alloc: Global,
    rt: &R,
    sites: &SiteFolders,
    count: u8,
) -> Result<Vec<Option<OtherFolder>>, AllocError>
    ensures { IfOk result (λ found. AreSiteFolders sites.now found.items) }
{
    let mut found = Vec::new(alloc);
    for at in 0..count {
        found.push(site_folder(alloc, rt, sites, at + 1)?)?;
    }
    Ok(found)
}

/// The folders of a store whose sites have folders of their own.
fn sited<R: Files>(
    alloc: Global,
    rt: &R,
    path: &str,
    catalog: &Catalog,
    sites: &SiteFolders,
) -> Result<StoreFolders, AllocError>
    ensures { IfOk result (AreOfSites sites.now catalog.now path.now) }
{
    let others = site_folders(alloc, rt, sites, catalog.sites)?;
    Ok(StoreFolders {
        store: String::from_str(alloc, path)?,
        others,
        places: Places::Sites(Routes::new(alloc, catalog)?),
    })
}

/// The folders to which names of a store lead that are links.
#[derive(Drop)]
struct Links {
    /// These folders; none for one that is away.
    folders: Vec<Option<OtherFolder>>,
    /// Which of them is at a path.
    numbers: BTreeMap<String, usize>,
    /// Which of them has the file of a name.
    places: BTreeMap<FileName, usize>,
}

/// The folder of the file to which the link at a path leads; none if it leads nowhere, or to a file of another name.
fn linked_folder<R: Files>(
    alloc: Global,
    rt: &R,
    path: &str,
    name: FileName,
) -> Result<Option<String>, AllocError> {
    let Ok(target) = rt.canonicalize(alloc, path) else {
        return Ok(None);
    };
    match target.as_str().rsplit_once('/') {
        Some((folder, last)) if last == name.path().as_str() => {
            Ok(Some(String::from_str(alloc, folder)?))
        }
        _ => Ok(None),
    }
}

impl Links {
    /// The number of the folder at a path, which is added unless it was before; one that is away has no path.
    fn number_of<R: Files>(
        &mut self,
        alloc: Global,
        rt: &R,
        path: Option<String>,
    ) -> Result<usize, AllocError>
        ensures { self.new.places ≡ self.old.places }
    {
        let number = self.folders.len();
        let Some(path) = path else {
            self.folders.push(None)?;
            return Ok(number);
        };
        if let Some(number) = self.numbers.get(path.as_str()) {
            return Ok(*number);
        }
        let folder = find_folder(&mut SystemFiles(rt), alloc, path.as_str())?;
        self.folders.push(folder)?;
        self.numbers.insert(path, number)?;
        Ok(number)
    }

    /// Notes where the file of a name of a store stands, if the name is a link.
    fn note<R: Files>(
        &mut self,
        alloc: Global,
        rt: &R,
        store: &str,
        name: FileName,
    ) -> Result<(), StoreFault>
        ensures { OnOk result (IsLinkNoted store.now name self.old.places self.new.places) }
    {
        let path = file_in(alloc, store, name).map_err(no_memory)?;
        match SystemFiles(rt).is_link(path.as_str()) {
            Ok(false) => return Ok(()),
            Ok(true) => {}
            Err(_) => return Err(StoreFault::Device),
        }
        let folder = linked_folder(alloc, rt, path.as_str(), name).map_err(no_memory)?;
        let number = self.number_of(alloc, rt, folder).map_err(no_memory)?;
        match self.places.insert(name, number) {
            Ok(_) => Ok(()),
            Err(_) => Err(StoreFault::Memory),
        }
    }
}

/// The folders of a store in one folder. A file whose name is a link there stands where that leads; if the link leads
/// nowhere, its folder is away.
fn linked<R: Files>(
    alloc: Global,
    rt: &R,
    path: &str,
    catalog: &Catalog,
) -> Result<StoreFolders, StoreFault>
    ensures { IfOk result (AreOfLinks catalog.now path.now) }
{
    let mut links = Links {
        folders: Vec::new(alloc),
        numbers: BTreeMap::new(alloc),
        places: BTreeMap::new(alloc),
    };
    let names = catalog.surviving(alloc, Loss::none()).map_err(no_memory)?;
    for name in &names {
        links.note(alloc, rt, path, *name)?;
    }
    let Links {
        folders,
        places,
        ..
    } = links;
    Ok(StoreFolders {
        store: String::from_str(alloc, path).map_err(no_memory)?,
        others: folders,
        places: Places::Links(places),
    })
}

impl<R: Files> Folders<R> {
    /// The folders of the store at this path.
    pub(crate) fn store_folders(
        &self,
        path: &str,
        catalog: &Catalog,
    ) -> Result<StoreFolders, StoreFault>
        ensures { IfOk result (λ folders. MatchOption self.now.sites (AreOfLinks catalog.now path.now folders) (λ sites. AreOfSites sites catalog.now path.now folders)) }
    {
        match &self.sites {
            Some(sites) => sited(self.alloc, &self.rt, path, catalog, sites).map_err(no_memory),
            None => linked(self.alloc, &self.rt, path, catalog),
        }
    }
}
