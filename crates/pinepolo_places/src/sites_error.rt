//! Why the folders of a store's sites are refused.
ghost use Rattle.std.specs.Prelude.{◌≡◌};
ghost use Rattle.pinepolo_places.specs.Status.{sites_status};

use crate::error::{REFUSED, USAGE};
use cs_sites::SitesFault;

/// A copy of a store's catalog.
#[derive(Debug, Drop)]
pub struct CatalogCopy {
    /// The path of the store or of the site's folder that it belongs to.
    pub path: String,
    /// The SHA-256 digest of its bytes.
    pub digest: [u8; 32],
}

/// Why the folders of a store's sites are refused.
#[derive(Debug, Drop)]
pub enum SitesError {
    /// The SITES file at this path is refused.
    Refused(String, SitesFault),
    /// In the SITES file at the first path, these two sites have one folder, which is at the second path.
    OneFolder(String, (u8, u8), String),
    /// Two copies of the catalog differ.
    CatalogsDiffer(CatalogCopy, CatalogCopy),
    /// The SITES file has no site of this number, which is given a new folder.
    NoSite(u8),
    /// In the SITES file at the first path, this site has the folder of the new store, which is at the second path.
    StoreFolder(String, u8, String),
    /// The folder of a site of a new store at this path is not empty and cannot be made.
    NotFree(String),
    /// The folder of a site of a new store at this path has what a run left there that was stopped.
    Begun(String),
    /// Another run makes a store in the folder of a site at this path.
    Busy(String),
    /// The new folder of a site at this path is not empty.
    NotEmpty(String),
    /// The SITES file at this path cannot be given a new folder.
    NotRewritable(String),
}

impl SitesError {
    /// The status that tells it: 2 if the SITES file is refused, 1 if what stands in the folders is.
    pub fn status(&self) -> u8
        ensures { result ≡ sites_status self.now }
    {
        match self {
            SitesError::Refused(..)
            | SitesError::OneFolder(..)
            | SitesError::StoreFolder(..)
            | SitesError::NoSite(_)
            | SitesError::NotRewritable(_) => USAGE,
            SitesError::CatalogsDiffer(..)
            | SitesError::NotEmpty(_)
            | SitesError::NotFree(_)
            | SitesError::Begun(_)
            | SitesError::Busy(_) => REFUSED,
        }
    }
}
