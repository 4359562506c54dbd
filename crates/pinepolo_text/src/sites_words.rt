//! What is said of the folders of a store's sites that are refused.
use cs_reports::fill;
use cs_sites::SitesFault;
use pinepolo_places::{CatalogCopy, SitesError};
use std::fmt;

/// What the texts name.
#[derive(Clone, Copy)]
enum Part<'a> {
    Path(&'a str),
    Site(u8),
    Fault(&'a SitesFault),
    Copy(&'a CatalogCopy),
}

impl fmt::Display for Part<'_> {
    fn fmt<W: fmt::Write>(&self, f: &mut fmt::Formatter<W>) -> fmt::Result {
        match self {
            Part::Path(path) => f.write_str(path),
            Part::Site(site) => write!(f, "{site}"),
            Part::Fault(fault) => write!(f, "{fault}"),
            Part::Copy(copy) => {
                for byte in copy.digest.as_slice() {
                    write!(f, "{byte:02x}")?;
                }
                write!(f, "  {}", copy.path.as_str())
            }
        }
    }
}

/// What is wrong with the folders of a store's sites, without what to do next.
#[derive(Clone, Copy)]
pub struct SitesWords<'a>(pub &'a SitesError);

impl fmt::Display for SitesWords<'_> {
    fn fmt<W: fmt::Write>(&self, f: &mut fmt::Formatter<W>) -> fmt::Result {
        match self.0 {
            SitesError::Refused(file, fault) => {
                fill(
                    f,
                    "{0}: {1}",
                    &[Part::Path(file.as_str()), Part::Fault(fault)],
                )
            }
            SitesError::OneFolder(file, (first, second), folder) => fill(
                f,
                "{0}: sites {1} and {2} have one folder: {3}",
                &[
                    Part::Path(file.as_str()),
                    Part::Site(*first),
                    Part::Site(*second),
                    Part::Path(folder.as_str()),
                ],
            ),
            SitesError::StoreFolder(file, site, folder) => fill(
                f,
                "{0}: site {1} has the folder of the new store: {2}",
                &[
                    Part::Path(file.as_str()),
                    Part::Site(*site),
                    Part::Path(folder.as_str()),
                ],
            ),
            SitesError::CatalogsDiffer(one, other) => fill(
                f,
                "two copies of catalog.toml differ\n{0}\n{1}",
                &[Part::Copy(one), Part::Copy(other)],
            ),
            SitesError::NoSite(site) => fill(f, "no site {0} has a folder", &[Part::Site(*site)]),
            SitesError::NotFree(path) => fill(
                f,
                "{0} is not an empty folder and cannot be made",
                &[Part::Path(path.as_str())],
            ),
            SitesError::Begun(path) => fill(
                f,
                "{0} has files that are left from an unfinished run",
                &[Part::Path(path.as_str())],
            ),
            SitesError::Busy(path) => fill(
                f,
                "another run makes a store in {0}",
                &[Part::Path(path.as_str())],
            ),
            SitesError::NotEmpty(path) => {
                fill(f, "{0} is not empty", &[Part::Path(path.as_str())])
            }
            SitesError::NotRewritable(path) => fill(
                f,
                "{0} cannot be given a new folder",
                &[Part::Path(path.as_str())],
            ),
        }
    }
}

/// What to do next.
pub fn sites_advice(error: &SitesError) -> &'static str {
    match error {
        SitesError::Refused(..) => {
            "give each site of the catalog one [[site]] table, with its number and its folder"
        }
        SitesError::OneFolder(..) | SitesError::StoreFolder(..) => {
            "give each site a folder of its own"
        }
        SitesError::NotFree(_) => {
            "give an empty folder, or a path at which nothing is, in a folder that is there"
        }
        SitesError::Begun(_) => "check that no other run writes it, then give --replace-partial",
        SitesError::Busy(_) => "wait for it to end, or give an empty folder",
        SitesError::CatalogsDiffer(..) => "put the right one in the place of the other",
        SitesError::NoSite(_) => "give --to the number of a site that the file names",
        SitesError::NotEmpty(_) => {
            "give an empty folder, or --resume if a restore into this one was stopped"
        }
        SitesError::NotRewritable(_) => {
            "write the folder of each [[site]] table on a line of its own"
        }
    }
}
