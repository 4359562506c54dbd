//! Where a store is of which something is said.
use cs_file_system::FailedCalls;
use cs_reports::{StoreWords, with_site};
use cs_schema::Loss;
use pinepolo_places::{AwaySite, Sited};

/// Where a store is of which something is said, and what the system said while it was read.
#[derive(Clone, Copy)]
pub struct At<'a> {
    /// The path that the verb was given: of the store, or of its catalog.
    pub store: &'a str,
    /// Where its sites stand, if not there.
    pub sites: Option<Sited<'a>>,
    /// The calls on files that failed.
    pub calls: &'a FailedCalls,
    /// What stands before each fault: the program's name, unless a terminal shows it.
    pub prefix: &'a str,
}

/// Whether a loss has a site.
pub fn has(loss: Loss, site: u8) -> bool {
    (1..=16).contains(&site) && loss.has(site)
}

impl<'a> At<'a> {
    /// The store as words of a command line.
    pub fn words(&self) -> StoreWords<'a> {
        let sites = match self.sites {
            Some(sites) => Some(sites.file),
            None => None,
        };
        StoreWords {
            store: self.store,
            sites,
        }
    }

    /// The sites whose folders are away; none if all stand in one folder.
    pub fn away(&self) -> &'a [AwaySite] {
        match self.sites {
            Some(sites) => sites.away,
            None => &[],
        }
    }

    /// This site, if it is away.
    pub fn away_site(&self, site: u8) -> Option<&'a AwaySite> {
        for away in self.away() {
            if away.site == site {
                return Some(away);
            }
        }
        None
    }

    /// The numbers of the sites that are away.
    pub fn away_sites(&self) -> Loss {
        let mut loss = Loss::none();
        for away in self.away() {
            loss = with_site(loss, Some(away.site));
        }
        loss
    }
}
