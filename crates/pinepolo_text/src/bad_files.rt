//! Bad files in lines, one for each, or one for a site of which no file is left.
use crate::at::{At, has};
use crate::unread::{BadFileLine, Mend};
use cs_inspection::Badness;
use cs_reports::{BadFile, site_of, with_site};
use cs_schema::{Catalog, FileName, Loss};
use pinepolo_answers::{ChangedFile, problem_in, problem_of};
use std::fmt;

/// A line for each bad file, and one for each site whose files are all missing.
#[derive(Clone, Copy)]
pub struct BadLines<'a> {
    pub catalog: &'a Catalog,
    pub bad: &'a [(FileName, Badness)],
    /// Those of which a manifest says another digest.
    pub changed: &'a [ChangedFile],
    /// Where the store is. The files of sites that are away have no lines.
    pub at: At<'a>,
}

/// How many files a catalog has on a site.
fn files_on(catalog: &Catalog, site: u8) -> usize {
    let mut count = 0usize;
    for projection in &catalog.projections {
        for at in &projection.sites {
            if *at == site {
                count = count.saturating_add(projection.joins.len().saturating_add(2));
            }
        }
    }
    count
}

/// Whether a file stands on a site.
fn stands_on(catalog: &Catalog, name: FileName, site: u8) -> bool {
    site_of(catalog, name.projection(), name.segment()) == Some(site)
}

impl BadLines<'_> {
    /// How many files of a site are missing.
    fn missing_on(&self, site: u8) -> usize {
        let mut count = 0usize;
        for (name, badness) in self.bad {
            if *badness == Badness::Missing && stands_on(self.catalog, *name, site) {
                count = count.saturating_add(1);
            }
        }
        count
    }

    /// The sites of which every file is missing.
    fn gone(&self) -> Loss {
        let mut gone = Loss::none();
        for site in 1..17u8 {
            let missing = self.missing_on(site);
            if missing > 0 && missing == files_on(self.catalog, site) {
                gone = gone.with(site);
            }
        }
        gone
    }
}

/// What is to be mended before the first of these bad files can be read, if anything is.
pub fn mend_of<'a>(at: At<'a>, catalog: &Catalog, bad: &[(FileName, Badness)]) -> Option<Mend<'a>> {
    for (name, badness) in bad {
        let file = BadFile::new(catalog, *name, problem_of(*badness));
        let mend = Mend::of(at, &file);
        if mend.is_some() {
            return mend;
        }
    }
    None
}

impl fmt::Display for BadLines<'_> {
    fn fmt<W: fmt::Write>(&self, f: &mut fmt::Formatter<W>) -> fmt::Result {
        let (at, gone, away) = (self.at, self.gone(), self.at.away_sites());
        let mut said = away;
        for (name, badness) in self.bad {
            let site = site_of(self.catalog, name.projection(), name.segment()).unwrap_or(0);
            if !has(gone, site) && !has(away, site) {
                let problem = problem_in(self.changed, *name, *badness);
                let file = &BadFile::new(self.catalog, *name, problem);
                let line = BadFileLine { file, at };
                write!(f, "{line}")?;
            } else if !has(said, site) {
                said = with_site(said, Some(site));
                let count = files_on(self.catalog, site);
                writeln!(f, "site {site}  missing  all {count} files")?;
            }
        }
        Ok(())
    }
}
