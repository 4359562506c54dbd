//! A store whose sites have sources of their own.
ghost use Rattle.std.specs.Prelude.{◌≡◌, IfOk, IfErr, IsSomeAnd, MatchOption};
ghost use Rattle.std.specs.Option.{option_copied, option_map};
ghost use Rattle.cs_sites.specs.Routing.{routes_of, source_at};
ghost use Rattle.cs_sites.specs.Sited.{SaysOnly};

use crate::routing::Routes;
use cs_parallel_io::SharedSource;
use cs_schema::{Catalog, FileName};
use cs_store::{Source, StoreFault};
use std::alloc::{AllocError, Global};
use std::marker::Sync;

/// A store whose files are read from the sources of their sites. A site that is away has no source: each read of its names
/// is a fault of the device, and asks no source.
#[derive(Drop)]
pub struct SitedSource<S> {
    /// The site of each file.
    pub routes: Routes,
    /// The sources of the sites, in the order of their numbers from 1; none for a site that is away.
    pub sources: Vec<Option<S>>,
    /// How many reads met a fault of the device.
    pub faults: u64,
}

impl<S> SitedSource<S> {
    /// A store of this catalog, with the sources of its sites in the order of their numbers from 1. No fault was met.
    pub fn new(
        alloc: Global,
        catalog: &Catalog,
        sources: Vec<Option<S>>,
    ) -> Result<Self, AllocError>
    where
        S: Drop,
        ensures routes { IfOk result (λ store. store.routes ≡ routes_of catalog.now) }
        ensures sources { IfOk result (λ store. store.sources ≡ sources) }
        ensures faults { IfOk result (λ store. store.faults ≡ 0) }
    {
        match Routes::new(alloc, catalog) {
            Ok(routes) => Ok(Self {
                routes,
                sources,
                faults: 0,
            }),
            Err(_) => Err(AllocError),
        }
    }

    /// The source of a site, if it is not away.
    pub fn source(&self, site: u8) -> Option<&S>
        ensures { option_copied result ≡ source_at self.now.sources.items site }
    {
        match self.sources.get(usize::from(site).saturating_sub(1)) {
            Some(Some(source)) => Some(source),
            _ => None,
        }
    }
}

/// Reads a file of a site's source, and leaves the other sources as they are. If the site is away, no source is asked.
fn read_of<S: Source>(
    sources: &mut Vec<Option<S>>,
    site: u8,
    name: FileName,
) -> Result<Option<Vec<u8>>, StoreFault>
    ensures ok { IfOk result (λ file. IsSomeAnd (source_at sources.old.items site)
        (λ source. SaysOnly S.gives sources.old.items site source name (option_map (λ bytes. bytes.items) file) sources.new.items)) }
    ensures err { IfErr result (λ fault. MatchOption (source_at sources.old.items site)
        ((fault ≡ StoreFault.Device) × (sources.new.items ≡ sources.old.items))
        (λ source. SaysOnly S.refuses sources.old.items site source name fault sources.new.items)) }
{
    let at = usize::from(site).saturating_sub(1);
    if sources.len() <= at {
        return Err(StoreFault::Device);
    }
    match &mut sources[at] {
        Some(source) => source.read(name),
        None => Err(StoreFault::Device),
    }
}

impl<S: Source> Source for SitedSource<S> {
    ghost use Rattle.cs_sites.specs.Sited.{GivesFile, RefusesFile};

    ghost gives = { λ s name file t. (t.routes ≡ s.routes)
        × GivesFile s.routes s.sources.items name S.gives file t.sources.items };

    ghost refuses = { λ s name fault t. (t.routes ≡ s.routes)
        × RefusesFile s.routes s.sources.items name S.refuses fault t.sources.items };

    ghost fault_count = { λ s. s.faults };

    fn read(&mut self, name: FileName) -> Result<Option<Vec<u8>>, StoreFault> {
        let Some(site) = self.routes.site_of(name) else {
            return Ok(None);
        };
        let read = read_of(&mut self.sources, site, name);
        if let Err(StoreFault::Device) = read {
            self.faults = self.faults.saturating_add(1);
        }
        read
    }

    fn faults(&self) -> u64 {
        self.faults
    }
}

impl<S: SharedSource> SharedSource for SitedSource<S> {
    ghost use Rattle.cs_sites.specs.Sited.{AnswersFile, FailsFile};

    ghost answers = { λ s name file. AnswersFile s.routes s.sources.items name S.answers file };

    ghost fails = { λ s name fault. FailsFile s.routes s.sources.items name S.fails fault };

    fn read_shared(&self, name: FileName) -> Result<Option<Vec<u8>>, StoreFault> {
        let Some(site) = self.routes.site_of(name) else {
            return Ok(None);
        };
        match self.source(site) {
            Some(source) => source.read_shared(name),
            None => Err(StoreFault::Device),
        }
    }
}
