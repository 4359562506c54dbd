//! The site of each file of a store.
ghost use Rattle.std.specs.Prelude.{◌≡◌, IfOk};

use cs_schema::{Catalog, FileName};
use std::alloc::{AllocError, Global};
use std::marker::Model;

/// The sites of a catalog's segments, projection by projection. Contracts see a list of lists of their numbers.
#[derive(Drop)]
pub struct Routes {
    projections: Vec<Vec<u8>>,
}

impl Model for Routes {
    ghost use Rattle.std.specs.Prelude.{ℕ, List, map};

    ghost Value = { List (List ℕ) };

    ghost view = { λ r. map (λ sites. sites.items) r.projections.items };
}

impl Routes {
    ghost use Rattle.cs_sites.specs.Routing.{routes_of, site_of};

    /// The sites of this catalog's segments.
    pub fn new(alloc: Global, catalog: &Catalog) -> Result<Self, AllocError>
        ensures { IfOk result (λ routes. routes ≡ routes_of catalog.now) }
    {
        let mut projections = Vec::new(alloc);
        for p in 0..catalog.projection_count() {
            let sites = Vec::from_slice(alloc, catalog.projection(p).sites.as_slice())?;
            projections.push(sites)?;
        }
        Ok(Self { projections })
    }

    /// The site of a file, which is that of its segment; none if the catalog has no such segment.
    pub fn site_of(&self, name: FileName) -> Option<u8>
        ensures { result ≡ site_of self.now name }
    {
        match self.projections.get(usize::from(name.projection())) {
            Some(sites) => sites.get(usize::from(name.segment())).copied(),
            None => None,
        }
    }
}
