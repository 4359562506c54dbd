//! What a store lacks that nothing explains.
use crate::next_step::NextStep;
use cs_reports::{FaultWords, StoreWords};
use cs_safety::safe;
use cs_schema::{Catalog, Loss};
use cs_store::Fault;
use std::fmt;

/// The forced sites of a store that nothing explains.
#[derive(Clone, Copy)]
pub struct BringBack<'a> {
    pub catalog: &'a Catalog,
    pub forced: Loss,
}

/// The sites of a loss but one.
fn without(loss: Loss, site: u8) -> Loss {
    let mut left = Loss::none();
    for other in 1..17u8 {
        if other != site && loss.has(other) {
            left = left.with(other);
        }
    }
    left
}

impl BringBack<'_> {
    /// The forced sites without which the others are a safe loss.
    fn enough(&self) -> Loss {
        let mut enough = Loss::none();
        for site in 1..17u8 {
            if self.forced.has(site) && safe(self.catalog, without(self.forced, site)) {
                enough = enough.with(site);
            }
        }
        enough
    }

    /// What to do next, once losses of at most so many sites were tried, if anything.
    pub fn next<'s>(&self, tried: u8, store: StoreWords<'s>) -> Option<NextStep<'s>> {
        let catalog = self.catalog;
        if safe(catalog, self.forced) {
            return if tried < catalog.sites {
                Some(NextStep::TryMore(tried.saturating_add(1), store))
            } else {
                None
            };
        }
        let enough = self.enough();
        Some(if enough.count() == 0 {
            NextStep::BringBack(self.forced)
        } else {
            NextStep::BringBackOne(enough)
        })
    }
}

/// Why the sites are no safe loss, as a line; none if they are one.
impl fmt::Display for BringBack<'_> {
    fn fmt<W: fmt::Write>(&self, f: &mut fmt::Formatter<W>) -> fmt::Result {
        let catalog = self.catalog;
        if safe(catalog, self.forced) {
            return Ok(());
        }
        let fault = &Fault::Unsafe(self.forced);
        let words = FaultWords { catalog, fault };
        writeln!(f, "{words}")
    }
}
