//! What became of a store's files.
use anyhow::{Result, anyhow};
use cs_schema::{Catalog, FileName};
use cs_segment::seal::seal;
use cs_store::FileSet;
use std::alloc::Global;
use test_support::file_sets::without;

/// A change of files.
#[derive(Clone, Copy)]
pub enum Change {
    /// A site's files are those of the other rows' store.
    Stale(u8),
    /// A site's files are gone.
    Lost(u8),
    /// A segment can't be read.
    Unreadable(u16, u16),
    /// An entry of the join index of the first segment of one projection to another names this key.
    Misled(u16, u16, usize, u8),
}

/// Files that were changed, and the names that can't be read.
#[derive(Drop)]
pub struct Changed {
    pub files: FileSet,
    pub unreadable: Vec<FileName>,
}

/// The site on which a file stands.
fn site_of(catalog: &Catalog, name: FileName) -> Option<u8> {
    let projection = catalog.projections.get(usize::from(name.projection()))?;
    projection.sites.get(usize::from(name.segment())).copied()
}

/// The files of one store on some sites, and those of another on one.
fn of_two(
    alloc: Global,
    catalog: &Catalog,
    files: &FileSet,
    others: Option<&FileSet>,
    site: u8,
) -> Result<FileSet> {
    let mut out = FileSet::new(alloc)?;
    for i in 0..files.len() {
        let (name, bytes) = files.at(i);
        if site_of(catalog, name) != Some(site) {
            out.put(name, Vec::from_slice(alloc, bytes)?)?;
        } else if let Some(others) = others {
            let bytes = others.get(name).ok_or(anyhow!("no such file"))?;
            out.put(name, Vec::from_slice(alloc, bytes)?)?;
        }
    }
    Ok(out)
}

/// How many bytes stand before the entries of a join index.
const HEAD: usize = 18;

/// How many bytes the digest has.
const DIGEST: usize = 32;

/// A join index of which one entry names another key.
fn misled(alloc: Global, bytes: &[u8], entry: usize, key: u8) -> Result<Vec<u8>> {
    let length = bytes.len().saturating_sub(DIGEST);
    let body = bytes.get(..length).ok_or(anyhow!("no digest"))?;
    let mut body = Vec::from_slice(alloc, body)?;
    let last = entry.saturating_mul(6).saturating_add(HEAD + 5);
    let byte = body
        .as_mut_slice()
        .get_mut(last)
        .ok_or(anyhow!("no entry"))?;
    *byte = key;
    seal(&mut body)?;
    Ok(body)
}

impl Changed {
    /// Makes one more change.
    pub fn change(
        &mut self,
        alloc: Global,
        catalog: &Catalog,
        other: &FileSet,
        change: &Change,
    ) -> Result<()> {
        match change {
            Change::Stale(site) => {
                self.files = of_two(alloc, catalog, &self.files, Some(other), *site)?;
            }
            Change::Lost(site) => {
                self.files = of_two(alloc, catalog, &self.files, None, *site)?;
            }
            Change::Unreadable(p, s) => {
                let name = FileName::Seg { p: *p, s: *s };
                self.files = without(alloc, &self.files, name)?;
                self.unreadable.push(name)?;
            }
            Change::Misled(p, q, entry, key) => {
                let name = FileName::Jix { p: *p, s: 0, q: *q };
                let bytes = self.files.get(name).ok_or(anyhow!("no such file"))?;
                let bytes = misled(alloc, bytes, *entry, *key)?;
                self.files.put(name, bytes)?;
            }
        }
        Ok(())
    }
}
