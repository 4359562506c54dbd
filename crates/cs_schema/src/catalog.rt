//! The catalog of a store.
ghost use Rattle.std.specs.Prelude.{◌≡◌, ◌++◌, ◌∷◌, map, OnOk};
ghost use Rattle.cs_schema.specs.declared.file_name.FileName.{FileName};

use crate::limits::{NAME_BYTES, SITES};
use crate::{Cells, Code, FileName, Kind, Loss, Safety, Value};
use arrayvec::ArrayString;
use std::alloc::{AllocError, Global};
use std::marker::Model;

/// A column of the table.
#[derive(Drop)]
pub struct Column {
    pub name: ArrayString<{ NAME_BYTES }>,
    pub kind: Kind,
}

impl Model for Column {
    ghost use Rattle.cs_schema.specs.CatalogData.{ColumnData};

    ghost Value = { ColumnData };

    ghost view = { λ c. record { name = c.name.bytes; kind = c.kind } };
}

/// A projection: some columns of the table in the order of a sort key, cut into segments.
///
/// Columns and sort columns are given by their numbers in the table, joins by the numbers of their target projections.
#[derive(Drop)]
pub struct Projection {
    pub name: ArrayString<{ NAME_BYTES }>,
    pub columns: Vec<u8>,
    pub codes: Vec<Code>,
    pub sort: Vec<u8>,
    pub cuts: Cells,
    pub sites: Vec<u8>,
    pub joins: Vec<u8>,
}

impl Model for Projection {
    ghost use Rattle.cs_schema.specs.CatalogData.{ProjectionData};
    ghost use Rattle.cs_schema.specs.Values.{values};

    ghost Value = { ProjectionData };

    ghost view = { λ p. record {
      name = p.name.bytes;
      columns = p.columns.items;
      codes = p.codes.items;
      sort = p.sort.items;
      cuts = values p.cuts;
      sites = p.sites.items;
      joins = p.joins.items;
    } };
}

/// The catalog of a store.
#[derive(Drop)]
pub struct Catalog {
    pub table: ArrayString<{ NAME_BYTES }>,
    pub key: u8,
    pub sites: u8,
    pub safety: Safety,
    pub columns: Vec<Column>,
    pub projections: Vec<Projection>,
}

impl Model for Catalog {
    ghost use Rattle.cs_schema.specs.CatalogData.{CatalogData};

    ghost Value = { CatalogData };

    ghost use Rattle.cs_schema.specs.CatalogView.{catalog_data};
    ghost use Rattle.cs_schema.specs.Named.{KeepsRules};

    ghost view = { catalog_data };

    ghost invariant = { λ c. ∥ KeepsRules (catalog_data c) ∥₁ };
}

impl Catalog {
    ghost use Rattle.std.specs.Prelude.{◌≡◌, ◌<◌, ◌≤◌, ◌↔◌, length, IfOk, IsTrue};
    ghost use Rattle.std.specs.List.Sorted.{IsStrictlySortedBy};
    ghost use Rattle.cs_schema.specs.CatalogData.{column, projection, segments, has_join, code_at, kind_at};
    ghost use Rattle.cs_schema.specs.CatalogRules.{IsCatalog};
    ghost use Rattle.cs_schema.specs.FileNames.{name_cmp, surviving};
    ghost use Rattle.cs_schema.specs.Losses.{lost, IsLoss};
    ghost use Rattle.cs_schema.specs.Ranges.{range_of};
    ghost use Rattle.cs_schema.specs.Rows.{cell};
    ghost use Rattle.cs_schema.specs.Values.{values};

    /// How many projections there are.
    pub fn projection_count(&self) -> u16
        ensures count { result ≡ length self.now.projections }
        ensures rules { IsCatalog self.now }
    {
        self.projections.len() as u16
    }

    /// A projection by its number.
    pub fn projection(&self, p: u16) -> &Projection
        requires { p < length self.now.projections }
        ensures is { result.now ≡ projection self.now p }
        ensures rules { IsCatalog self.now }
    {
        &self.projections[p as usize]
    }

    /// The kind of a column's cells.
    pub fn kind(&self, c: u8) -> Kind
        requires { c < length self.now.columns }
        ensures { result ≡ (column self.now c).kind }
    {
        self.columns[c as usize].kind
    }

    /// The number of columns of a projection: 1 to 32.
    pub fn width(&self, p: u16) -> usize
        requires { p < length self.now.projections }
        ensures count { result ≡ length (projection self.now p).columns }
        ensures range { (1 ≤ result) × (result ≤ 32) }
        ensures rules { IsCatalog self.now }
    {
        self.projection(p).columns.len()
    }

    /// The encoding of the `j`-th column of a projection.
    pub fn code(&self, p: u16, j: usize) -> Code
        requires projection { p < length self.now.projections }
        requires column { j < length (projection self.now p).columns }
        ensures { result ≡ code_at self.now p j }
    {
        self.projection(p).codes[j]
    }

    /// The kind of the `j`-th column of a projection.
    pub fn column_kind(&self, p: u16, j: usize) -> Kind
        requires projection { p < length self.now.projections }
        requires column { j < length (projection self.now p).columns }
        ensures { result ≡ kind_at self.now p j }
    {
        self.kind(self.projection(p).columns[j])
    }

    /// Whether a projection declares a join index to another.
    pub fn has_join(&self, p: u16, q: u16) -> bool
        requires { p < length self.now.projections }
        ensures { result ≡ has_join self.now p q }
    {
        self.projection(p)
            .joins
            .iter()
            .any(|join| u16::from(*join) == q)
    }

    /// Whether the loss names only sites of the catalog.
    pub fn has_sites(&self, loss: Loss) -> bool
        ensures { IsTrue result ↔ IsLoss self.now loss }
    {
        if loss.count() == 0 {
            return true;
        }
        for site in self.sites + 1..SITES + 1 {
            if loss.has(site) {
                return false;
            }
        }
        true
    }

    /// The number of segments of a projection.
    pub fn segments(&self, p: u16) -> u16
        requires { p < length self.now.projections }
        ensures count { result ≡ segments self.now p }
        ensures rules { IsCatalog self.now }
    {
        self.projection(p).cuts.len() as u16 + 1
    }

    /// The segment whose range contains a value of the first sort column.
    pub fn segment_of(&self, p: u16, value: &Value) -> u16
        requires { p < length self.now.projections }
        ensures range { result ≡ range_of (projection self.now p).cuts value.now }
        ensures exists { result < segments self.now p }
    {
        let cuts = &self.projection(p).cuts;
        let mut segment = 0;
        for at in 0..cuts.len() {
            if cuts.compare(at, value).is_le() {
                segment += 1;
            }
        }
        segment
    }

    /// The segment whose range contains a cell of the first sort column. The cell is read in place.
    pub fn segment_of_cell(&self, p: u16, cells: &Cells, row: usize) -> u16
        requires projection { p < length self.now.projections }
        requires there { row < length (values cells.now) }
        ensures range { result ≡ range_of (projection self.now p).cuts (cell (values cells.now) row) }
        ensures exists { result < segments self.now p }
    {
        let cuts = &self.projection(p).cuts;
        let mut segment = 0;
        for at in 0..cuts.len() {
            if cuts.compare_cell(at, cells, row).is_le() {
                segment += 1;
            }
        }
        segment
    }

    /// Whether the site of a segment is lost.
    pub fn lost(&self, p: u16, s: u16, loss: Loss) -> bool
        requires projection { p < length self.now.projections }
        requires segment { s < segments self.now p }
        ensures { result ≡ lost self.now loss p s }
    {
        loss.has(self.site(p, s))
    }

    /// The names of the files that survive a loss, ascending.
    pub fn surviving(&self, alloc: Global, loss: Loss) -> Result<Vec<FileName>, AllocError>
        ensures names { IfOk result (λ names. names.items ≡ surviving self.now loss) }
        ensures order { IfOk result (λ names. IsStrictlySortedBy name_cmp names.items) }
    {
        let mut names = Vec::new(alloc);
        for p in 0..self.projection_count() {
            for s in 0..self.segments(p) {
                if !self.lost(p, s, loss) {
                    push_names(&mut names, p, s, &self.projection(p).joins)?;
                }
            }
        }
        Ok(names)
    }
}

/// Adds the names of a segment's files.
fn push_names(names: &mut Vec<FileName>, p: u16, s: u16, joins: &[u8]) -> Result<(), AllocError>
    ensures { OnOk result (names.new.items ≡ names.old.items ++ FileName.Seg p s ∷ FileName.Del p s ∷ map (FileName.Jix p s) joins.now) }
{
    names.push(FileName::Seg { p, s })?;
    names.push(FileName::Del { p, s })?;
    for q in joins {
        names.push(FileName::Jix {
            p,
            s,
            q: u16::from(*q),
        })?;
    }
    Ok(())
}
