//! Look-ups in a catalog.
ghost use Rattle.std.specs.Prelude.{◌≡◌, ◌<◌, ◌≤◌, length, slice_index};
ghost use Rattle.cs_schema.specs.CatalogData.{projection, segments};
ghost use Rattle.cs_schema.specs.CatalogRules.{IsCatalog};

use crate::Catalog;

impl Catalog {
    /// The number of columns of the table: 1 to 32.
    pub fn column_count(&self) -> usize
        ensures count { result ≡ length self.now.columns }
        ensures rules { IsCatalog self.now }
    {
        let _rules = self.projection_count();
        self.columns.len()
    }

    /// The number of the key column.
    pub fn key_column(&self) -> usize
        ensures key { result ≡ self.now.key }
        ensures exists { result < length self.now.columns }
    {
        let _rules = self.projection_count();
        self.key as usize
    }

    /// The columns of a projection, by their numbers in the table.
    pub fn columns_of(&self, p: u16) -> &[u8]
        requires { p < length self.now.projections }
        ensures columns { result.now ≡ (projection self.now p).columns }
        ensures rules { IsCatalog self.now }
    {
        &self.projection(p).columns
    }

    /// The sort columns of a projection, by their numbers in the table: 1 to 4.
    pub fn sort_columns(&self, p: u16) -> &[u8]
        requires { p < length self.now.projections }
        ensures sort { result.now ≡ (projection self.now p).sort }
        ensures rules { IsCatalog self.now }
    {
        &self.projection(p).sort
    }

    /// The number of the column by which a projection is sorted first.
    pub fn first_sort_column(&self, p: u16) -> usize
        requires { p < length self.now.projections }
        ensures column { result ≡ slice_index (projection self.now p).sort 0 }
        ensures exists { result < length self.now.columns }
    {
        self.sort_columns(p)[0] as usize
    }

    /// The projections to which a projection declares a join index, ascending.
    pub fn joins_of(&self, p: u16) -> &[u8]
        requires { p < length self.now.projections }
        ensures joins { result.now ≡ (projection self.now p).joins }
        ensures rules { IsCatalog self.now }
    {
        &self.projection(p).joins
    }

    /// The site of a segment: 1 to 16.
    pub fn site(&self, p: u16, s: u16) -> u8
        requires projection { p < length self.now.projections }
        requires segment { s < segments self.now p }
        ensures site { result ≡ slice_index (projection self.now p).sites s }
        ensures range { (1 ≤ result) × (result ≤ 16) }
    {
        self.projection(p).sites[s as usize]
    }
}
