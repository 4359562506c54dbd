//! Describes why a store is not laid out anew.

use crate::differences::Difference;
use crate::load_words::FullWords;
use crate::relayout_fault::RelayoutFault;
use crate::{LoadFault, LoadWords};
use cs_schema::{Catalog, Kind};
use std::fmt;

/// Displays why a store of the old catalog is not laid out under the new one, as one line without its end.
#[derive(Clone, Copy)]
pub struct RelayoutWords<'a> {
    pub old: &'a Catalog,
    pub new: &'a Catalog,
    pub fault: &'a RelayoutFault,
}

/// The name of a column.
fn column_name(catalog: &Catalog, column: usize) -> &str {
    match catalog.columns.get(column) {
        Some(column) => column.name.as_str(),
        None => "no column",
    }
}

impl RelayoutWords<'_> {
    /// A column with two kinds.
    fn write_kinds<W: fmt::Write>(&self, f: &mut fmt::Formatter<W>, column: usize) -> fmt::Result {
        let new = self.new;
        let name = column_name(new, column);
        let (kind, was) = match new.columns.get(column) {
            Some(column) if column.kind == Kind::Int => ("int", "text"),
            _ => ("text", "int"),
        };
        write!(
            f,
            "column {name} is {kind} in the new catalog, {was} in the store"
        )
    }

    /// Why the new catalog refuses the rows, in the words of a load.
    fn write_refusal<W: fmt::Write>(
        &self,
        f: &mut fmt::Formatter<W>,
        fault: &LoadFault,
    ) -> fmt::Result {
        let catalog = self.new;
        let words = LoadWords { catalog, fault };
        write!(f, "{words}")
    }

    /// How the catalogs differ.
    fn write_difference<W: fmt::Write>(
        &self,
        f: &mut fmt::Formatter<W>,
        difference: Difference,
    ) -> fmt::Result {
        let (old, new) = (self.old, self.new);
        match difference {
            Difference::Missing { column } => {
                let name = column_name(old, column);
                write!(f, "column {name} is missing from the new catalog")
            }
            Difference::Unknown { column } => {
                let name = column_name(new, column);
                write!(f, "column {name} is not a column of the store")
            }
            Difference::Kind { column } => self.write_kinds(f, column),
            Difference::Key => {
                let name = column_name(new, new.key as usize);
                let was = column_name(old, old.key as usize);
                write!(
                    f,
                    "the primary key is {name} in the new catalog, {was} in the store"
                )
            }
        }
    }
}

impl fmt::Display for RelayoutWords<'_> {
    fn fmt<W: fmt::Write>(&self, f: &mut fmt::Formatter<W>) -> fmt::Result {
        match self.fault {
            RelayoutFault::Memory => self.write_refusal(f, &LoadFault::Memory),
            RelayoutFault::Differs(difference) => self.write_difference(f, *difference),
            RelayoutFault::Unsafe => self.write_refusal(f, &LoadFault::Unsafe),
            RelayoutFault::Store(fault) => write!(f, "{fault}"),
            RelayoutFault::Full(full) => {
                let catalog = self.new;
                let words = FullWords { catalog, full };
                write!(f, "{words}")
            }
        }
    }
}
