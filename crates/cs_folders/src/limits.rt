//! How many bytes a store's files may have.
ghost use Rattle.std.specs.Prelude.{◌<◌, ◌≤◌, ◌^◌, ◌*◌, length};

use cs_schema::{Catalog, FileName, Kind};

/// How many bytes a catalog may have.
pub const CATALOG_LIMIT: u64 = 1_048_576;

/// How many bytes any other file may have.
const FILE_LIMIT: u64 = 34_359_738_368;

/// How many projections a catalog has, at most.
const PROJECTIONS: usize = 8;

/// How many rows a base segment has, and the image of a layer, at most.
const ROWS: u64 = 1_048_576;

/// The highest storage key.
const KEYS: u64 = 4_194_304;

/// How many layers a delta has, at most.
const LAYERS: u64 = 3;

/// What stands in a segment's file around its columns: the header and the digest.
const SEGMENT_FRAME: u64 = 50;

/// What stands before a column's body.
const COLUMN_HEAD: u64 = 6;

/// What a code writes for a row beside its cell, at most: a position or lengths.
const CODE_BYTES: u64 = 12;

/// What stands in a delta around its items: the header of version 2, three counts and the digest.
const DELTA_FRAME: u64 = 65;

/// What stands before the cells of an insert: tag, position and key.
const INSERT_HEAD: u64 = 9;

/// What stands before the cell of a modify: tag, position and column.
const MODIFY_HEAD: u64 = 6;

/// What stands in a join index around its entries: the header and the digest.
const JOIN_INDEX_FRAME: u64 = 50;

/// An entry of a join index: segment and key.
const ENTRY: u64 = 6;

/// How wide the rows of a projection are.
#[derive(Clone, Copy, Debug, PartialEq, Eq)]
pub struct RowWidth {
    /// How many columns there are.
    columns: u16,
    /// How many bytes the cells of a row take, at most.
    cells: u16,
}

/// How many bytes each file of a store may have.
#[derive(Clone, Copy, Debug, PartialEq, Eq)]
pub enum FileLimits {
    /// One number for all names.
    Fixed,
    /// What the greatest file has that a catalog of such rows allows.
    Catalog([RowWidth; PROJECTIONS]),
}

impl FileLimits {
    /// The greatest files that this catalog allows.
    pub fn of(catalog: &Catalog) -> Self {
        let mut widths = [RowWidth {
            columns: 0,
            cells: 0,
        }; PROJECTIONS];
        for p in 0..catalog.projection_count() {
            if let Some(width) = widths.get_mut(p as usize) {
                *width = width_of(catalog, p);
            }
        }
        FileLimits::Catalog(widths)
    }

    /// How many bytes the file of this name may have.
    pub fn limit_of(&self, name: FileName) -> u64
        ensures { result < 2 ^ 63 }
    {
        let FileLimits::Catalog(widths) = self else {
            return FILE_LIMIT;
        };
        let Some(width) = widths.get(name.projection() as usize) else {
            return 0;
        };
        match name {
            FileName::Seg { .. } => segment_limit(*width),
            FileName::Del { .. } => delta_limit(*width),
            FileName::Jix { .. } => JOIN_INDEX_FRAME + KEYS * ENTRY,
        }
    }
}

/// How wide the rows of a projection are.
fn width_of(catalog: &Catalog, p: u16) -> RowWidth
    requires { p < length catalog.now.projections }
{
    let columns = catalog.width(p);
    let mut cells = 0;
    for j in 0..columns {
        cells += match catalog.column_kind(p, j) {
            Kind::Int => 8,
            Kind::Text => 256,
        };
    }
    RowWidth {
        columns: columns as u16,
        cells,
    }
}

/// A segment with all rows, each of whose columns writes as much as a code can.
fn segment_limit(width: RowWidth) -> u64
    ensures { result < 2 ^ 63 }
{
    let columns = u64::from(width.columns);
    let row = u64::from(width.cells) + columns * CODE_BYTES;
    SEGMENT_FRAME + columns * COLUMN_HEAD + ROWS * row
}

/// A delta that gives each key once, and in each layer changes each cell of each row.
fn delta_limit(width: RowWidth) -> u64
    ensures { result < 2 ^ 63 }
{
    let cells = u64::from(width.cells);
    let modified = cells + u64::from(width.columns) * MODIFY_HEAD;
    DELTA_FRAME + KEYS * (INSERT_HEAD + cells) + LAYERS * ROWS * modified
}
