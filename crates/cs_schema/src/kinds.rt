//! What a column holds, and how it is encoded.
use crate::{Value, Word};

/// The kind of a column's cells.
#[derive(Debug, Clone, Copy, PartialEq, Eq)]
pub enum Kind {
    Int,
    Text,
}

impl Kind {
    ghost use Rattle.cs_schema.specs.Values.{IsLeastOfKind};

    /// The smallest cell of this kind: the smallest 64-bit int, or the empty text.
    pub fn least(self) -> Value
        ensures { IsLeastOfKind self result }
    {
        match self {
            Kind::Int => Value::Int(i64::MIN),
            Kind::Text => Value::Text(Word::empty()),
        }
    }
}

/// Which losses a store survives.
#[derive(Debug, Clone, Copy, PartialEq, Eq)]
pub enum Safety {
    /// Those that leave every column in whole projections.
    Whole,
    /// Those that leave every row reachable.
    Rows,
}

/// How a segment's column is encoded.
#[derive(Debug, Clone, Copy, PartialEq, Eq)]
pub enum Code {
    Runs = 1,
    Bitmaps = 2,
    Differences = 3,
    Plain = 4,
}
