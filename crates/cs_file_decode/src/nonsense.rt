//! Where bytes stop making sense.
use std::fmt;

/// Where the bytes under a name stop making sense as a file of it, and what was wanted there.
#[derive(Clone, Copy, Debug, PartialEq, Eq)]
pub struct Nonsense {
    /// How many bytes stand before.
    pub at: usize,
    pub wanted: Wanted,
}

/// What is wanted at some place of a file.
#[derive(Clone, Copy, Debug, PartialEq, Eq)]
pub enum Wanted {
    /// The mark of its kind of file.
    Mark,
    /// The numbers of its name: projection, segment and target.
    Name,
    /// The number of rows of a segment.
    Rows,
    /// The highest key.
    Top,
    /// The number of columns.
    Columns,
    /// The code, the kind, the length and the body of a column, by its number from 0.
    Column(usize),
    /// The cells of a column, by its number from 0.
    Cells(usize),
    /// The number of layers.
    Layers,
    /// A layer's number of items, by its number from 0.
    Layer(usize),
    /// An item of a layer, each by its number from 0.
    Item { layer: usize, item: u32 },
    /// Items in their order, with keys that are distinct.
    Order,
    /// The number of entries.
    Entries,
    /// The entry of a key.
    Entry(u32),
    /// The end of what stands before the digest.
    End,
    /// The digest of what stands before it.
    Digest,
}

impl fmt::Display for Wanted {
    fn fmt<W: fmt::Write>(&self, f: &mut fmt::Formatter<W>) -> fmt::Result {
        match self {
            Wanted::Mark => f.write_str("the mark of its kind of file"),
            Wanted::Name => f.write_str("the numbers of its name"),
            Wanted::Rows => f.write_str("a number of rows, at most 1048576"),
            Wanted::Top => f.write_str("a highest key, from the number of rows to 4194304"),
            Wanted::Columns => f.write_str("the number of its columns"),
            Wanted::Column(j) => write!(f, "column {j}: its code, kind, length and cells"),
            Wanted::Cells(j) => write!(f, "the cells of column {j}, as its code writes them"),
            Wanted::Layers => f.write_str("a number of layers, 1 to 3"),
            Wanted::Layer(layer) => write!(f, "the number of items of layer {layer}"),
            Wanted::Item { layer, item } => write!(f, "item {item} of layer {layer}"),
            Wanted::Order => f.write_str("items in their order, with distinct keys in range"),
            Wanted::Entries => f.write_str("a number of entries, and as many"),
            Wanted::Entry(key) => write!(f, "the entry of key {key}"),
            Wanted::End => f.write_str("the digest, but bytes are left over"),
            Wanted::Digest => f.write_str("the digest of what stands before it"),
        }
    }
}
