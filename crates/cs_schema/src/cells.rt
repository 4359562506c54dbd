//! Cells, and columns of them.
ghost use Rattle.std.specs.Prelude.{◌≡◌, ◌==◌, ◌<◌, ◌↔◌, [], length, slice_get, Some, refl, IsTrue};
ghost use Rattle.std.specs.Option.{option_cmp};
ghost use Rattle.std.specs.Ordering.{as_partial_cmp, eq_by_cmp};
ghost use Rattle.std.specs.Cmp.{eq_by_cmp_equiv, partial_equiv_from_equiv, partial_order_from_total};
ghost use Rattle.cs_schema.specs.Values.{value_cmp, value_eq, value_kind, values, kind_of, text_size, IsOfKind};
ghost use Rattle.cs_schema.specs.ValueOrder.{value_cmp_total};

use crate::{Kind, Texts, Word};
use std::alloc::{AllocError, Global};
use std::cmp::Ordering;

/// A cell.
#[derive(Drop)]
pub enum Value {
    Int(i64),
    Text(Word),
}

impl Value {
    /// The kind of the cell.
    pub fn kind(&self) -> Kind
        ensures { result ≡ value_kind self.now }
    {
        match self {
            Value::Int(_) => Kind::Int,
            Value::Text(_) => Kind::Text,
        }
    }

    /// A copy of the cell.
    pub fn copy(&self) -> Value
        ensures { result ≡ self.now }
    {
        match self {
            Value::Int(int) => Value::Int(*int),
            Value::Text(text) => Value::Text(text.copy()),
        }
    }
}

impl PartialEq for Value {
    ghost eq = { value_eq };

    ghost laws = { partial_equiv_from_equiv (eq_by_cmp_equiv value_cmp_total) };

    fn eq(&self, other: &Self) -> bool {
        self.cmp(other).is_eq()
    }
}

impl Eq for Value {
    ghost laws = { eq_by_cmp_equiv value_cmp_total };
}

impl PartialOrd for Value {
    ghost partial_cmp = { as_partial_cmp value_cmp };

    ghost laws = { partial_order_from_total value_cmp_total };

    fn partial_cmp(&self, other: &Self) -> Option<Ordering> {
        Some(self.cmp(other))
    }
}

/// Ints by value, texts by their bytes, any int before any text.
impl Ord for Value {
    ghost cmp = { value_cmp };

    ghost total = { value_cmp_total };

    ghost matches_partial_cmp = { λ v w. refl };

    ghost matches_eq = { λ v w. refl };

    fn cmp(&self, other: &Self) -> Ordering {
        match (self, other) {
            (Value::Int(int), Value::Int(other)) => int.cmp(other),
            (Value::Int(_), Value::Text(_)) => Ordering::Less,
            (Value::Text(_), Value::Int(_)) => Ordering::Greater,
            (Value::Text(text), Value::Text(other)) => text.as_str().cmp(other.as_str()),
        }
    }
}

/// The cells of a column, of one kind.
#[derive(Drop)]
pub enum Cells {
    Ints(Vec<i64>),
    Texts(Texts),
}

impl Cells {
    /// An empty column of a kind.
    pub fn new(alloc: Global, kind: Kind) -> Cells
        ensures kind { kind_of result ≡ kind }
        ensures cells { values result ≡ [] }
    {
        match kind {
            Kind::Int => Cells::Ints(Vec::new(alloc)),
            Kind::Text => Cells::Texts(Texts::new(alloc)),
        }
    }

    /// The kind of its cells.
    pub fn kind(&self) -> Kind
        ensures { result ≡ kind_of self.now }
    {
        match self {
            Cells::Ints(_) => Kind::Int,
            Cells::Texts(_) => Kind::Text,
        }
    }

    /// The number of cells.
    pub fn len(&self) -> usize
        ensures { result ≡ length (values self.now) }
    {
        match self {
            Cells::Ints(ints) => ints.len(),
            Cells::Texts(texts) => texts.len(),
        }
    }

    /// Whether there are no cells.
    pub fn is_empty(&self) -> bool
        ensures { result ≡ (length (values self.now) == 0) }
    {
        self.len() == 0
    }

    /// A copy of the cell at an index.
    pub fn cell(&self, at: usize) -> Value
        requires { at < length (values self.now) }
        ensures value { slice_get (values self.now) at ≡ Some result }
        ensures of_kind { IsOfKind (kind_of self.now) result }
    {
        match self {
            Cells::Ints(ints) => Value::Int(ints[at]),
            Cells::Texts(texts) => Value::Text(texts.word(at)),
        }
    }

    /// Compares the cell at an index with a value.
    pub fn compare(&self, at: usize, value: &Value) -> Ordering
        requires { at < length (values self.now) }
        ensures { result ≡ option_cmp value_cmp (slice_get (values self.now) at) (Some value.now) }
    {
        match (self, value) {
            (Cells::Ints(ints), Value::Int(int)) => ints[at].cmp(int),
            (Cells::Ints(_), Value::Text(_)) => Ordering::Less,
            (Cells::Texts(_), Value::Int(_)) => Ordering::Greater,
            (Cells::Texts(texts), Value::Text(text)) => texts.get(at).cmp(text.as_str()),
        }
    }

    /// Compares the cell at an index with a cell of another column.
    pub fn compare_cell(&self, at: usize, other: &Cells, other_at: usize) -> Ordering
        requires here { at < length (values self.now) }
        requires there { other_at < length (values other.now) }
        ensures { result ≡ option_cmp value_cmp (slice_get (values self.now) at) (slice_get (values other.now) other_at) }
    {
        match (self, other) {
            (Cells::Ints(ints), Cells::Ints(others)) => ints[at].cmp(&others[other_at]),
            (Cells::Ints(_), Cells::Texts(_)) => Ordering::Less,
            (Cells::Texts(_), Cells::Ints(_)) => Ordering::Greater,
            (Cells::Texts(texts), Cells::Texts(others)) => texts.compare(at, others, other_at),
        }
    }

    /// Whether the cell at an index equals a cell of another column.
    pub fn same(&self, at: usize, other: &Cells, other_at: usize) -> bool
        requires here { at < length (values self.now) }
        requires there { other_at < length (values other.now) }
        ensures { IsTrue result ↔ (slice_get (values self.now) at ≡ slice_get (values other.now) other_at) }
    {
        match (self, other) {
            (Cells::Ints(ints), Cells::Ints(others)) => ints[at] == others[other_at],
            (Cells::Ints(_), Cells::Texts(_)) => false,
            (Cells::Texts(_), Cells::Ints(_)) => false,
            (Cells::Texts(texts), Cells::Texts(others)) => texts.same(at, others, other_at),
        }
    }

    /// The total number of bytes of the texts. Ints have none.
    pub fn text_size(&self) -> usize
        ensures { result ≡ text_size self.now }
    {
        match self {
            Cells::Ints(_) => 0,
            Cells::Texts(texts) => texts.size(),
        }
    }
}
