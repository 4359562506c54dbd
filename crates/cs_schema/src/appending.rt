//! Growing and cutting a column of cells.
ghost use Rattle.std.specs.Prelude.{◌≡◌, ◌<◌, ◌≤◌, ◌-◌, ◌∷◌, ◌++◌, [], ℕ, take, drop, length, flat_map, slice_index, OnOk, OnErr};
ghost use Rattle.cs_schema.specs.Rows.{cell};
ghost use Rattle.cs_schema.specs.Values.{value_kind, values, kind_of};

use crate::ints::push_ints_at;
use crate::{Cells, Value};
use std::alloc::AllocError;

impl Cells {
    /// Appends a copy of a cell of another column of the same kind. If memory is refused, nothing changes.
    pub fn push_cell(&mut self, other: &Cells, at: usize) -> Result<(), AllocError>
        requires kind { kind_of other.now ≡ kind_of self.old }
        requires there { at < length (values other.now) }
        ensures kind { kind_of self.new ≡ kind_of self.old }
        ensures ok { OnOk result (values self.new ≡ values self.old ++ cell (values other.now) at ∷ []) }
        ensures err { OnErr result (values self.new ≡ values self.old) }
    {
        match (self, other) {
            (Cells::Ints(ints), Cells::Ints(others)) => ints.push(others[at])?,
            (Cells::Texts(texts), Cells::Texts(others)) => texts.push(others.get(at))?,
            (Cells::Ints(_), Cells::Texts(_)) => {}
            (Cells::Texts(_), Cells::Ints(_)) => {}
        }
        Ok(())
    }

    /// Appends a cell of the column's kind. If memory is refused, nothing changes.
    pub fn push(&mut self, value: Value) -> Result<(), AllocError>
        requires { value_kind value ≡ kind_of self.old }
        ensures kind { kind_of self.new ≡ kind_of self.old }
        ensures ok { OnOk result (values self.new ≡ values self.old ++ value ∷ []) }
        ensures err { OnErr result (values self.new ≡ values self.old) }
    {
        match (self, value) {
            (Cells::Ints(ints), Value::Int(int)) => ints.push(int)?,
            (Cells::Texts(texts), Value::Text(text)) => texts.push(text.as_str())?,
            (Cells::Ints(_), Value::Text(_)) => {}
            (Cells::Texts(_), Value::Int(_)) => {}
        }
        Ok(())
    }

    /// Moves the cells of another column of the same kind to the end. If memory is refused, nothing changes.
    pub fn append(&mut self, other: Cells) -> Result<(), AllocError>
        requires { kind_of other ≡ kind_of self.old }
        ensures kind { kind_of self.new ≡ kind_of self.old }
        ensures ok { OnOk result (values self.new ≡ values self.old ++ values other) }
        ensures err { OnErr result (values self.new ≡ values self.old) }
    {
        match (self, other) {
            (Cells::Ints(ints), Cells::Ints(mut more)) => ints.append(&mut more),
            (Cells::Texts(texts), Cells::Texts(more)) => texts.append(more),
            (Cells::Ints(_), Cells::Texts(_)) => Ok(()),
            (Cells::Texts(_), Cells::Ints(_)) => Ok(()),
        }
    }

    /// Appends copies of the cells `from..to` of another column of this kind. If memory is refused, nothing changes.
    #[tactic(auto, using(crate::proofs::MappedRanges::map_range))]
    pub fn extend(&mut self, other: &Cells, from: usize, to: usize) -> Result<(), AllocError>
        requires kinds { kind_of self.old ≡ kind_of other.now }
        requires order { from ≤ to }
        requires within { to ≤ length (values other.now) }
        ensures values { OnOk result (values self.new ≡ values self.old ++ take (to - from) (drop from (values other.now))) }
        ensures err { OnErr result (values self.new ≡ values self.old) }
        ensures kind { kind_of self.new ≡ kind_of self.old }
    {
        match (self, other) {
            (Cells::Ints(ints), Cells::Ints(others)) => ints.extend_from_slice(&others[from..to])?,
            (Cells::Texts(texts), Cells::Texts(others)) => texts.extend(others, from, to)?,
            _ => unreachable!(),
        }
        Ok(())
    }

    /// Appends copies of another column's cells at these indices, of this kind. If memory is refused, nothing changes.
    #[tactic(auto, using(crate::proofs::MappedRanges::map_places))]
    pub fn push_at(&mut self, other: &Cells, places: &[u32]) -> Result<(), AllocError>
        requires kinds { kind_of self.old ≡ kind_of other.now }
        requires within { (k : ℕ) → k < length places.now → slice_index places.now k < length (values other.now) }
        ensures ok { OnOk result (values self.new ≡ values self.old ++ flat_map (λ place. take 1 (drop place (values other.now))) places.now) }
        ensures err { OnErr result (values self.new ≡ values self.old) }
        ensures kind { kind_of self.new ≡ kind_of self.old }
    {
        match (self, other) {
            (Cells::Ints(ints), Cells::Ints(others)) => push_ints_at(ints, others, places)?,
            (Cells::Texts(texts), Cells::Texts(others)) => texts.push_at(others, places)?,
            _ => unreachable!(),
        }
        Ok(())
    }

    /// Reserves room for `more` cells whose texts have `bytes` bytes in total.
    pub fn reserve(&mut self, more: usize, bytes: usize) -> Result<(), AllocError>
        ensures kind { kind_of self.new ≡ kind_of self.old }
        ensures cells { values self.new ≡ values self.old }
    {
        match self {
            Cells::Ints(ints) => ints.reserve(more),
            Cells::Texts(texts) => texts.reserve(more, bytes),
        }
    }

    /// Keeps only the first `count` cells.
    pub fn truncate(&mut self, count: usize)
        ensures kind { kind_of self.new ≡ kind_of self.old }
        ensures cells { values self.new ≡ take count (values self.old) }
    {
        match self {
            Cells::Ints(ints) => ints.truncate(count),
            Cells::Texts(texts) => texts.truncate(count),
        }
    }
}
