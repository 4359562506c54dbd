//! Applying the items of a layer to one column, or to the keys.
ghost use Rattle.std.specs.Prelude.{◌≡◌, ◌≤◌, ℕ, List, [], ◌∷◌, length, IfOk};
ghost use Rattle.cs_schema.specs.Values.{values, kind_of};
ghost use Rattle.cs_delta.specs.Image.{Change};
ghost use Rattle.cs_schema.specs.Lists.{IsIn};
ghost use Rattle.cs_delta.specs.Edits.{AreEdits, edited_from};
ghost use Rattle.cs_delta.specs.ItemView.{change_of, cell_edits, key_edits, HasKind};
ghost use Rattle.cs_delta.specs.MergeSteps.{Steps};

use crate::columns::{count, empty_in, push};
use crate::item::Item;
use crate::layer::Layer;
use cs_schema::Cells;
use std::alloc::{AllocError, Global};

/// Applies an item to column `j`, whose first `done` cells have been copied or dropped. Returns how many are done after
/// it.
fn apply_to_column(
    out: &mut Cells,
    base: &Cells,
    item: &Item,
    j: usize,
    done: usize,
) -> Result<usize, AllocError>
    requires kinds { kind_of out.old ≡ kind_of base.now }
    requires fits { HasKind (kind_of base.now) j (change_of item.now) }
    requires edit { AreEdits (length (values base.now)) done (cell_edits j (change_of item.now ∷ [])) }
    requires within { done ≤ length (values base.now) }
    ensures steps { IfOk result (λ next. Steps (cell_edits j) (values base.now) (change_of item.now) (values out.old) done (values out.new) next) }
    ensures within { IfOk result (λ next. next ≤ length (values base.now)) }
    ensures kinds { kind_of out.new ≡ kind_of out.old }
{
    match item {
        Item::Insert { at, row, .. } => {
            let at = *at as usize;
            out.extend(base, done, at)?;
            push(out, &row.cell(j))?;
            Ok(at)
        }
        Item::Delete { at } => {
            let at = *at as usize;
            out.extend(base, done, at)?;
            Ok(at + 1)
        }
        Item::Modify { at, column, value } => {
            if *column as usize != j {
                return Ok(done);
            }
            let at = *at as usize;
            out.extend(base, done, at)?;
            push(out, value)?;
            Ok(at + 1)
        }
    }
}

/// Applies an item to the keys, the first `done` of which have been copied or dropped. Returns how many are done after
/// it.
fn apply_to_keys(
    out: &mut Vec<u32>,
    base: &[u32],
    item: &Item,
    done: usize,
) -> Result<usize, AllocError>
    requires edit { AreEdits (length base.now) done (key_edits (change_of item.now ∷ [])) }
    requires within { done ≤ length base.now }
    ensures steps { IfOk result (λ next. Steps key_edits base.now (change_of item.now) out.old.items done out.new.items next) }
    ensures within { IfOk result (λ next. next ≤ length base.now) }
{
    match item {
        Item::Insert { at, key, .. } => {
            let at = *at as usize;
            out.extend_from_slice(&base[done..at])?;
            out.push(*key)?;
            Ok(at)
        }
        Item::Delete { at } => {
            let at = *at as usize;
            out.extend_from_slice(&base[done..at])?;
            Ok(at + 1)
        }
        Item::Modify { .. } => Ok(done),
    }
}

/// Column `j` with the items of a layer applied. Room for `rows` cells is reserved. The memory of a column in `spent`
/// is reused if one is of this kind.
pub fn merge_column(
    alloc: Global,
    spent: &mut Vec<Cells>,
    rows: usize,
    base: &Cells,
    layer: &Layer,
    j: usize,
) -> Result<Cells, AllocError>
    requires fits { (c : Change) → IsIn c layer.now → HasKind (kind_of base.now) j c }
    requires edits { AreEdits (length (values base.now)) 0 (cell_edits j layer.now) }
    ensures merged { IfOk result (λ cells. values cells ≡ edited_from (cell_edits j layer.now) 0 (values base.now)) }
    ensures kind { IfOk result (λ cells. kind_of cells ≡ kind_of base.now) }
{
    let mut out = empty_in(alloc, spent, base);
    // new texts may be longer than those that they replace, so an eighth more bytes are reserved
    let size = base.text_size();
    out.reserve(rows, size.saturating_add(size / 8))?;
    let mut done = 0;
    for i in 0..layer.len() {
        done = apply_to_column(&mut out, base, &layer.item(i), j, done)?;
    }
    out.extend(base, done, count(base))?;
    Ok(out)
}

/// The keys with the items of a layer applied.
pub fn merge_keys(alloc: Global, base: &[u32], layer: &Layer) -> Result<Vec<u32>, AllocError>
    requires { AreEdits (length base.now) 0 (key_edits layer.now) }
    ensures { IfOk result (λ keys. keys.items ≡ edited_from (key_edits layer.now) 0 base.now) }
{
    let mut out = Vec::with_capacity(alloc, base.len().saturating_add(layer.len()))?;
    let mut done = 0;
    for i in 0..layer.len() {
        done = apply_to_keys(&mut out, base, &layer.item(i), done)?;
    }
    out.extend_from_slice(&base[done..])?;
    Ok(out)
}
