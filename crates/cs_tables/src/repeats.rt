//! The first repeated primary key.
ghost use Rattle.std.specs.Prelude.{◌≡◌, ◌<◌, length, IfOk, IfSome, IfNone};
ghost use Rattle.cs_schema.specs.Values.{values};
ghost use Rattle.cs_tables.specs.Repeats.{AreDistinctBefore, IsFirstRepeat};

use crate::load_fault::Repeat;
use cs_schema::{Cells, Value};
use std::alloc::{AllocError, Global};
use std::collections::BTreeMap;

/// The first cell of a column that equals an earlier one.
pub(crate) fn first_repeat(alloc: Global, cells: &Cells) -> Result<Option<Repeat>, AllocError>
    ensures some { IfOk result (λ found. IfSome found (λ repeat. IsFirstRepeat (values cells.now) repeat.first repeat.again repeat.key)) }
    ensures none { IfOk result (λ found. IfNone found (AreDistinctBefore (values cells.now) (length (values cells.now)))) }
{
    let mut seen: BTreeMap<Value, usize> = BTreeMap::new(alloc);
    for again in 0..cells.len() {
        let key = cells.cell(again);
        if let Some(first) = seen.get(&key) {
            return Ok(Some(Repeat {
                first: *first,
                again,
                key,
            }));
        }
        seen.insert(key, again)?;
    }
    Ok(None)
}
