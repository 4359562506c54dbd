//! Columns of ints.
ghost use Rattle.std.specs.Prelude.{◌≡◌, ◌<◌, ◌++◌, ℕ, length, take, slice_index, OnOk, OnErr, vec_len};
ghost use Rattle.cs_schema.specs.Blocks.{texts_at};

use std::alloc::AllocError;

/// Appends the ints at these indices. If memory is refused, nothing changes.
pub(crate) fn push_ints_at(
    ints: &mut Vec<i64>,
    others: &[i64],
    places: &[u32],
) -> Result<(), AllocError>
    requires { (k : ℕ) → k < length places.now → slice_index places.now k < length others.now }
    ensures ok { OnOk result (ints.new.items ≡ ints.old.items ++ texts_at others.now places.now) }
    ensures err { OnErr result (ints.new.items ≡ ints.old.items) }
{
    let count = ints.len();
    let added = push_each(ints, others, places);
    if added.is_err() {
        ints.truncate(count);
    }
    added
}

/// Appends the ints at these indices. If memory is refused, some of them have been appended.
fn push_each(ints: &mut Vec<i64>, others: &[i64], places: &[u32]) -> Result<(), AllocError>
    requires { (k : ℕ) → k < length places.now → slice_index places.now k < length others.now }
    ensures all { OnOk result (ints.new.items ≡ ints.old.items ++ texts_at others.now places.now) }
    ensures kept { take (vec_len ints.old) ints.new.items ≡ ints.old.items }
{
    ints.reserve(places.len())?;
    for place in places {
        ints.push(others[*place as usize])?;
    }
    Ok(())
}
