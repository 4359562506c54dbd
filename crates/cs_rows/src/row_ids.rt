//! Row ids: the segment of a row, and its position in the segment's image.
ghost use Rattle.std.specs.Prelude.{◌≡◌, ◌++◌, ◌∷◌, [], true, false, IfOk, OnOk};

use std::alloc::{AllocError, Global};
use std::marker::Model;

/// The ids of rows of one projection.
#[derive(Drop)]
pub(crate) struct RowIds {
    ids: Vec<(u16, u32)>,
}

impl Model for RowIds {
    ghost use Rattle.std.specs.Prelude.{List, ℕ};

    ghost Value = { List (ℕ × ℕ) };

    ghost view = { λ r. r.ids.items };
}

impl RowIds {
    /// No ids, with room for `room`.
    pub(crate) fn with_room(alloc: Global, room: usize) -> Result<Self, AllocError>
        ensures { IfOk result (λ ids. ids ≡ []) }
    {
        Ok(RowIds {
            ids: Vec::with_capacity(alloc, room)?,
        })
    }

    pub(crate) fn as_slice(&self) -> &[(u16, u32)]
        ensures { result.now ≡ self.now }
    {
        self.ids.as_slice()
    }
}

/// Appends an id if `wanted`.
pub(crate) fn push_if(ids: &mut RowIds, wanted: bool, id: (u16, u32)) -> Result<(), AllocError>
    ensures pushed { OnOk result (wanted ≡ true → ids.new ≡ ids.old ++ id ∷ []) }
    ensures same { OnOk result (wanted ≡ false → ids.new ≡ ids.old) }
{
    if wanted {
        ids.ids.push(id)?;
    }
    Ok(())
}
