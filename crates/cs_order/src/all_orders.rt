//! The orders of all projections, and the place of each row in them.
ghost use Rattle.std.specs.Prelude.{◌≡◌, ◌<◌, ◌≤◌, All, Contains, Some, None, IfSome, length, [], slice_get, slice_index_or};
ghost use Rattle.cs_order.specs.Orders.{numbers_in, StandsAt};
ghost use Rattle.cs_order.specs.Places.{IsAmong};

use crate::ranges::RowIds;
use crate::segments::ProjectionOrder;
use cs_schema::limits::SEGMENT_ROWS;
use std::marker::Model;

/// The row numbers of each segment of each projection, in the projection's order.
#[derive(Drop)]
pub struct Orders {
    pub(crate) rows: usize,
    pub(crate) projections: Vec<ProjectionOrder>,
}

impl Model for Orders {
    ghost use Rattle.cs_order.specs.Orders.{OrdersData};
    ghost use Rattle.cs_order.specs.Places.{segment_lists, HavePlaces};

    ghost Value = { OrdersData };

    ghost view = { λ o. record { rows = o.rows; segments = segment_lists o.projections.items } };

    ghost invariant = { λ o. HavePlaces o.rows o.projections.items };
}

impl Orders {
    /// The numbers of a segment's rows, in the order of its projection.
    pub fn segment(&self, p: u16, s: u16) -> &[u32]
        requires projection { p < length self.now.segments }
        requires segment { s < length (slice_index_or self.now.segments p []) }
        ensures { result.now ≡ numbers_in self.now p s }
    {
        let order = &self.projections[p as usize];
        order.segments[s as usize].rows()
    }

    /// The segment of a row, and its index there. Takes one look-up if a join index leads to the projection, otherwise
    /// a linear search.
    pub fn place(&self, p: u16, row: u32) -> (u16, u32)
        requires projection { p < length self.now.segments }
        requires row { row < self.now.rows }
        ensures { StandsAt self.now p row result.0 result.1 }
    {
        let order = &self.projections[p as usize];
        if row as usize >= order.places.len() {
            return find_row(&order.segments, row);
        }
        let place = order.places[row as usize];
        ((place / SEGMENT_ROWS) as u16, place % SEGMENT_ROWS)
    }
}

/// The index of a row in a list, if it is there.
fn index_of(rows: &[u32], row: u32) -> Option<u32>
    requires { length rows.now ≤ 1048576 }
    ensures found { IfSome result (λ index. slice_get rows.now index ≡ Some row) }
    ensures none { result ≡ None → Contains rows.now row → ⊥ }
{
    for (index, at) in rows.iter().enumerate() {
        if *at == row {
            return Some(index as u32);
        }
    }
    None
}

/// The segment of a row, and its index there, by a linear search.
fn find_row(segments: &[RowIds], row: u32) -> (u16, u32)
    requires few { length segments.now ≤ 16 }
    requires short { All (λ rows. length rows ≤ 1048576) segments.now }
    requires there { IsAmong segments.now row }
    ensures { slice_get (slice_index_or segments.now result.0 []) result.1 ≡ Some row }
{
    for s in 0..segments.len() {
        if let Some(index) = index_of(segments[s].rows(), row) {
            return (s as u16, index);
        }
    }
    unreachable!()
}
