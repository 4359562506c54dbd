//! The order of a layer's items, and the number of rows that they leave.
ghost use Rattle.std.specs.Prelude.{◌≡◌, ◌<◌, ◌↔◌, ◌^◌, length, IsTrue};
ghost use Rattle.std.specs.List.{AllAdjacentBelow};
ghost use Rattle.cs_delta.specs.ItemView.{change_of};
ghost use Rattle.cs_delta.specs.DeltaFile.{may_follow, rows_after};

use crate::item::Item;
use crate::layer::Layer;

/// Whether an item may come right after another.
fn follows(item: &Item, next: &Item) -> bool
    ensures { result ≡ may_follow (change_of item.now) (change_of next.now) }
{
    let place = match next {
        Item::Insert { at, .. } => *at,
        Item::Delete { at } => *at,
        Item::Modify { at, .. } => *at,
    };
    match (item, next) {
        (Item::Insert { at, .. }, _) => *at <= place,
        (Item::Delete { at }, _) => *at < place,
        (
            Item::Modify { at, column, .. },
            Item::Modify {
                at: to,
                column: changed,
                ..
            },
        ) => {
            if *at == *to {
                *column < *changed
            } else {
                *at < *to
            }
        }
        (Item::Modify { at, .. }, _) => *at < place,
    }
}

/// Whether each item may come right after the one before it.
pub(crate) fn are_in_order(layer: &Layer) -> bool
    ensures { IsTrue result ↔ AllAdjacentBelow (λ c e. IsTrue (may_follow c e)) layer.now (length layer.now) }
{
    for i in 1..layer.len() {
        if !follows(&layer.item(i - 1), &layer.item(i)) {
            return false;
        }
    }
    true
}

/// The number of rows after a layer on `below` rows.
pub(crate) fn rows_left(below: u32, layer: &Layer) -> u64
    requires { length layer.now < 2 ^ 32 }
    ensures value { result ≡ rows_after below layer.now }
{
    let mut inserts: u64 = 0;
    let mut deletes: u64 = 0;
    for i in 0..layer.len() {
        match layer.item(i) {
            Item::Insert { .. } => inserts += 1,
            Item::Delete { .. } => deletes += 1,
            Item::Modify { .. } => {}
        }
    }
    (u64::from(below) + inserts).saturating_sub(deletes)
}
