//! What a plan is.
use arrayvec::ArrayVec;
use std::marker::Model;

/// A plan of a recovery: the projection at which the walk begins (the anchor), for each other the one from which it is
/// entered, and for each column the one from which it is read.
///
/// `prev` has an entry for each projection: `None` for the anchor and for those that the walk does not enter. `source`
/// has an entry for each column of the table.
#[derive(Drop)]
pub struct Plan {
    pub anchor: u8,
    pub prev: ArrayVec<Option<u8>, 8>,
    pub source: ArrayVec<u8, 32>,
}

impl Model for Plan {
    ghost use Rattle.cs_safety.specs.PlanData.{PlanData};
    ghost use Rattle.cs_safety.specs.PlanView.{plan_data};

    ghost Value = { PlanData };

    ghost view = { plan_data };
}

impl Plan {
    ghost use Rattle.std.specs.Prelude.{◌≡◌, ◌<◌, ◌↔◌, IsTrue, length};
    ghost use Rattle.cs_schema.specs.CatalogData.{CatalogData};
    ghost use Rattle.cs_schema.specs.Losses.{Sites, alive};
    ghost use Rattle.cs_safety.specs.Paths.{IsReached};
    ghost use Rattle.cs_safety.specs.PlanData.{IsPlan, is_planned};

    /// Whether the walk enters a projection.
    pub fn reached(&self, p: u16) -> bool
        requires { p < length self.now.prev }
        ensures test { result ≡ is_planned self.now p }
        ensures reached { (C : CatalogData) (L : Sites) → IsPlan C L self.now → IsTrue result ↔ IsReached C (alive C L) self.now.anchor p }
    {
        p == u16::from(self.anchor) || self.prev[p as usize].is_some()
    }
}
