//! A verified store: what survives of it holds its table.
ghost use Rattle.std.specs.Prelude.{◌≡◌};
ghost use Rattle.cs_rebuild.specs.OnStore.{IsSound};

use crate::ordered_store::OrderedStore;
use std::marker::Model;

/// What survives of a store, with its table and orders. Each surviving file holds what the table requires of it.
#[derive(Drop)]
pub struct SoundStore<'a> {
    ordered: OrderedStore<'a>,
}

impl<'a> Model for SoundStore<'a> {
    ghost use Rattle.cs_rebuild.specs.OnStore.{IsSound};
    ghost use Rattle.cs_rebuild.specs.declared.ordered_store.OrderedStore.{OrderedStore as Ordered};
    ghost use Rattle.cs_recovery.proofs.CatalogFacts.{IsTable-prop};
    ghost use Rattle.std.specs.Coded.{codes};

    ghost Value = { Ordered };

    ghost coded = { Prim.hlevel (IsTable-prop, codes) };

    ghost view = { λ s. s.ordered };

    ghost invariant = { λ s. IsSound s.ordered };
}

impl<'a> SoundStore<'a> {
    /// A store that is known to be sound.
    pub fn of(ordered: OrderedStore<'a>) -> Self
        requires { IsSound ordered }
        ensures { result ≡ ordered.entry }
    {
        SoundStore { ordered }
    }

    /// What survives, with the rows in their orders.
    pub fn ordered(&self) -> &OrderedStore<'a>
        ensures is { result.now ≡ self.now }
        ensures sound { IsSound self.now }
    {
        &self.ordered
    }

    /// The ordered store alone.
    pub fn into_ordered(self) -> OrderedStore<'a>
        ensures { result ≡ self.entry }
    {
        self.ordered
    }
}
