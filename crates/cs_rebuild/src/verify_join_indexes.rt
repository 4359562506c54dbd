//! Comparing the surviving join indexes with the places of their rows. A large join index is compared by several
//! threads.
ghost use Rattle.std.specs.Prelude.{◌≡◌, ◌<◌, ◌≤◌, ◌↔◌, ℕ, Some, None, IsTrue, IfErr, OnOk, length, not};
ghost use Rattle.std.specs.List.{slice_get};
ghost use Rattle.std.specs.Option.{option_and_then};
ghost use lib.Pointwise.{pointwise};
ghost use Rattle.cs_schema.specs.declared.file_name.FileName.{FileName as NameData};
ghost use Rattle.cs_schema.specs.CatalogData.{segments};
ghost use Rattle.cs_schema.specs.FileNames.{Survives};
ghost use Rattle.cs_schema.specs.Lists.{IsIn};
ghost use Rattle.cs_store.specs.Fault.{MemoryOr};
ghost use Rattle.cs_recovery.specs.Holding.{agrees};
ghost use Rattle.cs_recovery.specs.Verdicts.{surviving_joins, misled};
ghost use Rattle.cs_rebuild.specs.Verifying.{JoinIndexFaultAt, AreLed, HasNoKeylessPlace, is_misled, misled_at, entry_or_zero};
ghost use Rattle.cs_rebuild.specs.WorkLaws.{one_value};
ghost use Rattle.cs_rebuild.specs.OnStore.{held_on, table_on, entries_on};

use crate::ordered_store::OrderedStore;
use crate::places::ExpectedJoinIndex;
use crate::rounds::Tasks;
use crate::run::Run;
use crate::thresholds::PART;
use cs_board::{Gate, Round};
use cs_jix::JoinIndex;
use cs_schema::{Catalog, Loss};
use cs_store::Fault;
use std::marker::Sync;
use std::thread::{Threads, join_mut};

/// The entry for a key, or `(0, 0)` if the key has none.
pub fn entry_or_zero(join: &JoinIndex, key: u32) -> (u16, u32)
    ensures { result ≡ entry_or_zero join.now key }
{
    match join.entry(key) {
        Some(place) => place,
        None => (0, 0),
    }
}

/// Whether an entry agrees with the expected place. In a lost segment, every key agrees.
fn agrees(catalog: &Catalog, loss: Loss, q: u16, entry: (u16, u32), place: (u16, u32)) -> bool
    requires target { q < length catalog.now.projections }
    requires segment { place.0 < segments catalog.now q }
    ensures { result ≡ agrees catalog.now loss q entry place }
{
    if entry.0 != place.0 {
        return false;
    }
    // most entries are exactly the place, so the catalog is seldom looked up
    if entry.1 == place.1 {
        return true;
    }
    place.1 != 0 && entry.1 >= 1 && catalog.lost(q, place.0, loss)
}

/// Whether a join index has the expected entries for the keys above `from` and up to `to`.
fn matches_between(entries: &ExpectedJoinIndex<'_>, index: &JoinIndex, from: u32, to: u32) -> bool
    requires within { to ≤ length index.now }
    requires raw { HasNoKeylessPlace index.now }
    ensures { IsTrue result ↔ AreLed entries.now index.now from to }
{
    let store = entries.store;
    for i in from..to {
        let place = entries.at(i + 1);
        if !agrees(
            store.catalog,
            store.loss,
            entries.q,
            entry_or_zero(index, i + 1),
            place,
        ) {
            return false;
        }
    }
    true
}

/// Whether a join index has the expected entries for its first `end` keys. Parts of `PART` keys are compared in
/// parallel.
fn matches_first<R: Threads>(
    rt: &R,
    entries: &ExpectedJoinIndex<'_>,
    index: &JoinIndex,
    end: u32,
) -> bool
    requires within { end ≤ length index.now }
    requires raw { HasNoKeylessPlace index.now }
    ensures { IsTrue result ↔ AreLed entries.now index.now 0 end }
{
    if end <= PART {
        return matches_between(entries, index, 0, end);
    }
    let start = end - PART;
    // `join` guarantees nothing for a closure over a struct of references
    let (here, before) = join_mut(
        rt,
        &mut || -> bool
            requires { (end ≤ length index.now) × HasNoKeylessPlace index.now }
            ensures { IsTrue result ↔ AreLed entries.entry.now index.entry.now start end }
        { matches_between(entries, index, start, end) },
        &mut || -> bool
            requires { (start ≤ length index.now) × HasNoKeylessPlace index.now }
            ensures { IsTrue result ↔ AreLed entries.entry.now index.entry.now 0 start }
        { matches_first(rt, entries, index, start) },
    );
    here && before
}

/// Whether a join index of a segment has the expected entries.
fn matches_expected<R: Threads>(
    rt: &R,
    store: &OrderedStore<'_>,
    p: u16,
    s: u16,
    q: u16,
    index: &JoinIndex,
) -> bool
    requires survives { Survives store.now.catalog.now store.now.loss (NameData.Jix p s q) }
    requires target { q < length store.now.catalog.now.projections }
    requires raw { HasNoKeylessPlace index.now }
    ensures { result ≡ pointwise (agrees store.now.catalog.now store.now.loss q) index.now (entries_on store.now p s q) }
{
    let entries = ExpectedJoinIndex::new(store, p, s, q);
    let top = entries.top();
    if index.top() != top {
        return false;
    }
    matches_first(rt, &entries, index, top)
}

/// Whether a surviving join index leads to the places of its rows.
fn is_led<R: Threads>(rt: &R, store: &OrderedStore<'_>, p: u16, s: u16, q: u16) -> bool
    requires { Survives store.now.catalog.now store.now.loss (NameData.Jix p s q) }
    ensures { result ≡ not (is_misled store.now.catalog.now store.now.loss (held_on store.now) (table_on store.now) (p, s, q)) }
{
    let _rules = store.catalog.projection_count();
    match store.survivors.join(p as usize, s as usize, q as usize) {
        Some(index) => matches_expected(rt, store, p, s, q, index),
        None => unreachable!(),
    }
}

/// The comparison of some join indexes with the places of their rows, one task for each join index.
#[derive(Drop)]
struct JoinIndexTasks<'a, R> {
    rt: &'a R,
    store: &'a OrderedStore<'a>,
    joins: &'a [(u16, u16, u16)],
    ghost few: { length joins.now ≤ 1024 },
    ghost survive: { (a : ℕ × ℕ × ℕ) → IsIn a joins.now → Survives store.now.catalog.now store.now.loss (NameData.Jix a.0 a.1 a.2) },
}

impl<R: Threads> Tasks for JoinIndexTasks<'_, R> {
    type Out = ();

    ghost tasks = { λ work. length work.joins.now };

    ghost fault_at = { λ work i fault. JoinIndexFaultAt work.store.now.catalog.now work.store.now.loss
        (held_on work.store.now) (table_on work.store.now) work.joins.now i fault };

    ghost answers = { λ work i out. Unit {0} };

    fn count(&self) -> u32 {
        self.joins.len() as u32
    }

    fn task(&self, i: u32) -> Result<(), Fault> {
        let (p, s, q) = self.joins[i as usize];
        if is_led(self.rt, self.store, p, s, q) {
            Ok(())
        } else {
            Err(Fault::Misled { p, s, q })
        }
    }

    ghost one_fault = { λ work i f g below a b. one_value (option_and_then
        (misled_at work.store.now.catalog.now work.store.now.loss (held_on work.store.now)
        (table_on work.store.now)) (slice_get work.joins.now i)) f g a b };
}

/// Compares each surviving join index with the places of its rows. Fails with `Misled` at the first that leads
/// elsewhere.
pub fn verify_joins<R: Threads + Sync, G: Gate + Sync>(
    run: &Run<'_, R, G>,
    store: &OrderedStore<'_>,
    joins: &[(u16, u16, u16)],
) -> Result<(), Fault>
    requires few { length joins.now ≤ 1024 }
    requires joins { joins.now ≡ surviving_joins store.now.catalog.now store.now.loss }
    ensures ok { OnOk result (misled store.now.catalog.now store.now.loss (held_on store.now) (table_on store.now) ≡ None) }
    ensures err { IfErr result (λ fault. MemoryOr fault (misled store.now.catalog.now store.now.loss
        (held_on store.now) (table_on store.now) ≡ Some fault)) }
{
    let tasks = JoinIndexTasks {
        rt: run.rt,
        store,
        joins,
    };
    match run.round(Round::Joins, &tasks) {
        Ok(_done) => Ok(()),
        Err(fault) => Err(fault),
    }
}
