//! The conflicts of join indexes with a table.
ghost use Rattle.std.proofs.Common.{◌∙◌, sym};
ghost use Rattle.std.specs.Prelude.{◌≡◌, ◌<◌, ◌≤◌, ℕ, None, length, IfOk, IfSome};
ghost use Rattle.cs_schema.specs.declared.file_name.FileName.{FileName as NameData};
ghost use Rattle.cs_schema.specs.FileNames.{Survives};
ghost use Rattle.cs_schema.specs.Lists.{IsIn};
ghost use Rattle.cs_jix.specs.JoinIndex.{Place};
ghost use Rattle.cs_board.specs.Pieces.{AnswersInOrder};
ghost use Rattle.cs_rows.specs.Survivors.{contents_of};
ghost use Rattle.cs_recovery.specs.Conflicts.{site_of};
ghost use Rattle.cs_rebuild.specs.OnStore.{held_on, table_on};
ghost use Rattle.cs_rebuild.specs.Verifying.{entry_or_zero};
ghost use Rattle.cs_diagnosis.specs.Conflicts.{IsKeyConflict, IsJoinConflict, JoinConflictAt};

use crate::sites::site_alone;
use cs_jix::JoinIndex;
use cs_rebuild::places::ExpectedJoinIndex;
use cs_rebuild::{Fault, Gate, OrderedStore, Round, Run, Tasks, entry_or_zero};
use cs_schema::Loss;
use std::alloc::AllocError;
use std::marker::Sync;
use std::thread::Threads;

/// The site with which the entry for a key is in conflict, if any: the site of the row's segment if the row has another
/// key there, or the join index's own site if every key would be wrong.
fn key_conflict(
    entries: &ExpectedJoinIndex<'_>,
    site: u8,
    entry: (u16, u32),
    key: u32,
) -> Option<u8>
    requires survives { Survives entries.now.store.now.catalog.now entries.now.store.now.loss
        (NameData.Jix entries.now.p entries.now.s entries.now.q) }
    requires site { site ≡ site_of entries.now.store.now.catalog.now (NameData.Seg entries.now.p entries.now.s) }
    requires range { (1 ≤ site) × (site ≤ 16) }
    ensures conflict { IsKeyConflict entries.now.store.now.catalog.now entries.now.store.now.loss
        (held_on entries.now.store.now) (table_on entries.now.store.now) entries.now.p entries.now.s
        entries.now.q key entry result }
    ensures range { IfSome result (λ other. (1 ≤ other) × (other ≤ 16)) }
{
    let Some(position) = entries.position(key) else {
        return if entry == (0, 0) { None } else { Some(site) };
    };
    let position = position as usize;
    // the image has more rows than the table's range
    if position >= entries.numbers.len() {
        return Some(site);
    }
    let place = entries.place(entries.numbers[position]);
    if entry.0 != place.0 || entry.1 == 0 {
        return Some(site);
    }
    let store = entries.store;
    // if the row's segment is lost, every key agrees
    if entry.1 == place.1 || store.catalog.lost(entries.q, place.0, store.loss) {
        return None;
    }
    Some(store.catalog.site(entries.q, place.0))
}

/// The conflicts of a join index, with its site.
fn join_conflict(store: &OrderedStore<'_>, p: u16, s: u16, q: u16) -> (u8, Loss)
    requires { Survives store.now.catalog.now store.now.loss (NameData.Jix p s q) }
    ensures { IsJoinConflict store.now.catalog.now store.now.loss (held_on store.now) (table_on store.now) (p, s, q) result }
{
    let _rules = store.catalog.projection_count();
    let site = store.catalog.site(p, s);
    match store.survivors.join(p as usize, s as usize, q as usize) {
        Some(join) => (site, others_of(store, p, s, q, join, site)),
        None => unreachable!(),
    }
}

/// The sites with which the entries of a join index conflict.
fn others_of(store: &OrderedStore<'_>, p: u16, s: u16, q: u16, join: &JoinIndex, site: u8) -> Loss
    requires survives { Survives store.now.catalog.now store.now.loss (NameData.Jix p s q) }
    requires join { join.now ≡ (held_on store.now).join p s q }
    requires site { site ≡ site_of store.now.catalog.now (NameData.Seg p s) }
    requires range { (1 ≤ site) × (site ≤ 16) }
    ensures { IsJoinConflict store.now.catalog.now store.now.loss (held_on store.now) (table_on store.now) (p, s, q) (site, result) }
{
    let _rules = store.catalog.projection_count();
    let entries = ExpectedJoinIndex::new(store, p, s, q);
    let top = entries.top();
    if join.top() != top {
        return site_alone(site);
    }
    let mut others = Loss::none();
    for i in 0..top {
        match key_conflict(&entries, site, entry_or_zero(join, i + 1), i + 1) {
            None => {}
            Some(other) => {
                if other == site {
                    return site_alone(site);
                }
                others = others.with(other);
            }
        }
    }
    others
}

/// The comparison of some join indexes with the places of the table's rows, one task for each join index.
#[derive(Drop)]
struct JoinsWork<'a> {
    store: &'a OrderedStore<'a>,
    joins: &'a [(u16, u16, u16)],
    ghost few: { length joins.now ≤ 1024 },
    ghost survive: { (a : ℕ × ℕ × ℕ) → IsIn a joins.now → Survives store.now.catalog.now store.now.loss (NameData.Jix a.0 a.1 a.2) },
}

impl Tasks for JoinsWork<'_> {
    type Out = (u8, Loss);

    ghost tasks = { λ work. length work.joins.now };

    ghost fault_at = { λ work i fault. fault ≡ None };

    ghost answers = { λ work i out. JoinConflictAt work.store.now.catalog.now work.store.now.loss
        (held_on work.store.now) (table_on work.store.now) work.joins.now i out };

    fn count(&self) -> u32 {
        self.joins.len() as u32
    }

    fn task(&self, i: u32) -> Result<(u8, Loss), Fault> {
        let (p, s, q) = self.joins[i as usize];
        Ok(join_conflict(self.store, p, s, q))
    }

    ghost one_fault = { λ work i f g below a b. a ∙ sym b };
}

/// The conflicts of each of these join indexes. Fails only if memory is refused.
pub fn joins_conflicts<R: Threads + Sync, G: Gate + Sync>(
    run: &Run<'_, R, G>,
    store: &OrderedStore<'_>,
    joins: &[(u16, u16, u16)],
) -> Result<Vec<(u8, Loss)>, AllocError>
    requires few { length joins.now ≤ 1024 }
    requires survive { (a : ℕ × ℕ × ℕ) → IsIn a joins.now → Survives store.now.catalog.now store.now.loss (NameData.Jix a.0 a.1 a.2) }
    ensures count { IfOk result (λ found. length found.items ≡ length joins.now) }
    ensures each { IfOk result (λ found. AnswersInOrder (JoinConflictAt store.now.catalog.now store.now.loss
        (held_on store.now) (table_on store.now) joins.now) found.items) }
{
    let work = JoinsWork { store, joins };
    match run.round(Round::Joins, &work) {
        Ok(found) => Ok(found),
        Err(_) => Err(AllocError),
    }
}
