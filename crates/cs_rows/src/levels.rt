//! The walk by rows from one row, level by level.
ghost use Rattle.std.specs.Prelude.{◌≡◌, ◌<◌, ◌≤◌, ◌==◌, ◌||◌, ◌++◌, ◌↔◌, [], length, true, not, All, Some, None, IfOk, OnOk, IfSome, if◌then◌else◌};
ghost use Rattle.std.specs.Prelude.{IsTrue};
ghost use Rattle.std.specs.List.{list_any, find, filter_map};
ghost use Rattle.std.specs.Option.{option_map};
ghost use Rattle.cs_schema.specs.Lists.{member};
ghost use Rattle.cs_schema.specs.CatalogData.{segments, has_join};
ghost use Rattle.cs_delta.specs.Image.{position_of_key};
ghost use Rattle.cs_rows.specs.Walk.{entry_of};
ghost use Rattle.cs_rows.specs.WalkByRows.{numbers_of, landing, looked_at, level, with_level, found_from};
ghost use Rattle.cs_rows.specs.WalkByRows.{is_stray_landing, row_landing, lost_landing};
ghost use Rattle.cs_rows.specs.Survivors.{contents_of};
ghost use Rattle.cs_rows.specs.RowSteps.{landing_of, landing_at, landings_of, started, Stands, LandsWell, AllLandWell, AllStand};

use crate::catalog_of::{has_join, is_lost, projection_count, segments};
use crate::survivors::Survivors;
use cs_schema::Loss;
use std::alloc::{AllocError, Global};
use std::marker::Model;

/// Where an entry of a join index leads.
#[derive(Clone, Copy)]
pub(crate) enum JoinTarget {
    Astray,
    Lost,
    /// A row's segment and its position in the image.
    Row((u16, u32)),
}

/// What the walk from a row has found so far: the rows reached, with their projections, by level and then by
/// projection; the index at which the last level starts among them; and the projections whose segment is lost.
#[derive(Drop)]
pub(crate) struct ReachedRows {
    reached: Vec<(u16, (u16, u32))>,
    last: usize,
    marked: Vec<u16>,
}

impl Model for ReachedRows {
    ghost use Rattle.std.specs.Prelude.{◌≤◌, drop, length};
    ghost use Rattle.cs_rows.specs.WalkByRows.{Found};

    ghost Value = { Found };

    ghost view = { λ f. record { reached = f.reached.items; last = drop f.last f.reached.items; marked = f.marked.items } };

    ghost invariant = { λ f. f.last ≤ length f.reached.items };
}

/// What survives a loss, for the walk by rows.
#[derive(Drop)]
pub(crate) struct RowWalk<'a> {
    pub(crate) survivors: &'a Survivors<'a>,
    pub(crate) loss: Loss,
    /// Whether to leave out rows that an earlier walk finds too.
    pub(crate) fresh_only: bool,
}

/// The entry of a row in its join index to a projection.
fn entry(survivors: &Survivors<'_>, from: (u16, (u16, u32)), q: u16) -> Option<(u16, u32)>
    requires from { Stands survivors.now.catalog (contents_of survivors.now) from }
    requires projection { q < length survivors.now.catalog.projections }
    ensures { result ≡ entry_of (contents_of survivors.now) from.0 q from.1 }
{
    let p = from.0 as usize;
    let at = from.1;
    let segment = at.0 as usize;
    match survivors.image(p, segment) {
        Some(image) => match survivors.join(p, segment, q as usize) {
            Some(join) => join.entry(image.key_at(at.1)),
            None => None,
        },
        None => None,
    }
}

/// The position of a storage key in a segment's image, if the key is live.
fn position(survivors: &Survivors<'_>, q: u16, segment: u16, key: u32) -> Option<u32>
    requires projection { q < length survivors.now.catalog.projections }
    requires segment { segment < segments survivors.now.catalog q }
    ensures position { result ≡ position_of_key ((contents_of survivors.now).image q segment) key }
    ensures there { IfSome result (λ i. i < length ((contents_of survivors.now).image q segment).pairs) }
{
    match survivors.image(q as usize, segment as usize) {
        Some(image) => image.position_of(key),
        None => None,
    }
}

/// Where the entry of a row in the join index to a projection leads.
fn land(walk: &RowWalk<'_>, from: (u16, (u16, u32)), q: u16) -> JoinTarget
    requires from { Stands walk.now.survivors.now.catalog (contents_of walk.now.survivors.now) from }
    requires projection { q < length walk.now.survivors.now.catalog.projections }
    ensures leads { landing_of result ≡ landing walk.now.survivors.now.catalog walk.now.loss
        (contents_of walk.now.survivors.now) q (entry_of (contents_of walk.now.survivors.now) from.0 q from.1) }
    ensures there { LandsWell walk.now.survivors.now.catalog (contents_of walk.now.survivors.now) q result }
{
    match entry(walk.survivors, from, q) {
        Some((segment, key)) => {
            if segment >= segments(walk.survivors, q) {
                return JoinTarget::Astray;
            }
            if is_lost(walk.survivors, walk.loss, q, segment) {
                return JoinTarget::Lost;
            }
            match position(walk.survivors, q, segment, key) {
                Some(i) => JoinTarget::Row((segment, i)),
                None => JoinTarget::Astray,
            }
        }
        None => JoinTarget::Astray,
    }
}

/// The first of the rows whose projection declares a join index to `q`.
fn first_joined(
    survivors: &Survivors<'_>,
    rows: &[(u16, (u16, u32))],
    q: u16,
) -> Option<(u16, (u16, u32))>
    requires { All (λ r. r.0 < length survivors.now.catalog.projections) rows.now }
    ensures { result ≡ find (λ r. has_join survivors.now.catalog r.0 q) rows.now }
{
    for row in rows {
        if has_join(survivors, row.0, q) {
            return Some(*row);
        }
    }
    None
}

/// Whether one of the rows belongs to a projection.
fn is_among(rows: &[(u16, (u16, u32))], q: u16) -> bool
    ensures { result ≡ list_any (λ r. r.0 == q) rows.now }
{
    rows.iter().any(|row| row.0 == q)
}

/// Whether a projection is marked.
fn is_marked(marked: &[u16], q: u16) -> bool
    ensures { result ≡ member marked.now q }
{
    marked.iter().any(|mark| *mark == q)
}

/// Adds the targets of a level to what was found. Returns false if one of them is astray.
fn enter_all(
    reached: &mut Vec<(u16, (u16, u32))>,
    marked: &mut Vec<u16>,
    landings: &[(u16, JoinTarget)],
) -> Result<bool, AllocError>
    ensures grows { length reached.old.items ≤ length reached.new.items }
    ensures sound { IfOk result (λ sound. sound ≡ not (list_any is_stray_landing (landings_of landings.now))) }
    ensures reached { IfOk result (λ sound. sound ≡ true → reached.new.items
        ≡ reached.old.items ++ filter_map row_landing (landings_of landings.now)) }
    ensures marked { IfOk result (λ sound. sound ≡ true → marked.new.items ≡ marked.old.items ++ filter_map lost_landing (landings_of landings.now)) }
{
    for (q, landed) in landings {
        match landed {
            JoinTarget::Astray => return Ok(false),
            JoinTarget::Lost => marked.push(*q)?,
            JoinTarget::Row(at) => reached.push((*q, *at))?,
        }
    }
    Ok(true)
}

impl ReachedRows {
    /// Room for `count` projections.
    pub(crate) fn new(alloc: Global, count: usize) -> Result<Self, AllocError> {
        Ok(ReachedRows {
            reached: Vec::with_capacity(alloc, count)?,
            last: 0,
            marked: Vec::with_capacity(alloc, count)?,
        })
    }

    /// The rows reached, by level and then by projection.
    pub(crate) fn reached(&self) -> &[(u16, (u16, u32))]
        ensures { result.now ≡ self.now.reached }
    {
        self.reached.as_slice()
    }

    /// The rows that the last level reached.
    fn last_level(&self) -> &[(u16, (u16, u32))]
        ensures { result.now ≡ self.now.last }
    {
        &self.reached.as_slice()[self.last..]
    }

    /// Restarts at a row.
    fn start(&mut self, row: (u16, (u16, u32))) -> Result<(), AllocError>
        ensures { OnOk result (self.new ≡ started row) }
    {
        self.last = 0;
        self.reached.clear();
        self.marked.clear();
        self.reached.push(row)?;
        Ok(())
    }

    /// Whether the last level reached no row.
    fn is_ended(&self) -> bool
        ensures { IsTrue result ↔ (self.now.last ≡ []) }
    {
        self.last == self.reached.len()
    }

    /// Whether a projection is reached or marked.
    fn is_seen(&self, q: u16) -> bool
        ensures { result ≡ (member (numbers_of self.now.reached) q || member self.now.marked q) }
    {
        is_among(self.reached.as_slice(), q) || is_marked(self.marked.as_slice(), q)
    }

    /// The target in a projection, if the next level looks there.
    fn look(&self, walk: &RowWalk<'_>, q: u16) -> Option<JoinTarget>
        requires stand { AllStand walk.now.survivors.now.catalog (contents_of walk.now.survivors.now) self.now }
        requires projection { q < length walk.now.survivors.now.catalog.projections }
        ensures looked { option_map (landing_at q) result ≡ looked_at walk.now.survivors.now.catalog
            walk.now.loss (contents_of walk.now.survivors.now) self.now q }
        ensures there { IfSome result (LandsWell walk.now.survivors.now.catalog (contents_of walk.now.survivors.now) q) }
    {
        if self.is_seen(q) {
            return None;
        }
        match first_joined(walk.survivors, self.last_level(), q) {
            Some(from) => Some(land(walk, from, q)),
            None => None,
        }
    }

    /// The targets of the next level.
    fn look_ahead(
        &self,
        walk: &RowWalk<'_>,
        landings: &mut Vec<(u16, JoinTarget)>,
    ) -> Result<(), AllocError>
        requires stand { AllStand walk.now.survivors.now.catalog (contents_of walk.now.survivors.now) self.now }
        ensures level { OnOk result (landings_of landings.new.items
            ≡ level walk.now.survivors.now.catalog walk.now.loss (contents_of walk.now.survivors.now) self.now) }
        ensures there { OnOk result (AllLandWell walk.now.survivors.now.catalog (contents_of walk.now.survivors.now) landings.new.items) }
    {
        landings.clear();
        for q in 0..projection_count(walk.survivors) {
            match self.look(walk, q) {
                Some(landed) => landings.push((q, landed))?,
                None => {}
            }
        }
        Ok(())
    }

    /// Adds the next level. Returns false if one of its targets is astray.
    fn enter(&mut self, landings: &[(u16, JoinTarget)]) -> Result<bool, AllocError>
        ensures sound { IfOk result (λ sound. sound ≡ not (list_any is_stray_landing (landings_of landings.now))) }
        ensures entered { IfOk result (λ sound. sound ≡ true → self.new ≡ with_level self.old (landings_of landings.now)) }
    {
        let last = self.reached.len();
        let sound = enter_all(&mut self.reached, &mut self.marked, landings)?;
        self.last = last;
        Ok(sound)
    }
}

/// Walks from a row until a level reaches no row. Returns false if the walk is led astray.
#[inline(always)]
pub(crate) fn walk_from(
    walk: &RowWalk<'_>,
    row: (u16, (u16, u32)),
    reached_rows: &mut ReachedRows,
    landings: &mut Vec<(u16, JoinTarget)>,
) -> Result<bool, AllocError>
    requires row { Stands walk.now.survivors.now.catalog (contents_of walk.now.survivors.now) row }
    ensures found { IfOk result (λ sound. found_from walk.now.survivors.now.catalog walk.now.loss
        (contents_of walk.now.survivors.now) row.0 row.1 ≡ (if sound then Some reached_rows.new else None)) }
    ensures stand { IfOk result (λ sound. sound ≡ true
        → AllStand walk.now.survivors.now.catalog (contents_of walk.now.survivors.now) reached_rows.new) }
{
    reached_rows.start(row)?;
    for _step in 0..projection_count(walk.survivors) {
        if reached_rows.is_ended() {
            return Ok(true);
        }
        reached_rows.look_ahead(walk, landings)?;
        if !reached_rows.enter(landings.as_slice())? {
            return Ok(false);
        }
    }
    Ok(true)
}
