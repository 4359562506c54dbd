//! The bytes of each file that a recovery writes.
ghost use Rattle.std.specs.Prelude.{◌≡◌, ◌<◌, ◌+◌, true, Some, length, IfOk};
ghost use Rattle.cs_schema.specs.CatalogData.{HasSegment};
ghost use Rattle.cs_schema.specs.Order.{rows_of};
ghost use Rattle.cs_delta.specs.DeltaFile.{delta_text, no_changes};
ghost use Rattle.cs_jix.specs.JoinIndex.{join_index_text};
ghost use Rattle.cs_rebuild.specs.FilesToWrite.{is_written};
ghost use Rattle.cs_rebuild.specs.OnStore.{IsEntryOn, IsSound, entries_on, segment_file_on, table_on, written_on};

use crate::ordered_store::OrderedStore;
use crate::places::ExpectedJoinIndex;
use crate::run::Run;
use crate::segment_encoder::SegmentEncoder;
use cs_board::Gate;
use cs_delta::write_empty_delta;
use cs_jix::write_jix;
use cs_schema::FileName;
use rayon::prelude::*;
use std::alloc::{AllocError, Global};
use std::marker::Sync;
use std::thread::Threads;

/// A segment.
fn segment_bytes<R: Threads + Sync, G: Gate + Sync>(
    run: &Run<'_, R, G>,
    store: &OrderedStore<'_>,
    p: u16,
    s: u16,
) -> Result<Vec<u8>, AllocError>
    requires segment { HasSegment store.now.catalog.now p s }
    ensures { IfOk result (λ bytes. bytes.items ≡ segment_file_on store.now p s) }
{
    SegmentEncoder::new(run.alloc, store, p, s, run.cut).encode(run)
}

/// The delta of a lost segment, which has no changes.
fn delta_bytes(
    alloc: Global,
    store: &OrderedStore<'_>,
    p: u16,
    s: u16,
) -> Result<Vec<u8>, AllocError>
    requires { HasSegment store.now.catalog.now p s }
    ensures { IfOk result (λ bytes. bytes.items ≡ delta_text (no_changes p s (length (rows_of store.now.catalog.now (table_on store.now) p s)))) }
{
    let rows = store.orders.segment(p, s).len() as u32;
    write_empty_delta(alloc, p, s, rows)
}

/// The entries of a join index after the recovery, made by several threads.
fn entries_of<R: Threads + Sync, G: Gate + Sync>(
    run: &Run<'_, R, G>,
    entries: &ExpectedJoinIndex<'_>,
    least: usize,
) -> Result<Vec<(u16, u32)>, AllocError>
    ensures { IfOk result (λ list. list.items ≡ entries_on entries.now.store.now entries.now.p entries.now.s entries.now.q) }
{
    (0..entries.top())
        .into_par_iter()
        .with_min_len(least)
        .map(
            |i: u32| -> (u16, u32)
                requires below { i < 4294967295 }
                ensures { IsEntryOn entries.entry.now.store.now entries.entry.now.p entries.entry.now.s entries.entry.now.q (i + 1) result }
            { entries.at(i + 1) },
        )
        .collect(run.rt, run.alloc)
}

/// A join index after the recovery.
fn join_bytes<R: Threads + Sync, G: Gate + Sync>(
    run: &Run<'_, R, G>,
    store: &OrderedStore<'_>,
    join: (u16, u16, u16),
    least: usize,
) -> Result<Vec<u8>, AllocError>
    requires segment { HasSegment store.now.catalog.now join.0 join.1 }
    requires target { join.2 < length store.now.catalog.now.projections }
    requires sound { IsSound store.now }
    ensures { IfOk result (λ bytes. bytes.items ≡ join_index_text join.0 join.1 join.2 (entries_on store.now join.0 join.1 join.2)) }
{
    let _rules = store.catalog.projection_count();
    let (p, s, q) = join;
    let entries = entries_of(run, &ExpectedJoinIndex::new(store, p, s, q), least)?;
    write_jix(run.alloc, p, s, q, entries.as_slice())
}

/// The bytes of a file that the recovery of a store writes, with its digest. A thread makes at least `least` entries of
/// a join index. Fails only if memory is refused.
pub fn file_bytes<R: Threads + Sync, G: Gate + Sync>(
    run: &Run<'_, R, G>,
    store: &OrderedStore<'_>,
    name: FileName,
    least: usize,
) -> Result<Vec<u8>, AllocError>
    requires written { is_written store.now.catalog.now store.now.loss name ≡ true }
    requires sound { IsSound store.now }
    ensures { IfOk result (λ bytes. written_on store.now name ≡ Some bytes.items) }
{
    // for its clause on the targets of join indexes
    let _rules = store.catalog.projection_count();
    match name {
        FileName::Seg { p, s } => segment_bytes(run, store, p, s),
        FileName::Del { p, s } => delta_bytes(run.alloc, store, p, s),
        FileName::Jix { p, s, q } => join_bytes(run, store, (p, s, q), least),
    }
}
