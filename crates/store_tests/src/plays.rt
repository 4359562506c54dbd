//! Stores that are changed and called, one step after the other.
use crate::answers::{Ask, expect};
use crate::stores::Store;
use cs_schema::FileName;
use std::marker::Sync;
use std::process::Abort;
use std::test::Fail;
use std::thread::Threads;
use test_support::catalogs::Edit;
use test_support::columns::Column;
use test_support::files::{Delta, changed};
use test_support::stores::Parts;

/// The edits of a catalog, the parts of a store under it, and the steps.
pub type Play<'a> = (&'a [Edit<'a>], &'a Parts<'a>, &'a [Step<'a>]);

/// A change of a store, or a call.
#[derive(Drop)]
pub enum Step<'a> {
    Asked(&'a [Ask<'a>]),
    /// Puts a segment by `p` and `s`, and its delta without items.
    Segment(u16, u16, &'a [Column<'a>]),
    /// Puts the delta of a segment.
    Delta(u16, u16, Delta<'a>),
    /// Puts a join index by `p`, `s` and `q`.
    Join(u16, u16, u16, &'a [(u16, u32)]),
    /// Puts a file of one byte.
    OneByte(FileName),
    LastByteChanged(FileName),
    LastByteCut(FileName),
    TakenAway(FileName),
}

/// Runs the plays of a catalog and expects each answer.
pub fn expect_plays(
    rt: &(impl Threads + Sync + AllocGlobal + Abort),
    catalog: &str,
    plays: &[Play],
) -> Result<(), Fail> {
    for play in plays {
        expect_play(rt, catalog, play)?;
    }
    Ok(())
}

fn expect_play(
    rt: &(impl Threads + Sync + AllocGlobal + Abort),
    catalog: &str,
    (edits, parts, steps): &Play,
) -> Result<(), Fail> {
    let mut store = Store::edited(rt.alloc(), catalog, edits, parts)?;
    take_steps(rt, &mut store, steps)
}

fn take_steps(
    rt: &(impl Threads + Sync + Abort),
    store: &mut Store,
    steps: &[Step],
) -> Result<(), Fail> {
    for step in steps {
        take_step(rt, store, step)?;
    }
    Ok(())
}

fn take_step(
    rt: &(impl Threads + Sync + Abort),
    store: &mut Store,
    step: &Step,
) -> Result<(), Fail> {
    match step {
        Step::Asked(asks) => expect(rt, store, asks),
        Step::Segment(p, s, columns) => store.put_segment(*p, *s, columns),
        Step::Delta(p, s, delta) => store.put_delta(*p, *s, *delta),
        Step::Join(p, s, q, entries) => store.put_join(*p, *s, *q, entries),
        Step::OneByte(name) => store.put_one_byte(*name),
        Step::LastByteChanged(name) => store.change_last_byte(*name),
        Step::LastByteCut(name) => store.cut_last_byte(*name),
        Step::TakenAway(name) => store.take_away(*name),
    }
}
