//! Comparing the surviving images with the table.
ghost use Rattle.std.specs.Prelude.{◌≡◌, ◌≤◌, ℕ, Some, None, IfErr, OnOk, length, not};
ghost use Rattle.std.specs.List.{slice_get};
ghost use Rattle.std.specs.Option.{option_and_then};
ghost use Rattle.cs_schema.specs.declared.file_name.FileName.{FileName as NameData};
ghost use Rattle.cs_schema.specs.FileNames.{Survives};
ghost use Rattle.cs_schema.specs.Lists.{IsIn};
ghost use Rattle.cs_store.specs.Fault.{MemoryOr};
ghost use Rattle.cs_recovery.specs.Verdicts.{surviving_segments, misplaced};
ghost use Rattle.cs_rebuild.specs.Verifying.{ImageFaultAt, is_misplaced, misplaced_at};
ghost use Rattle.cs_rebuild.specs.WorkLaws.{one_value};
ghost use Rattle.cs_rebuild.specs.OnStore.{held_on, table_on};

use crate::comparing::has_rows;
use crate::ordered_store::OrderedStore;
use crate::rounds::Tasks;
use crate::run::Run;
use cs_board::{Gate, Round};
use cs_store::Fault;
use std::marker::Sync;
use std::thread::Threads;

/// Whether the image of a surviving segment has the table's rows of its range, in order.
pub fn is_placed<R: Threads>(rt: &R, store: &OrderedStore<'_>, p: u16, s: u16) -> bool
    requires { Survives store.now.catalog.now store.now.loss (NameData.Seg p s) }
    ensures { result ≡ not (is_misplaced store.now.catalog.now (held_on store.now) (table_on store.now) (p, s)) }
{
    let numbers = store.orders.segment(p, s);
    match store.survivors.image(p as usize, s as usize) {
        Some(image) => has_rows(rt, store.catalog, p, image, &store.walked, numbers),
        None => unreachable!(),
    }
}

/// The comparison of some images with the table's rows, one task for each image.
#[derive(Drop)]
struct ImageTasks<'a, R> {
    rt: &'a R,
    store: &'a OrderedStore<'a>,
    segments: &'a [(u16, u16)],
    ghost few: { length segments.now ≤ 128 },
    ghost survive: { (a : ℕ × ℕ) → IsIn a segments.now → Survives store.now.catalog.now store.now.loss (NameData.Seg a.0 a.1) },
}

impl<R: Threads> Tasks for ImageTasks<'_, R> {
    type Out = ();

    ghost tasks = { λ work. length work.segments.now };

    ghost fault_at = { λ work i fault. ImageFaultAt work.store.now.catalog.now (held_on work.store.now)
        (table_on work.store.now) work.segments.now i fault };

    ghost answers = { λ work i out. Unit {0} };

    fn count(&self) -> u32 {
        self.segments.len() as u32
    }

    fn task(&self, i: u32) -> Result<(), Fault> {
        let (p, s) = self.segments[i as usize];
        if is_placed(self.rt, self.store, p, s) {
            Ok(())
        } else {
            Err(Fault::Misplaced { p, s })
        }
    }

    ghost one_fault = { λ work i f g below a b. one_value (option_and_then
        (misplaced_at work.store.now.catalog.now (held_on work.store.now) (table_on work.store.now))
        (slice_get work.segments.now i)) f g a b };
}

/// Compares each surviving image with the table's rows. Fails with `Misplaced` at the first that differs.
pub fn verify_images<R: Threads + Sync, G: Gate + Sync>(
    run: &Run<'_, R, G>,
    store: &OrderedStore<'_>,
    segments: &[(u16, u16)],
) -> Result<(), Fault>
    requires few { length segments.now ≤ 128 }
    requires segments { segments.now ≡ surviving_segments store.now.catalog.now store.now.loss }
    ensures ok { OnOk result (misplaced store.now.catalog.now store.now.loss (held_on store.now) (table_on store.now) ≡ None) }
    ensures err { IfErr result (λ fault. MemoryOr fault (misplaced store.now.catalog.now store.now.loss
        (held_on store.now) (table_on store.now) ≡ Some fault)) }
{
    let tasks = ImageTasks {
        rt: run.rt,
        store,
        segments,
    };
    match run.round(Round::Images, &tasks) {
        Ok(_done) => Ok(()),
        Err(fault) => Err(fault),
    }
}
