//! The conflicts of images with a table.
ghost use Rattle.std.proofs.Common.{◌∙◌, sym};
ghost use Rattle.std.specs.Prelude.{◌≡◌, ◌<◌, ◌≤◌, ℕ, None, length, IfOk};
ghost use Rattle.cs_schema.specs.declared.file_name.FileName.{FileName as NameData};
ghost use Rattle.cs_schema.specs.FileNames.{Survives};
ghost use Rattle.cs_schema.specs.Lists.{IsIn};
ghost use Rattle.cs_board.specs.Pieces.{AnswersInOrder};
ghost use Rattle.cs_rebuild.specs.OnStore.{held_on, table_on};
ghost use Rattle.cs_diagnosis.specs.Conflicts.{IsImageConflict, ImageConflictAt};

use crate::sites::site_alone;
use cs_rebuild::{Fault, Gate, OrderedStore, Round, Run, Tasks, is_placed};
use cs_schema::Loss;
use std::alloc::AllocError;
use std::marker::Sync;
use std::thread::Threads;

/// The conflict of a segment's image: it contradicts the table by itself, or not at all.
fn image_conflict<R: Threads>(rt: &R, store: &OrderedStore<'_>, p: u16, s: u16) -> (u8, Loss)
    requires { Survives store.now.catalog.now store.now.loss (NameData.Seg p s) }
    ensures { IsImageConflict store.now.catalog.now (held_on store.now) (table_on store.now) (p, s) result }
{
    let site = store.catalog.site(p, s);
    if is_placed(rt, store, p, s) {
        (site, Loss::none())
    } else {
        (site, site_alone(site))
    }
}

/// The comparison of some images with the table's rows, one task for each image.
#[derive(Drop)]
struct ImagesWork<'a, R> {
    rt: &'a R,
    store: &'a OrderedStore<'a>,
    segments: &'a [(u16, u16)],
    ghost few: { length segments.now ≤ 128 },
    ghost survive: { (a : ℕ × ℕ) → IsIn a segments.now → Survives store.now.catalog.now store.now.loss (NameData.Seg a.0 a.1) },
}

impl<R: Threads> Tasks for ImagesWork<'_, R> {
    type Out = (u8, Loss);

    ghost tasks = { λ work. length work.segments.now };

    ghost fault_at = { λ work i fault. fault ≡ None };

    ghost answers = { λ work i out. ImageConflictAt work.store.now.catalog.now (held_on work.store.now)
        (table_on work.store.now) work.segments.now i out };

    fn count(&self) -> u32 {
        self.segments.len() as u32
    }

    fn task(&self, i: u32) -> Result<(u8, Loss), Fault> {
        let (p, s) = self.segments[i as usize];
        Ok(image_conflict(self.rt, self.store, p, s))
    }

    ghost one_fault = { λ work i f g below a b. a ∙ sym b };
}

/// The conflict of each of these images. Fails only if memory is refused.
pub fn images_conflicts<R: Threads + Sync, G: Gate + Sync>(
    run: &Run<'_, R, G>,
    store: &OrderedStore<'_>,
    segments: &[(u16, u16)],
) -> Result<Vec<(u8, Loss)>, AllocError>
    requires few { length segments.now ≤ 128 }
    requires survive { (a : ℕ × ℕ) → IsIn a segments.now → Survives store.now.catalog.now store.now.loss (NameData.Seg a.0 a.1) }
    ensures count { IfOk result (λ found. length found.items ≡ length segments.now) }
    ensures each { IfOk result (λ found. AnswersInOrder (ImageConflictAt store.now.catalog.now
        (held_on store.now) (table_on store.now) segments.now) found.items) }
{
    let work = ImagesWork {
        rt: run.rt,
        store,
        segments,
    };
    match run.round(Round::Images, &work) {
        Ok(found) => Ok(found),
        Err(_) => Err(AllocError),
    }
}
