//! Small stores whose files are written by hand. A store that cannot be made fails the test.
pub mod catalogs;

ghost use Rattle.std.specs.Prelude.{◌≡◌, ◌<◌, length, map, IfOk};
ghost use Rattle.cs_segment.specs.SegmentData.{kinds_at};

use cs_catalog::read_catalog;
use cs_delta::{Image, merge, read_delta};
use cs_jix::read_jix;
use cs_rows::by_rows::walk_rows;
use cs_rows::counts::surviving_row_count;
use cs_rows::range::WalkFault;
use cs_rows::{PlanWalk, Survivors, Walked};
use cs_safety::plan;
use cs_schema::{Catalog, Loss};
use cs_segment::segment::read_segment;
use std::alloc::{AllocGlobal, Global};
use std::process::Abort;
use test_support::columns::Column;
use test_support::files::{deleting_file, join_file, rows_of, segment_file};

/// The catalog of a text.
pub fn catalog(rt: &(impl Abort + AllocGlobal), text: &str) -> Catalog {
    let Ok(catalog) = read_catalog(rt.alloc(), text.as_bytes()) else {
        panic!(rt; "the catalog is not read");
    };
    catalog
}

/// Columns of ints.
fn columns_of<'a>(rt: &(impl Abort + AllocGlobal), columns: &[&'a [i64]]) -> Vec<Column<'a>> {
    let mut out = Vec::new(rt.alloc());
    for ints in columns {
        out.push(Column::Ints(ints)).expect(rt, "memory");
    }
    out
}

fn image(
    rt: &(impl Abort + AllocGlobal),
    catalog: &Catalog,
    p: u16,
    s: u16,
    columns: &[&[i64]],
    deleted: &[u32],
) -> Image
    requires { p < length catalog.now.projections }
    ensures { result.kinds ≡ kinds_at catalog.now p }
{
    let _projections = catalog.projection_count();
    let columns = columns_of(rt, columns);
    let codes = catalog.projection(p).codes.as_slice();
    let file = segment_file(rt.alloc(), codes, p, s, &columns).expect(rt, "a segment's file");
    let Ok(segment) = read_segment(rt.alloc(), catalog, p, s, file.as_slice()) else {
        panic!(rt; "the segment is not read");
    };
    let rows = rows_of(&columns);
    let file = deleting_file(rt.alloc(), p, s, rows, deleted).expect(rt, "a delta's file");
    let Ok(delta) = read_delta(rt.alloc(), catalog, p, s, file.as_slice()) else {
        panic!(rt; "the delta is not read");
    };
    let Ok(image) = merge(rt.alloc(), &segment, &delta) else {
        panic!(rt; "they are not merged");
    };
    image
}

/// What survives of a store.
#[derive(Drop)]
pub struct Store<'a> {
    pub survivors: Survivors<'a>,
}

impl<'a> Store<'a> {
    pub fn of(rt: &(impl Abort + AllocGlobal), catalog: &'a Catalog) -> Store<'a> {
        let Ok(survivors) = Survivors::new(rt.alloc(), catalog) else {
            panic!(rt; "no memory");
        };
        Store { survivors }
    }

    pub fn put_segment(
        &mut self,
        rt: &(impl Abort + AllocGlobal),
        p: u16,
        s: u16,
        columns: &[&[i64]],
        deleted: &[u32],
    ) {
        let catalog = self.survivors.catalog();
        assert!(rt; p < catalog.projection_count() && s < catalog.segments(p));
        let image = image(rt, catalog, p, s, columns, deleted);
        self.survivors.put_image(p as usize, s as usize, image);
    }

    pub fn put_join(
        &mut self,
        rt: &(impl Abort + AllocGlobal),
        p: u16,
        s: u16,
        q: u16,
        entries: &[(u16, u32)],
    ) {
        let catalog = self.survivors.catalog();
        let count = catalog.projection_count();
        assert!(rt; p < count && q < count && s < catalog.segments(p));
        let file = join_file(rt.alloc(), p, s, q, entries).expect(rt, "a join index's file");
        let Ok(join) = read_jix(rt.alloc(), p, s, q, file.as_slice()) else {
            panic!(rt; "the join index is not read");
        };
        self.survivors
            .put_join(p as usize, s as usize, q as usize, join);
    }

    /// Walks rows of the anchor of the loss's plan. Out of memory if there is no plan, or there are no such rows.
    pub fn walk(
        &self,
        alloc: Global,
        loss: Loss,
        from: usize,
        to: usize,
    ) -> Result<Walked, WalkFault>
        ensures { IfOk result (λ walked. walked.kinds ≡ map (λ c. c.kind) self.now.survivors.catalog.columns) }
    {
        let catalog = self.survivors.catalog();
        let _projections = catalog.projection_count();
        let Some(plan) = plan(catalog, loss) else {
            return Err(WalkFault::Memory);
        };
        let Ok(walk) = PlanWalk::new(alloc, catalog, &plan, &self.survivors) else {
            return Err(WalkFault::Memory);
        };
        if from > to || walk.anchor_rows() < to {
            return Err(WalkFault::Memory);
        }
        walk.range(alloc, from, to)
    }

    /// Walks the rows with these numbers of all surviving segments, or all rows if there are fewer.
    pub fn walk_by_rows(
        &self,
        alloc: Global,
        loss: Loss,
        from: usize,
        to: usize,
    ) -> Result<Walked, WalkFault>
        ensures { IfOk result (λ walked. walked.kinds ≡ map (λ c. c.kind) self.now.survivors.catalog.columns) }
    {
        let to = surviving_row_count(&self.survivors, loss).min(to);
        let catalog = self.survivors.catalog();
        walk_rows(alloc, catalog, loss, &self.survivors, from.min(to), to)
    }
}
