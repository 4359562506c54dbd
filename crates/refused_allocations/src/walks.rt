//! The walk by rows of what survives, and leaving out the rows of a key that come again.
ghost use Rattle.std.specs.Prelude.{◌≡◌, ◌<◌, length, map, IfOk, IfSome};
ghost use Rattle.cs_segment.specs.SegmentData.{kinds_at};

use crate::attempt::{Answer, Report, allocate};
use crate::catalogs::catalog_of;
use anyhow::{Result, anyhow};
use cs_delta::{Image, merge, read_delta};
use cs_rows::by_rows::walk_rows;
use cs_rows::counts::surviving_row_count;
use cs_rows::range::WalkFault;
use cs_rows::{Survivors, Walked, join_once};
use cs_schema::samples::THREE_PROJECTIONS;
use cs_schema::{Catalog, FileName, Value};
use cs_segment::segment::read_segment;
use cs_store::FileSet;
use std::alloc::Global;
use std::thread::Threads;
use test_support::catalogs::{BY_ROWS, edited};
use test_support::samples::ORDER_PARTS;
use test_support::stores::{loss_of, put_parts};

/// The sites that are lost: a segment of each projection survives.
const LOST: [u8; 3] = [1, 3, 6];

/// The rows of the surviving segments, each as its key and value.
const WALKED: [[i64; 2]; 7] = [
    [3, 20],
    [4, 10],
    [3, 20],
    [1, 30],
    [2, 10],
    [4, 10],
    [3, 20],
];

/// More rows than there are.
const ALL: usize = 8;

/// The rows of `WALKED` without the later rows of a key.
const ONCE: [[i64; 2]; 4] = [[3, 20], [4, 10], [1, 30], [2, 10]];

/// What survives of a store.
#[derive(Drop)]
struct Rows<'a> {
    survivors: Survivors<'a>,
}

/// The catalog of three projections, which is safe where rows are.
fn three_projections(alloc: Global) -> Result<Catalog> {
    let text = edited(alloc, THREE_PROJECTIONS, BY_ROWS)?;
    catalog_of(alloc, text.as_str())
}

/// The image of a segment, from its two files.
fn image_of(alloc: Global, catalog: &Catalog, p: u16, s: u16, files: &FileSet) -> Option<Image>
    requires { p < length catalog.now.projections }
    ensures { IfSome result (λ image. image.kinds ≡ kinds_at catalog.now p) }
{
    let _projections = catalog.projection_count();
    let file = files.get(FileName::Seg { p, s })?;
    let Ok(segment) = read_segment(alloc, catalog, p, s, file) else {
        return None;
    };
    let file = files.get(FileName::Del { p, s })?;
    let Ok(delta) = read_delta(alloc, catalog, p, s, file) else {
        return None;
    };
    match merge(alloc, &segment, &delta) {
        Ok(image) => Some(image),
        Err(_) => None,
    }
}

impl<'a> Rows<'a> {
    /// One segment of each of three projections.
    fn of(alloc: Global, catalog: &'a Catalog) -> Result<Rows<'a>> {
        let mut files = FileSet::new(alloc)?;
        put_parts(alloc, &mut files, catalog, &ORDER_PARTS)?;
        let survivors = Survivors::new(alloc, catalog)?;
        let mut rows = Rows { survivors };
        let there = rows.put(alloc, 0, 1, &files)
            && rows.put(alloc, 1, 1, &files)
            && rows.put(alloc, 2, 0, &files);
        if !there {
            return Err(anyhow!("an image is not made"));
        }
        Ok(rows)
    }

    /// Their catalog.
    fn catalog(&self) -> &'a Catalog
        ensures { result.now ≡ self.now.survivors.catalog }
    {
        self.survivors.catalog()
    }

    /// Puts the image of a segment there, and says whether there is one.
    fn put(&mut self, alloc: Global, p: u16, s: u16, files: &FileSet) -> bool {
        let catalog = self.survivors.catalog();
        if p >= catalog.projection_count() || s >= catalog.segments(p) {
            return false;
        }
        match image_of(alloc, catalog, p, s, files) {
            Some(image) => {
                self.survivors.put_image(p as usize, s as usize, image);
                true
            }
            None => false,
        }
    }

    /// The rows numbered so, or all where there are fewer.
    fn walk(&self, alloc: Global, from: usize, to: usize) -> Result<Walked, WalkFault>
        ensures { IfOk result (λ walked. walked.kinds ≡ map (λ c. c.kind) self.now.survivors.catalog.columns) }
    {
        let loss = loss_of(&LOST);
        let survivors = &self.survivors;
        let to = surviving_row_count(survivors, loss).min(to);
        walk_rows(
            alloc,
            survivors.catalog(),
            loss,
            survivors,
            from.min(to),
            to,
        )
    }
}

/// Whether these are the rows of a walk.
fn shows(walked: &Walked, catalog: &Catalog, rows: &[[i64; 2]]) -> bool
    requires { walked.now.kinds ≡ map (λ c. c.kind) catalog.now.columns }
{
    if catalog.columns.len() != 2 || walked.rows() != rows.len() {
        return false;
    }
    for (row, [id, v]) in rows.iter().enumerate() {
        match (walked.cell(row, 0), walked.cell(row, 1)) {
            (Value::Int(a), Value::Int(b)) => {
                if a != *id || b != *v {
                    return false;
                }
            }
            _ => return false,
        }
    }
    true
}

/// Walks the surviving rows. What survives is walked once more to see that it is as it was.
pub fn walk(alloc: Global, before: u64) -> Result<Report> {
    let catalog = three_projections(alloc)?;
    let rows = Rows::of(alloc, &catalog)?;
    let granted = allocate(alloc, before);
    if granted < before {
        return Ok(Report::Before(granted));
    }
    let answer = match rows.walk(alloc, 0, ALL) {
        Ok(walked) => Answer::of(shows(&walked, rows.catalog(), &WALKED)),
        Err(WalkFault::Memory) => Answer::Memory,
        Err(_) => Answer::Wrong,
    };
    let report = Report::made(alloc, answer);
    let same = match rows.walk(alloc, 0, ALL) {
        Ok(walked) => shows(&walked, rows.catalog(), &WALKED),
        Err(_) => false,
    };
    Ok(report.unless_changed(same))
}

/// Joins the rows of two parts of the walk without the later rows of each key. The parts are then as they were.
pub fn join(rt: &(impl AllocGlobal + Threads + Sync), before: u64) -> Result<Report> {
    let alloc = rt.alloc();
    let catalog = three_projections(alloc)?;
    let rows = Rows::of(alloc, &catalog)?;
    let (Ok(walked), Ok(rest)) = (rows.walk(alloc, 0, 3), rows.walk(alloc, 3, ALL)) else {
        return Err(anyhow!("the rows are not walked"));
    };
    let pieces = [walked, rest];
    let granted = allocate(alloc, before);
    if granted < before {
        return Ok(Report::Before(granted));
    }
    let answer = match join_once(rt, alloc, rows.catalog(), &pieces) {
        Ok(joined) => Answer::of(shows(&joined, rows.catalog(), &ONCE)),
        Err(_) => Answer::Memory,
    };
    let report = Report::made(alloc, answer);
    let same = shows(&pieces[0], rows.catalog(), &WALKED[..3])
        && shows(&pieces[1], rows.catalog(), &WALKED[3..]);
    Ok(report.unless_changed(same))
}

/// Leaves out the later rows of each key of a walk.
pub fn once(alloc: Global, before: u64) -> Result<Report> {
    let catalog = three_projections(alloc)?;
    let rows = Rows::of(alloc, &catalog)?;
    let Ok(mut walked) = rows.walk(alloc, 0, ALL) else {
        return Err(anyhow!("the rows are not walked"));
    };
    let granted = allocate(alloc, before);
    if granted < before {
        return Ok(Report::Before(granted));
    }
    let (answer, left): (Answer, &[[i64; 2]]) = match walked.once(rows.catalog()) {
        Ok(()) => (Answer::Complete, &ONCE),
        Err(_) => (Answer::Memory, &WALKED),
    };
    Ok(Report::made(alloc, answer).unless_changed(shows(&walked, rows.catalog(), left)))
}

/// Joins the rows of two parts of the walk.
pub fn append(alloc: Global, before: u64) -> Result<Report> {
    let catalog = three_projections(alloc)?;
    let rows = Rows::of(alloc, &catalog)?;
    let (Ok(mut walked), Ok(rest)) = (rows.walk(alloc, 0, 3), rows.walk(alloc, 3, ALL)) else {
        return Err(anyhow!("the rows are not walked"));
    };
    let granted = allocate(alloc, before);
    if granted < before {
        return Ok(Report::Before(granted));
    }
    let (answer, left): (Answer, &[[i64; 2]]) = match walked.append(rest) {
        Ok(()) => (Answer::Complete, &WALKED),
        Err(_) => (Answer::Memory, &WALKED[..3]),
    };
    Ok(Report::made(alloc, answer).unless_changed(shows(&walked, rows.catalog(), left)))
}
