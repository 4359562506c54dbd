//! Recovers a store of more than two million rows in several segments, by one worker and by four, and prints the digest of what
//! each wrote; then checks the whole store.
ghost use Rattle.std.specs.Prelude.{◌≤◌};

use anyhow::{Result, anyhow};
use cs_catalog::read_catalog;
use cs_rebuild::{check, rebuild};
use cs_schema::{Catalog, Loss};
use cs_store::FileSet;
use sha2::{Digest, Sha256};
use std::alloc::{AllocError, Global};
use std::marker::Sync;
use std::thread::Threads;
use test_support::columns::Column;
use test_support::file_sets::put_all;
use test_support::stores::put_segment;

/// Two orders of two columns, each in three segments of as many rows. The key is the second column.
const CATALOG: &str = r#"version = 1
table = "t"
key = "id"
sites = 2
column = [{name = "v", kind = "int"}, {name = "id", kind = "int"}]
[[projection]]
name = "by_id"
columns = ["id", "v"]
codes = [3, 4]
sort = ["id"]
cuts = [700000, 1400000]
sites = [1, 1, 1]
joins = []
[[projection]]
name = "by_v"
columns = ["v", "id"]
codes = [3, 4]
sort = ["v"]
cuts = [700000, 1400000]
sites = [2, 2, 2]
joins = []
"#;

/// How many rows a segment has.
const ROWS: u32 = 700_000;

/// How many segments a projection has.
const SEGMENTS: u16 = 3;

/// How many rows there are.
const ALL: u64 = 2_100_000;

/// A prime that divides no number of rows: its multiples, up to that, are the numbers below it in another order.
const STEP: u64 = 1_000_003;

/// The value of the row with this id.
fn value_of(id: u32) -> u32 {
    (u64::from(id).wrapping_mul(STEP) % ALL) as u32
}

/// Puts a segment of the first projection: the ids that it begins with and the next, each with its value.
fn put_ids(
    alloc: Global,
    files: &mut FileSet,
    catalog: &Catalog,
    s: u16,
) -> Result<(), AllocError> {
    let first = u32::from(s).wrapping_mul(ROWS);
    let mut ids = Vec::with_capacity(alloc, ROWS as usize)?;
    let mut values = Vec::with_capacity(alloc, ROWS as usize)?;
    for at in 0..ROWS {
        let id = first.wrapping_add(at);
        ids.push(i64::from(id))?;
        values.push(i64::from(value_of(id)))?;
    }
    let columns = [Column::Ints(&ids), Column::Ints(&values)];
    put_segment(alloc, files, catalog, (0, s), &columns)
}

/// The files of the first projection.
fn survivors(alloc: Global, catalog: &Catalog) -> Result<FileSet, AllocError> {
    let mut files = FileSet::new(alloc)?;
    for s in 0..SEGMENTS {
        put_ids(alloc, &mut files, catalog, s)?;
    }
    Ok(files)
}

/// How many rows a piece of work has.
const CUT: u32 = 65_536;

/// Prints how many files these are, and the digest of their names and bytes, one after the other.
fn show(rt: &(impl Print + AllocGlobal), workers: u32, files: &FileSet) -> Result<()> {
    let mut hasher = Sha256::new();
    for i in 0..files.len() {
        let (name, bytes) = files.at(i);
        let path = name.path();
        hasher.update(path.as_str().as_bytes());
        hasher.update(bytes);
    }
    let digest = hex::encode(rt.alloc(), hasher.finalize().as_slice())?;
    let count = files.len();
    println!(rt; "workers {workers}: {count} files, {digest}")?;
    Ok(())
}

/// Recovers the second projection.
fn recover<R: Threads + Sync + Print + AllocGlobal>(
    rt: &R,
    catalog: &Catalog,
    files: &FileSet,
    workers: u32,
) -> Result<FileSet>
    requires { (1 ≤ workers) × (workers ≤ 64) }
{
    let loss = Loss::none().with(2);
    match rebuild(rt, rt.alloc(), catalog, files, loss, workers, CUT) {
        Ok(written) => {
            show(rt, workers, &written)?;
            Ok(written)
        }
        Err(fault) => Err(anyhow!("{fault}")),
    }
}

/// Recovers the second projection by one worker and by four, and checks the whole store.
pub fn recover_all(rt: &(impl Threads + Sync + Print + AllocGlobal)) -> Result<()> {
    let catalog = match read_catalog(rt.alloc(), CATALOG.as_bytes()) {
        Ok(catalog) => catalog,
        Err(fault) => return Err(anyhow!("{fault}")),
    };
    let mut files = survivors(rt.alloc(), &catalog)?;
    drop(recover(rt, &catalog, &files, 1)?);
    let four = recover(rt, &catalog, &files, 4)?;
    put_all(rt.alloc(), &mut files, &four)?;
    check_all(rt, &catalog, &files)
}

/// Checks the whole store.
fn check_all(
    rt: &(impl Threads + Sync + Print + AllocGlobal),
    catalog: &Catalog,
    files: &FileSet,
) -> Result<()> {
    match check(rt, rt.alloc(), catalog, files, 1, 4, CUT) {
        Ok(rows) => println!(rt; "ok rows={rows} k=1")?,
        Err(fault) => return Err(anyhow!("{fault}")),
    }
    Ok(())
}
