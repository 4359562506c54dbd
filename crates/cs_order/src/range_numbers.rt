//! The range of each row: the number of cuts that are not above its cell in the first sort column.
ghost use Rattle.std.specs.Prelude.{◌≡◌, ◌<◌, ◌≤◌, pos, length, map, slice_index, slice_index_or, EachIndex};
ghost use Rattle.std.specs.Fork.{AcceptsEach, ChangesEach};
ghost use Rattle.cs_schema.specs.declared.cells.Value.{Value};
ghost use Rattle.cs_schema.specs.CatalogData.{projection};
ghost use Rattle.cs_schema.specs.Ranges.{range_of};
ghost use Rattle.cs_schema.specs.Rows.{cell};
ghost use Rattle.cs_schema.specs.Values.{values};

use crate::thresholds::SHARE;
use cs_schema::{Catalog, Cells};
use rayon::current_num_threads;
use std::marker::Sync;
use std::thread::{Threads, for_each_mut};

/// The maximum number of cuts whose ranges are numbered by 16 bits.
const MOST_CUTS: usize = 65_535;

/// Stores the range of each row, given the cells of the first sort column.
pub fn write_ranges<R: Threads + Sync>(
    rt: &R,
    catalog: &Catalog,
    p: u16,
    first: &Cells,
    numbers: &mut [u16],
)
    requires projection { p < length catalog.now.projections }
    requires long { length numbers.old ≡ length (values first.now) }
    ensures long { length numbers.new ≡ length numbers.old }
    ensures ranges { EachIndex numbers.new (λ r. range_of (projection catalog.now p).cuts (cell (values first.now) r) ≡ slice_index numbers.new r) }
{
    match (&catalog.projection(p).cuts, first) {
        (Cells::Ints(cuts), Cells::Ints(ints)) if cuts.len() <= MOST_CUTS => {
            write_int_ranges(rt, cuts, ints, numbers)
        }
        _ => write_each(rt, numbers, |row: usize, number: &mut u16| {
            *number = catalog.segment_of_cell(p, first, row);
        }),
    }
}

/// Stores the range of each int. The kind of the cells is looked up once instead of for each row.
fn write_int_ranges<R: Threads + Sync>(rt: &R, cuts: &[i64], ints: &[i64], numbers: &mut [u16])
    requires few { length cuts.now ≤ 65535 }
    requires long { length numbers.old ≡ length ints.now }
    ensures long { length numbers.new ≡ length numbers.old }
    ensures ranges { EachIndex numbers.new (λ r. range_of (map Value.Int cuts.now)
        (Value.Int (slice_index_or ints.now r (pos 0))) ≡ slice_index numbers.new r) }
{
    write_each(rt, numbers, |row: usize, number: &mut u16| {
        *number = range_of_int(cuts, &ints[row]);
    });
}

/// The number of cuts that are not above an int.
fn range_of_int(cuts: &[i64], int: &i64) -> u16
    requires { length cuts.now ≤ 65535 }
    ensures { result ≡ range_of (map Value.Int cuts.now) (Value.Int int.now) }
{
    let mut range = 0;
    for at in 0..cuts.len() {
        if cuts[at].cmp(int).is_le() {
            range += 1;
        }
    }
    range
}

/// Calls `f` with the index of each item of a list and a reference to it, in several threads if the list is long.
pub fn write_each<R: Threads + Sync, T: Send, F: Fn(usize, &mut T) + Sync>(
    rt: &R,
    list: &mut [T],
    f: F,
)
    requires { AcceptsEach F.Fn f list.old }
    ensures { ChangesEach F.Fn f list.old list.new }
{
    for_each_mut(rt, list, writers(rt, list.len()), &f);
}

/// The number of threads that fill a list of this length.
fn writers<R: Threads>(rt: &R, places: usize) -> usize
    ensures { 0 < result }
{
    // asks the system for the number of processors only if one thread is not enough
    if places < 2 * SHARE {
        return 1;
    }
    current_num_threads(rt).min(places / SHARE)
}
