//! Files that are long enough to be read by several threads.
ghost use Rattle.std.specs.Prelude.{◌<◌, length};

use super::two_orders;
use cs_schema::{Catalog, Cells, Value};
use cs_segment::{FileFault, Segment, par_read_segment};
use std::alloc::{AllocError, AllocGlobal, Global};
use std::thread::Threads;
use test_support::files::{changed, sealed};

/// The body of 5,000 plain rows of two columns.
fn long_body(alloc: Global) -> Result<Vec<u8>, AllocError> {
    let mut body = b"CSSEG001\0\0\0\0\0\0\x13\x88\0\x02".to_vec(alloc)?;
    for first in [0u64, 7] {
        body.extend_from_slice(b"\x04\x01\0\0\x9c\x40")?;
        for i in 0..5000u64 {
            body.extend_from_slice(&first.wrapping_add(i).to_be_bytes())?;
        }
    }
    Ok(body)
}

/// Whether a column has 5,000 rows, the last of which is this int.
fn ends_with(column: &Cells, last: i64) -> bool {
    column.len() == 5000 && column.cell(4999) == Value::Int(last)
}

/// Whether a segment has the rows of the long body.
fn is_long(segment: &Segment) -> bool {
    match segment.columns.as_slice() {
        [first, second] => {
            segment.rows == 5000 && ends_with(first, 4999) && ends_with(second, 5006)
        }
        _ => false,
    }
}

#[test]
fn long_files_are_read_by_threads_with_ample_memory(rt: HostRuntime) {
    let catalog = two_orders(&rt);
    let body = long_body(rt.alloc()).expect(&rt, "a long body");
    let bytes = sealed(rt.alloc(), &body).expect(&rt, "a file");
    let segment = par_read_segment(&rt, rt.alloc(), &catalog, 0, 0, &bytes).expect(
        &rt,
        "a segment",
    );
    assert!(rt; is_long(&segment));
}

/// Whether threads find that the bytes are not the file of the first segment.
fn par_is_damaged(rt: &(impl Threads + Sync + AllocGlobal), catalog: &Catalog, bytes: &[u8]) -> bool
    requires { 0 < length catalog.now.projections }
{
    let segment = par_read_segment(rt, rt.alloc(), catalog, 0, 0, bytes);
    matches!(segment, Err(FileFault::Damaged))
}

#[test]
fn changed_long_files_are_damaged_with_ample_memory(rt: HostRuntime) {
    let alloc = rt.alloc();
    let catalog = two_orders(&rt);
    let mut body = long_body(alloc).expect(&rt, "a long body");
    let bytes = sealed(alloc, &body).expect(&rt, "a file");
    let unsealed = changed(alloc, &bytes, 60_000).expect(&rt, "a file that is not sealed");
    assert!(rt; par_is_damaged(&rt, &catalog, &unsealed));
    let other_body = changed(alloc, &body, 20).expect(&rt, "a body in another code");
    let other_code = sealed(alloc, &other_body).expect(&rt, "a file in another code");
    assert!(rt; par_is_damaged(&rt, &catalog, &other_code));
    body.push(0).expect(&rt, "a byte more");
    let left_over = sealed(alloc, &body).expect(&rt, "a file with a byte more");
    assert!(rt; par_is_damaged(&rt, &catalog, &left_over));
}
