//! Images of as many rows as a segment may have, and of one more.
ghost use Rattle.std.specs.Prelude.{◌<◌, length};

use crate::deltas::images::image_of;
use cs_catalog::read_catalog;
use cs_schema::Catalog;
use cs_segment::fault::FileFault;
use std::alloc::Global;

/// One projection of one column of ints, in runs.
const ONE_COLUMN: &str = r#"version = 1
table = "t"
key = "v"
sites = 1
column = [{name = "v", kind = "int"}]
[[projection]]
name = "a"
columns = ["v"]
codes = [1]
sort = ["v"]
cuts = []
sites = [1]
joins = []
"#;

/// The int 7 in 1,048,576 rows, without the digest.
const FULL: &[u8] = b"CSSEG001\0\0\0\0\0\x10\0\0\0\x01\
\x01\x01\0\0\0\x10\0\0\0\0\0\0\0\x07\0\0\0\x01\0\x10\0\0";

/// A first row with key 1,048,577, without the digest.
const ONE_MORE: &[u8] = b"CSDEL001\0\0\0\0\0\x10\0\0\0\x10\0\x01\0\0\0\x01\
\x01\0\0\0\0\0\x10\0\x01\0\0\0\0\0\0\0\x07";

/// The row of `ONE_MORE` in place of the first, without the digest.
const ANOTHER: &[u8] = b"CSDEL001\0\0\0\0\0\x10\0\0\0\x10\0\x01\0\0\0\x02\
\x01\0\0\0\0\0\x10\0\x01\0\0\0\0\0\0\0\x07\x02\0\0\0\0";

/// The row of `ANOTHER` in a first layer of two, of which the second adds a row with key 1,048,578, without the digest.
const ONE_MORE_AGAIN: &[u8] = b"CSDEL002\0\0\0\0\0\x10\0\0\0\x10\0\x02\x02\0\0\0\x02\
\x01\0\0\0\0\0\x10\0\x01\0\0\0\0\0\0\0\x07\x02\0\0\0\0\0\0\0\x01\
\x01\0\0\0\0\0\x10\0\x02\0\0\0\0\0\0\0\x07";

/// The number of rows and the highest key of an image of the full segment.
fn size_of(alloc: Global, catalog: &Catalog, delta: &[u8]) -> Result<(u32, u32), FileFault>
    requires { 0 < length catalog.now.projections }
{
    let image = image_of(alloc, catalog, FULL, delta)?;
    Ok((image.rows(), image.top()))
}

#[test]
fn an_image_has_at_most_so_many_rows(rt: HostRuntime) {
    let catalog = read_catalog(rt.alloc(), ONE_COLUMN.as_bytes()).expect(&rt, "a catalog");
    assert!(rt; 0 < catalog.projection_count());
    for (delta, wanted) in [
        (ONE_MORE, Err(FileFault::Damaged)),
        (ANOTHER, Ok((1_048_576, 1_048_577))),
        (ONE_MORE_AGAIN, Err(FileFault::Damaged)),
    ] {
        assert!(rt; size_of(rt.alloc(), &catalog, delta) == wanted);
    }
}
