//! The survivors of a small store, for the run without words.
use cs_delta::write_empty_delta;
use cs_schema::FileName;
use cs_schema::samples::TWO_ORDERS;
use cs_segment::seal::seal;
use cs_store::FileSet;
use std::alloc::{AllocError, Global};

/// The catalog of a store of two projections on two sites.
pub const CATALOG: &str = TWO_ORDERS;

/// The lost site: that of the first projection.
pub const LOST_SITE: u8 = 1;

/// The number of rows of the store.
const ROWS: u32 = 4;

/// The code of a plain column and the kind of ints, as a segment's file names them.
const PLAIN_INTS: [u8; 2] = [4, 1];

/// The two columns of the second projection, in its order.
const COLUMNS: [[i64; 4]; 2] = [[2, 4, 3, 1], [10, 10, 20, 30]];

/// The files of the second projection, which survive.
pub fn survivors(alloc: Global) -> Result<FileSet, AllocError> {
    let mut files = FileSet::new(alloc)?;
    files.put(FileName::Seg { p: 1, s: 0 }, segment(alloc, 1, COLUMNS)?)?;
    files.put(
        FileName::Del { p: 1, s: 0 },
        write_empty_delta(alloc, 1, 0, ROWS)?,
    )?;
    Ok(files)
}

/// The file of a projection's one segment, whose two columns are plain.
pub fn segment(alloc: Global, p: u16, columns: [[i64; 4]; 2]) -> Result<Vec<u8>, AllocError> {
    let mut bytes = Vec::from_slice(alloc, b"CSSEG001")?;
    bytes.extend_from_slice(&p.to_be_bytes())?;
    bytes.extend_from_slice(&0u16.to_be_bytes())?;
    bytes.extend_from_slice(&ROWS.to_be_bytes())?;
    bytes.extend_from_slice(&2u16.to_be_bytes())?;
    for cells in columns {
        bytes.extend_from_slice(&PLAIN_INTS)?;
        bytes.extend_from_slice(&32u32.to_be_bytes())?;
        for cell in cells {
            bytes.extend_from_slice(&cell.to_be_bytes())?;
        }
    }
    seal(&mut bytes)?;
    Ok(bytes)
}
