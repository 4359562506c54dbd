//! The number at the head of a file.
use crate::cursor::Cursor;
use cs_schema::FileName;

/// How many bytes stand before the number of rows of a segment or a delta: its mark and its name.
const ROWS_AT: usize = 12;

/// How many bytes stand before the number of entries of a join index.
const ENTRIES_AT: usize = 14;

/// The number of rows of a segment or of a delta's base, or of entries of a join index, as the head of its file has it;
/// none where the bytes are too few.
pub fn head_count(name: FileName, bytes: &[u8]) -> Option<u32> {
    let at = match name {
        FileName::Seg { .. } | FileName::Del { .. } => ROWS_AT,
        FileName::Jix { .. } => ENTRIES_AT,
    };
    let (_, place) = Cursor::new(bytes).bytes(at)?;
    let (count, _) = place.number()?;
    Some(count)
}
