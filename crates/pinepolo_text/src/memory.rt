//! How much memory a recovery takes.
use cs_schema::{Catalog, FileName};
use pinepolo_answers::FileLine;

/// How many bytes a cell of an image takes, and the place of its row in an order.
const CELL_BYTES: u64 = 12;

/// How many bytes a segment of so many rows takes in an image, beside the bytes of its file.
fn image_bytes(catalog: &Catalog, p: u16, rows: u64) -> u64 {
    match catalog.projections.get(usize::from(p)) {
        Some(projection) => {
            let cells = rows.saturating_mul(projection.columns.len() as u64);
            cells.saturating_mul(CELL_BYTES)
        }
        None => 0,
    }
}

/// About how many bytes a recovery takes, by the files that were read: each file three times, as it is read, as its cells
/// are kept and as files are written, and 12 bytes for each cell of a sound segment.
pub fn recovery_memory(catalog: &Catalog, lines: &[FileLine]) -> u64 {
    let mut bytes = 0u64;
    for line in lines {
        let file = line.bytes.unwrap_or(0);
        bytes = bytes.saturating_add(file.saturating_mul(3));
        if let (FileName::Seg { p, .. }, Some(rows)) = (line.name, line.count) {
            bytes = bytes.saturating_add(image_bytes(catalog, p, rows));
        }
    }
    bytes
}
