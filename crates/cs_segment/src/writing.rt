//! Writing a segment's file in one call.
ghost use Rattle.std.specs.Prelude.{◌≡◌, ◌<◌, List, ◌++◌, length, IfOk, OnOk};
ghost use Rattle.cs_schema.specs.declared.cells.Value.{Value};
ghost use Rattle.cs_codec.specs.ColumnText.{FitsColumn};
ghost use Rattle.cs_piece.specs.Pieces.{IsPieceOf};
ghost use Rattle.cs_segment.specs.SegmentFile.{Base, segment_text};
ghost use Rattle.cs_segment.specs.Parts.{part_text};
ghost use Rattle.cs_segment.specs.SegmentPieces.{ArePiecesOf, AreOfSomeBase};

use crate::segment_writer::SegmentWriter;
use cs_piece::{Piece, write_piece};
use cs_schema::{Catalog, Code, Kind};
use std::alloc::{AllocError, Global};

/// Appends a column that is given as a piece.
fn write_part(
    alloc: Global,
    file: &mut SegmentWriter,
    code: Code,
    kind: Kind,
    piece: &Piece,
) -> Result<(), AllocError>
    requires { (v : List Value) × IsPieceOf piece.now code kind v × FitsColumn code kind v }
    ensures { OnOk result ((v : List Value) → IsPieceOf piece.now code kind v → FitsColumn code kind v
        → file.new ≡ file.old ++ part_text code kind v) }
{
    let mut body = Vec::new(alloc);
    body.push(write_piece(alloc, piece)?)?;
    file.put_pieces(code, kind, body)
}

/// The file of segment `s` of projection `p`, which has `rows` rows. The pieces are its columns in the projection's
/// order.
pub fn write_segment(
    alloc: Global,
    catalog: &Catalog,
    p: u16,
    s: u16,
    rows: u32,
    pieces: &[Piece],
) -> Result<Vec<u8>, AllocError>
    requires projection { p < length catalog.now.projections }
    requires pieces { AreOfSomeBase catalog.now p rows pieces.now }
    ensures { IfOk result (λ out. (b : Base) → ArePiecesOf catalog.now p rows pieces.now b → out.items ≡ segment_text catalog.now p s b) }
{
    let mut file = SegmentWriter::begin(alloc, catalog, p, s, rows)?;
    for (j, piece) in pieces.iter().enumerate() {
        let code = catalog.code(p, j);
        let kind = catalog.column_kind(p, j);
        write_part(alloc, &mut file, code, kind, piece)?;
    }
    file.finish()
}
