//! Encoded parts of columns whose encoding and kind are known only at run time.
ghost use Rattle.std.specs.Prelude.{◌≡◌, ◌<◌, ◌≤◌, ℕ, IfOk, List, length, slice_index};
ghost use Rattle.cs_codec.specs.ColumnText.{cell_bytes};
ghost use Rattle.cs_codec.specs.Columns.{cells_at};
ghost use Rattle.cs_codec.specs.RunParts.{part_text};
ghost use Rattle.cs_schema.specs.declared.cells.Value.{Value};
ghost use Rattle.cs_schema.specs.declared.kinds.Code.{Code};
ghost use Rattle.cs_schema.specs.declared.kinds.Kind.{Kind};
ghost use Rattle.cs_schema.specs.Values.{values, kind_of, value_eq};
ghost use Rattle.cs_piece.specs.Columns.{CanEncode};
ghost use Rattle.cs_piece.specs.Pieces.{IsPieceOf, PiecesFit, TellsFit, IsJoined, IsTextOf, IsShortTextOf};

use cs_codec::bitmaps::{Bitmaps, BitmapsPart};
use cs_codec::differences::{Differences, DifferencesPart};
use cs_codec::plain::{Plain, PlainPart, encode_at};
use cs_codec::run_places::write_part;
use cs_codec::runs::{Runs, RunsPart};
use cs_codec::{Cell, Column, ColumnEncoding};
use cs_schema::{Cells, Code, Texts, Word};
use std::alloc::{AllocError, Global};

/// An encoded part of a column, of any encoding and kind. It can be joined with the part that follows it.
#[derive(Drop)]
pub enum Piece {
    IntRuns(RunsPart<i64, Vec<i64>>),
    TextRuns(RunsPart<Word, Texts>),
    IntBitmaps(BitmapsPart<i64>),
    TextBitmaps(BitmapsPart<Word>),
    RisingInts(DifferencesPart),
    /// The empty column of texts under `Code::Differences`.
    NoTexts,
    PlainInts(PlainPart),
    PlainTexts(PlainPart),
}

impl Piece {
    /// Whether the cells of both pieces, one after the other, can be one piece: the encodings and the kinds are equal,
    /// and the cells fit the encoding and are at most 1,048,576.
    pub fn can_join(&self, other: &Piece) -> bool
        ensures { TellsFit self.now other.now result }
    {
        match (self, other) {
            (Piece::IntRuns(left), Piece::IntRuns(right)) => {
                <Runs as ColumnEncoding<i64, Vec<i64>>>::can_join(left, right)
            }
            (Piece::TextRuns(left), Piece::TextRuns(right)) => {
                <Runs as ColumnEncoding<Word, Texts>>::can_join(left, right)
            }
            (Piece::IntBitmaps(left), Piece::IntBitmaps(right)) => {
                <Bitmaps as ColumnEncoding<i64, Vec<i64>>>::can_join(left, right)
            }
            (Piece::TextBitmaps(left), Piece::TextBitmaps(right)) => {
                <Bitmaps as ColumnEncoding<Word, Texts>>::can_join(left, right)
            }
            (Piece::RisingInts(left), Piece::RisingInts(right)) => {
                <Differences as ColumnEncoding<i64, Vec<i64>>>::can_join(left, right)
            }
            (Piece::PlainInts(left), Piece::PlainInts(right)) => {
                <Plain as ColumnEncoding<i64, Vec<i64>>>::can_join(left, right)
            }
            (Piece::PlainTexts(left), Piece::PlainTexts(right)) => {
                <Plain as ColumnEncoding<Word, Texts>>::can_join(left, right)
            }
            (Piece::NoTexts, Piece::NoTexts) => true,
            _ => false,
        }
    }

    /// Reserves room for joining `pieces` further pieces as long as this one. Bitmaps reserve none.
    pub fn reserve(&mut self, pieces: u32) -> Result<(), AllocError>
        ensures { (code : Code) (kind : Kind) (v : List Value) → IsPieceOf self.old code kind v → IsPieceOf self.new code kind v }
    {
        match self {
            Piece::PlainInts(part) => part.reserve(pieces),
            // texts vary in length, so an eighth more is reserved
            Piece::PlainTexts(part) => part.reserve(pieces.saturating_add(pieces / 8)),
            Piece::RisingInts(part) => part.reserve(pieces),
            Piece::IntRuns(part) => part.reserve(pieces),
            Piece::TextRuns(part) => part.reserve(pieces),
            _ => Ok(()),
        }
    }
}

/// Encodes all cells of a column.
fn encode_all<C: Cell, L: Column<C>, E: ColumnEncoding<C, L>>(
    alloc: Global,
    column: &L,
) -> Result<E::Part, AllocError>
    requires { E.fits (L.cells column.now) }
    ensures { IfOk result (λ part. E.is_part part (L.cells column.now)) }
{
    E::encode(alloc, column, 0, column.len())
}

/// Encodes these cells as one piece.
pub fn encode_piece(alloc: Global, code: Code, cells: &Cells) -> Result<Piece, AllocError>
    requires { CanEncode code (kind_of cells.now) (values cells.now) }
    ensures { IfOk result (λ piece. IsPieceOf piece code (kind_of cells.now) (values cells.now)) }
{
    Ok(match (code, cells) {
        (Code::Runs, Cells::Ints(cells)) => {
            Piece::IntRuns(encode_all::<i64, Vec<i64>, Runs>(alloc, cells)?)
        }
        (Code::Runs, Cells::Texts(cells)) => {
            Piece::TextRuns(encode_all::<Word, Texts, Runs>(alloc, cells)?)
        }
        (Code::Bitmaps, Cells::Ints(cells)) => {
            Piece::IntBitmaps(encode_all::<i64, Vec<i64>, Bitmaps>(alloc, cells)?)
        }
        (Code::Bitmaps, Cells::Texts(cells)) => {
            Piece::TextBitmaps(encode_all::<Word, Texts, Bitmaps>(alloc, cells)?)
        }
        (Code::Differences, Cells::Ints(cells)) => {
            Piece::RisingInts(encode_all::<i64, Vec<i64>, Differences>(alloc, cells)?)
        }
        (Code::Plain, Cells::Ints(cells)) => {
            Piece::PlainInts(encode_all::<i64, Vec<i64>, Plain>(alloc, cells)?)
        }
        (Code::Plain, Cells::Texts(cells)) => {
            Piece::PlainTexts(encode_all::<Word, Texts, Plain>(alloc, cells)?)
        }
        (Code::Differences, Cells::Texts(_)) => Piece::NoTexts,
    })
}

/// Encodes a column's cells at these indices, in this order, as one piece. Plain cells are written directly from the
/// column. The other encodings compare neighbours, so the cells are copied first.
pub fn encode_places(
    alloc: Global,
    code: Code,
    column: &Cells,
    places: &[u32],
) -> Result<Piece, AllocError>
    requires within { (k : ℕ) → k < length places.now → slice_index places.now k < length (values column.now) }
    requires fits { CanEncode code (kind_of column.now) (cells_at (values column.now) places.now) }
    ensures { IfOk result (λ piece. IsPieceOf piece code (kind_of column.now) (cells_at (values column.now) places.now)) }
{
    match (code, column) {
        (Code::Plain, Cells::Ints(ints)) => {
            Ok(Piece::PlainInts(encode_at::<i64, Vec<i64>>(alloc, ints, places)?))
        }
        (Code::Plain, Cells::Texts(texts)) => {
            Ok(Piece::PlainTexts(encode_at::<Word, Texts>(alloc, texts, places)?))
        }
        _ => {
            let mut cells = Cells::new(alloc, column.kind());
            cells.push_at(column, places)?;
            encode_piece(alloc, code, &cells)
        }
    }
}

/// The piece with the cells of both, one after the other. If memory is refused, both are dropped.
pub fn join_pieces(left: Piece, right: Piece) -> Result<Piece, AllocError>
    requires { PiecesFit left right }
    ensures { IfOk result (λ piece. IsJoined left right piece) }
{
    Ok(match (left, right) {
        (Piece::IntRuns(left), Piece::IntRuns(right)) => {
            Piece::IntRuns(<Runs as ColumnEncoding<i64, Vec<i64>>>::join(left, right)?)
        }
        (Piece::TextRuns(left), Piece::TextRuns(right)) => {
            Piece::TextRuns(<Runs as ColumnEncoding<Word, Texts>>::join(left, right)?)
        }
        (Piece::IntBitmaps(left), Piece::IntBitmaps(right)) => {
            Piece::IntBitmaps(<Bitmaps as ColumnEncoding<i64, Vec<i64>>>::join(left, right)?)
        }
        (Piece::TextBitmaps(left), Piece::TextBitmaps(right)) => {
            Piece::TextBitmaps(<Bitmaps as ColumnEncoding<Word, Texts>>::join(left, right)?)
        }
        (Piece::RisingInts(left), Piece::RisingInts(right)) => {
            Piece::RisingInts(<Differences as ColumnEncoding<i64, Vec<i64>>>::join(left, right)?)
        }
        (Piece::PlainInts(left), Piece::PlainInts(right)) => {
            Piece::PlainInts(<Plain as ColumnEncoding<i64, Vec<i64>>>::join(left, right)?)
        }
        (Piece::PlainTexts(left), Piece::PlainTexts(right)) => {
            Piece::PlainTexts(<Plain as ColumnEncoding<Word, Texts>>::join(left, right)?)
        }
        (Piece::NoTexts, Piece::NoTexts) => Piece::NoTexts,
        _ => unreachable!(),
    })
}

/// The body of the column that a piece encodes.
pub fn write_piece(alloc: Global, piece: &Piece) -> Result<Vec<u8>, AllocError>
    ensures text { IfOk result (λ out. IsTextOf piece.now out.items) }
    ensures short { IfOk result (λ out. IsShortTextOf piece.now out.items) }
{
    match piece {
        Piece::IntRuns(part) => <Runs as ColumnEncoding<i64, Vec<i64>>>::write(alloc, part),
        Piece::TextRuns(part) => <Runs as ColumnEncoding<Word, Texts>>::write(alloc, part),
        Piece::IntBitmaps(part) => <Bitmaps as ColumnEncoding<i64, Vec<i64>>>::write(alloc, part),
        Piece::TextBitmaps(part) => <Bitmaps as ColumnEncoding<Word, Texts>>::write(alloc, part),
        Piece::RisingInts(part) => <Differences as ColumnEncoding<i64, Vec<i64>>>::write(
            alloc, part,
        ),
        Piece::PlainInts(part) => <Plain as ColumnEncoding<i64, Vec<i64>>>::write(alloc, part),
        Piece::PlainTexts(part) => <Plain as ColumnEncoding<Word, Texts>>::write(alloc, part),
        Piece::NoTexts => Ok(Vec::new(alloc)),
    }
}

/// The body of the column that a piece encodes. The piece is consumed, so the bytes of plain cells are not copied.
pub fn piece_text(alloc: Global, piece: Piece) -> Result<Vec<u8>, AllocError>
    ensures text { IfOk result (λ out. IsTextOf piece out.items) }
    ensures short { IfOk result (λ out. IsShortTextOf piece out.items) }
{
    match piece {
        Piece::PlainInts(part) => part.into_text(),
        Piece::PlainTexts(part) => part.into_text(),
        other => write_piece(alloc, &other),
    }
}

/// A part of the body, under `Code::Runs`, of the column that has the cells at `places` of `column`: the runs that
/// begin at its positions `from..to`. Only what is written is copied.
pub fn write_runs(
    alloc: Global,
    column: &Cells,
    places: &[u32],
    from: usize,
    to: usize,
) -> Result<Vec<u8>, AllocError>
    requires within { (k : ℕ) → k < length places.now → slice_index places.now k < length (values column.now) }
    requires few { length places.now ≤ 1048576 }
    requires order { (from ≤ to) × (to ≤ length places.now) }
    ensures { IfOk result (λ out. out.items ≡ part_text cell_bytes value_eq (cells_at (values column.now) places.now) from to) }
{
    match column {
        Cells::Ints(ints) => write_part::<i64, Vec<i64>>(alloc, ints, places, from, to),
        Cells::Texts(texts) => write_part::<Word, Texts>(alloc, texts, places, from, to),
    }
}
