//! The encodings of lists of cells. Each copies the list into a column and encodes that.
ghost use Rattle.std.specs.Prelude.{◌≡◌, IfOk};
ghost use Rattle.cs_codec.specs.Encodings.{IsShort};
ghost use Rattle.cs_codec.specs.Texts.{plain_text, runs_text, bitmaps_text, differences_text};
ghost use Rattle.cs_codec.specs.Plain.{IsPlainPart};
ghost use Rattle.cs_codec.specs.PlainLaws.{plain_one_list};
ghost use Rattle.cs_codec.specs.Differences.{NeverFallsShort};
ghost use Rattle.cs_codec.specs.DifferenceLaws.{differences_one_list};
ghost use Rattle.cs_schema.specs.declared.kinds.Code.{Code};
ghost use Rattle.cs_codec.specs.RunLaws.{runs_one_list};
ghost use Rattle.cs_codec.specs.BitmapParts.{IsBitmapsPart};
ghost use Rattle.cs_codec.specs.BitmapLaws.{bitmaps_have_one_list};
ghost use Rattle.cs_codec.specs.TextMaps.{plain_of_code, runs_of_code, bitmaps_of_code, differences_of_code};

use crate::bitmaps::{Bitmaps, BitmapsPart};
use crate::cell::Cell;
use crate::differences::{Differences, DifferencesPart};
use crate::encoding::{CodecFault, ColumnEncoding, Encoding};
use crate::plain::{Plain, PlainPart};
use crate::runs::{Runs, RunsPart};
use cs_schema::Code;
use std::alloc::{AllocError, Global};

/// A column with copies of these cells.
fn column_of<C: Cell>(alloc: Global, cells: &[C]) -> Result<Vec<C>, AllocError>
    ensures { IfOk result (λ column. column.items ≡ cells.now) }
{
    let mut column = Vec::with_capacity(alloc, cells.len())?;
    for cell in cells {
        column.push(cell.copy())?;
    }
    Ok(column)
}

impl<C: Cell> Encoding<C> for Plain {
    const CODE: Code = Code::Plain;

    ghost CODE = { Code.Plain };

    type Part = PlainPart;

    ghost text = { plain_text C.bytes };

    ghost fits = { IsShort };

    ghost is_part = { IsPlainPart C.bytes };

    fn encode(alloc: Global, cells: &[C]) -> Result<PlainPart, AllocError> {
        let column = column_of(alloc, cells)?;
        <Plain as ColumnEncoding<C, Vec<C>>>::encode(alloc, &column, 0, cells.len())
    }

    fn can_join(left: &PlainPart, right: &PlainPart) -> bool {
        <Plain as ColumnEncoding<C, Vec<C>>>::can_join(left, right)
    }

    fn join(left: PlainPart, right: PlainPart) -> Result<PlainPart, AllocError> {
        <Plain as ColumnEncoding<C, Vec<C>>>::join(left, right)
    }

    fn write(alloc: Global, part: &PlainPart) -> Result<Vec<u8>, AllocError> {
        <Plain as ColumnEncoding<C, Vec<C>>>::write(alloc, part)
    }

    fn read(alloc: Global, bytes: &[u8], rows: u32) -> Result<Vec<C>, CodecFault> {
        <Plain as ColumnEncoding<C, Vec<C>>>::read(alloc, bytes, rows)
    }

    ghost one_list = { plain_one_list C.bytes C.is_cell C.begins_one C.some_bytes };

    ghost of_code = { plain_of_code C.value C.bytes C.eq C.cmp C.is_value };
}

impl<C: Cell> Encoding<C> for Runs {
    const CODE: Code = Code::Runs;

    ghost CODE = { Code.Runs };

    type Part = RunsPart<C, Vec<C>>;

    ghost text = { runs_text C.bytes C.eq };

    ghost fits = { IsShort };

    ghost is_part = { λ part cells. part ≡ cells };

    fn encode(alloc: Global, cells: &[C]) -> Result<RunsPart<C, Vec<C>>, AllocError> {
        let column = column_of(alloc, cells)?;
        <Runs as ColumnEncoding<C, Vec<C>>>::encode(alloc, &column, 0, cells.len())
    }

    fn can_join(left: &RunsPart<C, Vec<C>>, right: &RunsPart<C, Vec<C>>) -> bool {
        <Runs as ColumnEncoding<C, Vec<C>>>::can_join(left, right)
    }

    fn join(
        left: RunsPart<C, Vec<C>>,
        right: RunsPart<C, Vec<C>>,
    ) -> Result<RunsPart<C, Vec<C>>, AllocError> {
        <Runs as ColumnEncoding<C, Vec<C>>>::join(left, right)
    }

    fn write(alloc: Global, part: &RunsPart<C, Vec<C>>) -> Result<Vec<u8>, AllocError> {
        <Runs as ColumnEncoding<C, Vec<C>>>::write(alloc, part)
    }

    fn read(alloc: Global, bytes: &[u8], rows: u32) -> Result<Vec<C>, CodecFault> {
        <Runs as ColumnEncoding<C, Vec<C>>>::read(alloc, bytes, rows)
    }

    ghost one_list = { runs_one_list C.bytes C.is_cell C.eq
        (record { itself = C.Eq.laws.refl; exact = C.exact }) C.begins_one };

    ghost of_code = { runs_of_code C.value C.bytes C.eq C.cmp C.is_value };
}

impl<C: Cell> Encoding<C> for Bitmaps {
    const CODE: Code = Code::Bitmaps;

    ghost CODE = { Code.Bitmaps };

    type Part = BitmapsPart<C>;

    ghost text = { bitmaps_text C.bytes C.eq C.cmp };

    ghost fits = { IsShort };

    ghost is_part = { IsBitmapsPart C.eq C.cmp };

    fn encode(alloc: Global, cells: &[C]) -> Result<BitmapsPart<C>, AllocError> {
        let column = column_of(alloc, cells)?;
        <Bitmaps as ColumnEncoding<C, Vec<C>>>::encode(alloc, &column, 0, cells.len())
    }

    fn can_join(left: &BitmapsPart<C>, right: &BitmapsPart<C>) -> bool {
        <Bitmaps as ColumnEncoding<C, Vec<C>>>::can_join(left, right)
    }

    fn join(left: BitmapsPart<C>, right: BitmapsPart<C>) -> Result<BitmapsPart<C>, AllocError> {
        <Bitmaps as ColumnEncoding<C, Vec<C>>>::join(left, right)
    }

    fn write(alloc: Global, part: &BitmapsPart<C>) -> Result<Vec<u8>, AllocError> {
        <Bitmaps as ColumnEncoding<C, Vec<C>>>::write(alloc, part)
    }

    fn read(alloc: Global, bytes: &[u8], rows: u32) -> Result<Vec<C>, CodecFault> {
        <Bitmaps as ColumnEncoding<C, Vec<C>>>::read(alloc, bytes, rows)
    }

    ghost one_list = { bitmaps_have_one_list C.bytes C.is_cell C.eq C.cmp
        (record { itself = C.Eq.laws.refl; exact = C.exact }) C.matches_eq C.begins_one };

    ghost of_code = { bitmaps_of_code C.value C.bytes C.eq C.cmp C.is_value };
}

impl Encoding<i64> for Differences {
    const CODE: Code = Code::Differences;

    ghost CODE = { Code.Differences };

    type Part = DifferencesPart;

    ghost text = { differences_text };

    ghost fits = { NeverFallsShort };

    ghost is_part = { λ part cells. part ≡ cells };

    fn encode(alloc: Global, cells: &[i64]) -> Result<DifferencesPart, AllocError> {
        let column = column_of(alloc, cells)?;
        <Differences as ColumnEncoding<i64, Vec<i64>>>::encode(alloc, &column, 0, cells.len())
    }

    fn can_join(left: &DifferencesPart, right: &DifferencesPart) -> bool {
        <Differences as ColumnEncoding<i64, Vec<i64>>>::can_join(left, right)
    }

    fn join(left: DifferencesPart, right: DifferencesPart) -> Result<DifferencesPart, AllocError> {
        <Differences as ColumnEncoding<i64, Vec<i64>>>::join(left, right)
    }

    fn write(alloc: Global, part: &DifferencesPart) -> Result<Vec<u8>, AllocError> {
        <Differences as ColumnEncoding<i64, Vec<i64>>>::write(alloc, part)
    }

    fn read(alloc: Global, bytes: &[u8], rows: u32) -> Result<Vec<i64>, CodecFault> {
        <Differences as ColumnEncoding<i64, Vec<i64>>>::read(alloc, bytes, rows)
    }

    ghost one_list = { differences_one_list };

    ghost of_code = { differences_of_code };
}
