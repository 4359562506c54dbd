//! Reading columns from their bodies.
ghost use Rattle.std.specs.Prelude.{◌≡◌, ◌≤◌, IfOk};
ghost use Rattle.cs_schema.specs.Values.{values, kind_of};
ghost use Rattle.cs_piece.specs.Columns.{IsColumnOf, NoColumn};

use cs_codec::bitmaps::Bitmaps;
use cs_codec::differences::Differences;
use cs_codec::plain::Plain;
use cs_codec::runs::Runs;
use cs_codec::{CodecFault, ColumnEncoding};
use cs_schema::{Cells, Code, Kind, Texts, Word};
use std::alloc::Global;

/// The column of `rows` cells of this kind whose body under this code the bytes are. `NotAText` if there is none.
pub fn read_column(
    alloc: Global,
    code: Code,
    kind: Kind,
    bytes: &[u8],
    rows: u32,
) -> Result<Cells, CodecFault>
    requires { rows ≤ 1048576 }
    ensures found { IfOk result (λ cells. IsColumnOf code kind bytes.now rows (values cells)) }
    ensures kind { IfOk result (λ cells. kind_of cells ≡ kind) }
    ensures not_a_text { result ≡ Err CodecFault.NotAText → NoColumn code kind bytes.now rows }
{
    Ok(match (code, kind) {
        (Code::Runs, Kind::Int) => {
            Cells::Ints(<Runs as ColumnEncoding<i64, Vec<i64>>>::read(alloc, bytes, rows)?)
        }
        (Code::Runs, Kind::Text) => {
            Cells::Texts(<Runs as ColumnEncoding<Word, Texts>>::read(alloc, bytes, rows)?)
        }
        (Code::Bitmaps, Kind::Int) => {
            Cells::Ints(<Bitmaps as ColumnEncoding<i64, Vec<i64>>>::read(alloc, bytes, rows)?)
        }
        (Code::Bitmaps, Kind::Text) => {
            Cells::Texts(<Bitmaps as ColumnEncoding<Word, Texts>>::read(alloc, bytes, rows)?)
        }
        (Code::Differences, Kind::Int) => {
            Cells::Ints(<Differences as ColumnEncoding<i64, Vec<i64>>>::read(alloc, bytes, rows)?)
        }
        (Code::Plain, Kind::Int) => {
            Cells::Ints(<Plain as ColumnEncoding<i64, Vec<i64>>>::read(alloc, bytes, rows)?)
        }
        (Code::Plain, Kind::Text) => {
            Cells::Texts(<Plain as ColumnEncoding<Word, Texts>>::read(alloc, bytes, rows)?)
        }
        (Code::Differences, Kind::Text) => {
            if rows != 0 || bytes.len() != 0 {
                return Err(CodecFault::NotAText);
            }
            Cells::Texts(Texts::new(alloc))
        }
    })
}
