//! Finding and decoding the columns of a segment's file.
ghost use Rattle.std.specs.Prelude.{◌≡◌, ℕ, ◌<◌, ◌≤◌, List, map, length, IfOk, IfSome, IfNone};
ghost use Rattle.cs_schema.specs.CatalogData.{projection, code_at, kind_at};
ghost use Rattle.cs_piece.specs.Columns.{NoColumn};
ghost use Rattle.cs_segment.specs.Bodies.{BeginsWithBody, AreBodies, IsColumnIn};

use crate::bytes::{after, number, parts};
use crate::fault::FileFault;
use crate::format::{code_number, kind_number};
use cs_codec::CodecFault;
use cs_piece::read_column;
use cs_schema::{Catalog, Cells, Code, Kind};
use std::alloc::Global;

/// Splits the bytes into the body of a column and what follows it. `None` if they do not start with a column of this
/// encoding and kind.
fn body_of(code: Code, kind: Kind, bytes: &[u8]) -> Option<(&[u8], &[u8])>
    ensures found { IfSome result (λ r. BeginsWithBody code kind bytes.now r.0.now r.1.now) }
    ensures none { IfNone result ((body rest : List ℕ) → BeginsWithBody code kind bytes.now body rest → ⊥) }
{
    let head = [code_number(code), kind_number(kind)];
    let counted = after(bytes, &head)?;
    let (length, rest) = number(counted)?;
    parts(rest, length as usize)
}

/// Finds the bodies of a projection's columns. The bytes have to be the columns one after the other, each with its
/// header, and nothing else; `Damaged` if they are not.
pub(crate) fn find_bodies<'a>(
    alloc: Global,
    catalog: &Catalog,
    p: u16,
    bytes: &'a [u8],
) -> Result<Vec<&'a [u8]>, FileFault>
    requires { p < length catalog.now.projections }
    ensures found { IfOk result (λ bodies. AreBodies catalog.now p bytes.now (map (λ body. body.now) bodies.items)) }
    ensures refused { result ≡ Err FileFault.Damaged → (bodies : List (List ℕ)) → AreBodies catalog.now p bytes.now bodies → ⊥ }
{
    let mut bodies = Vec::new(alloc);
    let mut rest = bytes;
    for j in 0..catalog.width(p) {
        let Some((body, after)) = body_of(catalog.code(p, j), catalog.column_kind(p, j), rest)
        else {
            return Err(FileFault::Damaged);
        };
        bodies.push(body)?;
        rest = after;
    }
    if !rest.is_empty() {
        return Err(FileFault::Damaged);
    }
    Ok(bodies)
}

/// Decodes the body of the `j`-th column of projection `p` into `rows` cells. `Damaged` if no column of this kind and
/// length has this body.
pub fn read_body(
    alloc: Global,
    catalog: &Catalog,
    p: u16,
    j: usize,
    body: &[u8],
    rows: u32,
) -> Result<Cells, FileFault>
    requires projection { p < length catalog.now.projections }
    requires column { j < length (projection catalog.now p).columns }
    requires count { rows ≤ 1048576 }
    ensures found { IfOk result (IsColumnIn catalog.now p rows j body.now) }
    ensures refused { result ≡ Err FileFault.Damaged → NoColumn (code_at catalog.now p j) (kind_at catalog.now p j) body.now rows }
{
    match read_column(
        alloc,
        catalog.code(p, j),
        catalog.column_kind(p, j),
        body,
        rows,
    ) {
        Ok(cells) => Ok(cells),
        Err(CodecFault::Memory) => Err(FileFault::Memory),
        Err(CodecFault::NotAText) => Err(FileFault::Damaged),
    }
}
