//! Encodings, with the laws that each keeps.
ghost use Rattle.std.specs.Prelude.{◌≡◌, ℕ, ◌≤◌, ◌-◌, List, ◌++◌, length, take, drop, IfOk};
ghost use Rattle.std.specs.List.{AllByRecursion};
ghost use Rattle.cs_codec.specs.Encodings.{JoinFits, TellsJoin, IsColumn, NoColumn, HasOneText, JoinsTo, Writes};
ghost use Rattle.cs_codec.specs.TextMaps.{IsTextOfCode};
ghost use Rattle.cs_schema.specs.declared.kinds.Code.{Code};
ghost use Rattle.cs_codec.specs.declared.encoding.CodecFault.TheVariants.{Memory};

use crate::cell::Cell;
use crate::column::Column;
use cs_schema::Code;
use std::alloc::{AllocError, AllocFailed, Global};

/// Why a column could not be read.
#[derive(Clone, Copy, Debug, PartialEq, Eq)]
pub enum CodecFault {
    /// Out of memory.
    Memory,
    /// The bytes are not the body of a column of this kind and length.
    NotAText,
}

impl From<AllocError> for CodecFault {
    ghost from_gives = { λ _ e. e ≡ Memory };

    fn from(_e: AllocError) -> CodecFault {
        CodecFault::Memory
    }
}

impl<T: Drop> From<AllocFailed<T>> for CodecFault {
    ghost from_gives = { λ _ e. e ≡ Memory };

    fn from(_e: AllocFailed<T>) -> CodecFault {
        CodecFault::Memory
    }
}

/// An encoding of lists of cells of one kind.
pub trait Encoding<C: Cell> {
    /// The code that a catalog has for the encoding.
    const CODE: Code;

    ghost CODE: { Code };

    /// An encoded part of a column. It can be joined with the part that follows it.
    type Part: Drop;

    /// The body of a list: the bytes that encode it.
    ghost text: { List C → List ℕ };

    /// Which lists can be encoded.
    ghost fits: { List C → Type 0 };

    /// When a part encodes a list.
    ghost is_part: { Self.Part → List C → Type 0 };

    /// Encodes a list.
    fn encode(alloc: Global, cells: &[C]) -> Result<Self::Part, AllocError>
        requires { fits cells.now }
        ensures { IfOk result (λ part. is_part part cells.now) };

    /// Whether the cells of both parts, one after the other, can be encoded.
    fn can_join(left: &Self::Part, right: &Self::Part) -> bool
        ensures { TellsJoin fits is_part left.now right.now result };

    /// The part with the cells of both, one after the other. If memory is refused, both are dropped.
    fn join(left: Self::Part, right: Self::Part) -> Result<Self::Part, AllocError>
        requires { JoinFits fits is_part left right }
        ensures { IfOk result (JoinsTo is_part left right) };

    /// The body of the list that a part encodes.
    fn write(alloc: Global, part: &Self::Part) -> Result<Vec<u8>, AllocError>
        ensures { IfOk result (λ out. Writes text is_part part.now out.items) };

    /// The list of `rows` cells whose body the bytes are. `NotAText` if there is none.
    fn read(alloc: Global, bytes: &[u8], rows: u32) -> Result<Vec<C>, CodecFault>
        requires { rows ≤ 1048576 }
        ensures found { IfOk result (λ cells. IsColumn text fits C.is_cell bytes.now rows cells.items) }
        ensures not_a_text { result ≡ Err CodecFault.NotAText → NoColumn text fits C.is_cell bytes.now rows };

    /// No two lists have the same body.
    ghost one_list: { HasOneText text fits C.is_cell };

    /// The body of a list is that of the column of its values under this encoding.
    ghost of_code: { IsTextOfCode C.value CODE text };
}

/// An encoding over columns of one kind: it encodes a range of a column in place, and reads directly into one.
pub trait ColumnEncoding<C: Cell, L: Column<C>> {
    /// The code that a catalog has for the encoding.
    const CODE: Code;

    ghost CODE: { Code };

    /// An encoded part of a column. It can be joined with the part that follows it.
    type Part: Drop;

    /// The body of a list: the bytes that encode it.
    ghost text: { List C → List ℕ };

    /// Which lists can be encoded.
    ghost fits: { List C → Type 0 };

    /// When a part encodes a list.
    ghost is_part: { Self.Part → List C → Type 0 };

    /// Encodes the cells `from..to` of a column.
    fn encode(alloc: Global, column: &L, from: usize, to: usize) -> Result<Self::Part, AllocError>
        requires order { from ≤ to }
        requires within { to ≤ length (L.cells column.now) }
        requires fits { fits (take (to - from) (drop from (L.cells column.now))) }
        ensures { IfOk result (λ part. is_part part (take (to - from) (drop from (L.cells column.now)))) };

    /// Whether the cells of both parts, one after the other, can be encoded.
    fn can_join(left: &Self::Part, right: &Self::Part) -> bool
        ensures { TellsJoin fits is_part left.now right.now result };

    /// The part with the cells of both, one after the other. If memory is refused, both are dropped.
    fn join(left: Self::Part, right: Self::Part) -> Result<Self::Part, AllocError>
        requires { JoinFits fits is_part left right }
        ensures { IfOk result (JoinsTo is_part left right) };

    /// The body of the list that a part encodes.
    fn write(alloc: Global, part: &Self::Part) -> Result<Vec<u8>, AllocError>
        ensures { IfOk result (λ out. Writes text is_part part.now out.items) };

    /// The column of `rows` cells whose body the bytes are. `NotAText` if there is none.
    fn read(alloc: Global, bytes: &[u8], rows: u32) -> Result<L, CodecFault>
        requires { rows ≤ 1048576 }
        ensures found { IfOk result (λ column. IsColumn text fits C.is_cell bytes.now rows (L.cells column)) }
        ensures not_a_text { result ≡ Err CodecFault.NotAText → NoColumn text fits C.is_cell bytes.now rows };

    /// No two lists have the same body.
    ghost one_list: { HasOneText text fits C.is_cell };

    /// The body of a list is that of the column of its values under this encoding.
    ghost of_code: { IsTextOfCode C.value CODE text };
}
