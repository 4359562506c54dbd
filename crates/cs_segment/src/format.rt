//! The numbers of encodings and kinds in a segment's file.
ghost use Rattle.std.specs.Prelude.{◌≡◌};
ghost use Rattle.cs_segment.specs.SegmentFile.{code_number, kind_number};

use cs_schema::{Code, Kind};

/// The number of an encoding in a segment's file, the same as in the catalog's `codes`.
pub fn code_number(code: Code) -> u8
    ensures { result ≡ code_number code }
{
    match code {
        Code::Runs => 1,
        Code::Bitmaps => 2,
        Code::Differences => 3,
        Code::Plain => 4,
    }
}

/// The number of a kind in a segment's file.
pub fn kind_number(kind: Kind) -> u8
    ensures { result ≡ kind_number kind }
{
    match kind {
        Kind::Int => 1,
        Kind::Text => 2,
    }
}
