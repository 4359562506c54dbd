//! Parts of columns: their texts in each encoding, and which of them join.
ghost use Rattle.std.specs.Prelude.{◌≤◌};

use crate::made::are_made;
use cs_codec::encoding::CodecFault;
use cs_piece::{Piece, encode_piece, join_pieces, read_column, write_piece, write_runs};
use cs_schema::{Code, Kind};
use std::alloc::{AllocError, Global};

/// The texts a, a, b, plain.
const PLAIN: &[u8] = &[1, 97, 1, 97, 1, 98];

/// The cells of `PLAIN` in runs.
const RUNS: &[u8] = &[1, 97, 0, 0, 0, 1, 0, 0, 0, 2, 1, 98, 0, 0, 0, 3, 0, 0, 0, 1];

/// The cells of `PLAIN` in bitmaps.
const BITMAPS: &[u8] = &[
    1, 97, 0, 0, 0, 2, 0, 0, 0, 0, 0, 0, 0, 2, 1, 98, 0, 0, 0, 2, 0, 0, 0, 2, 0, 0, 0, 1,
];

/// Columns of three rows by their encoding, and the same column in its encoding.
const CODES: [(Code, &[u8]); 3] = [
    (Code::Plain, PLAIN),
    (Code::Runs, RUNS),
    (Code::Bitmaps, BITMAPS),
];

/// The column of three rows that is read from the bytes, as a part in an encoding that fits all columns.
fn piece_of(alloc: Global, from: Code, bytes: &[u8], to: Code) -> Result<Piece, CodecFault> {
    let cells = read_column(alloc, from, Kind::Text, bytes, 3)?;
    let to = match to {
        Code::Differences => Code::Plain,
        other => other,
    };
    Ok(encode_piece(alloc, to, &cells)?)
}

fn text_of(alloc: Global, piece: Piece) -> Result<Vec<u8>, AllocError> {
    write_piece(alloc, &piece)
}

/// The text of the column in another encoding.
fn written(alloc: Global, from: Code, bytes: &[u8], to: Code) -> Result<Vec<u8>, CodecFault> {
    let piece = piece_of(alloc, from, bytes, to)?;
    Ok(text_of(alloc, piece)?)
}

#[test]
fn texts_are_pieces_of_every_code_with_ample_memory(rt: HostRuntime) {
    for (from, bytes) in CODES {
        for (to, wanted) in CODES {
            let out = written(rt.alloc(), from, bytes, to);
            assert!(rt; are_made(out, wanted), "{from:?} as {to:?}");
        }
    }
}

#[test]
fn runs_merge_where_pieces_join_with_ample_memory(rt: HostRuntime) {
    let alloc = rt.alloc();
    let one = read_column(alloc, Code::Plain, Kind::Text, &[1, 97], 1).expect(&rt, "a column");
    let left = encode_piece(alloc, Code::Runs, &one).expect(&rt, "the left piece");
    let right = encode_piece(alloc, Code::Runs, &one).expect(&rt, "the right piece");
    assert!(rt; left.can_join(&right));
    let whole = join_pieces(left, right).expect(&rt, "both pieces");
    assert!(rt; are_made(text_of(alloc, whole), &[1, 97, 0, 0, 0, 1, 0, 0, 0, 2]));
}

/// Whether this is the text of the runs of the texts a, a, b that begin within a range of them.
fn is_part(alloc: Global, from: usize, to: usize, wanted: &[u8]) -> bool
    requires { (from ≤ to) × (to ≤ 3) }
{
    match read_column(alloc, Code::Plain, Kind::Text, &[1, 97, 1, 98], 2) {
        Ok(column) => are_made(write_runs(alloc, &column, &[0, 0, 1], from, to), wanted),
        Err(_) => false,
    }
}

#[test]
fn parts_have_the_runs_that_begin_in_them_with_ample_memory(rt: HostRuntime) {
    let alloc = rt.alloc();
    assert!(rt; is_part(alloc, 0, 3, RUNS));
    assert!(rt; is_part(alloc, 0, 1, &[1, 97, 0, 0, 0, 1, 0, 0, 0, 2]));
    assert!(rt; is_part(alloc, 1, 2, &[]));
    assert!(rt; is_part(alloc, 1, 3, &[1, 98, 0, 0, 0, 3, 0, 0, 0, 1]));
}

fn do_join(left: Piece, right: Piece) -> bool {
    left.can_join(&right)
}

#[test]
fn pieces_of_two_codes_do_not_join(rt: HostRuntime) {
    let alloc = rt.alloc();
    let runs = piece_of(alloc, Code::Plain, PLAIN, Code::Runs).expect(&rt, "runs");
    let bitmaps = piece_of(alloc, Code::Plain, PLAIN, Code::Bitmaps).expect(&rt, "bitmaps");
    assert!(rt; !do_join(runs, bitmaps));
}

/// Whether no bytes are a column without texts in an encoding.
fn reads_no_texts(alloc: Global, code: Code) -> bool {
    match read_column(alloc, code, Kind::Text, &[], 0) {
        Ok(cells) => cells.is_empty() && cells.kind() == Kind::Text,
        Err(_) => false,
    }
}

#[test]
fn no_texts_fit_differences(rt: HostRuntime) {
    assert!(rt; reads_no_texts(rt.alloc(), Code::Differences));
}
