//! The file of a join index that is cut short or has a changed byte is damaged. With a changed byte and a new digest it
//! is damaged, or the file of what is read from it. Segments and deltas are tried likewise beside their readers.
ghost use Rattle.std.specs.Prelude.{◌≤◌, length};

use cs_jix::{JoinIndex, read_jix};
use cs_segment::fault::FileFault;
use std::alloc::Global;
use std::test::Fail;
use test_support::files::{changed, join_file, sealed};

/// The entries (1, 1), (0, 1), (0, 2) from the first projection to the second, without the digest.
const ENTRIES: &[u8; 36] = b"CSJIX001\0\0\0\0\0\x01\0\0\0\x03\
\0\x01\0\0\0\x01\0\0\0\0\0\x01\0\0\0\0\0\x02";

fn is_damaged(alloc: Global, bytes: &[u8]) -> bool {
    read_jix(alloc, 0, 0, 1, bytes).err() == Some(FileFault::Damaged)
}

/// The file of a join index by its layout.
fn written(alloc: Global, join: &JoinIndex) -> Result<Vec<u8>, Fail> {
    let mut entries = Vec::new(alloc);
    for i in 0..join.top() {
        entries.push(join.entry(i.saturating_add(1)).unwrap_or((0, 0)))?;
    }
    Ok(join_file(alloc, 0, 0, 1, entries.as_slice())?)
}

/// Whether the bytes are the file of what is read from them.
fn are_written(alloc: Global, bytes: &[u8]) -> Result<bool, Fail> {
    match read_jix(alloc, 0, 0, 1, bytes) {
        Ok(join) => Ok(written(alloc, &join)?.as_slice() == bytes),
        Err(_) => Ok(false),
    }
}

/// Whether a file is damaged if it is cut short at a byte, and if that byte is changed.
fn is_guarded(alloc: Global, bytes: &[u8], at: usize) -> Result<bool, Fail>
    requires { at ≤ length bytes.now }
{
    let changed = changed(alloc, bytes, at)?;
    Ok(is_damaged(alloc, &bytes[..at]) && is_damaged(alloc, &changed))
}

/// Whether the file with a changed byte and a new digest is damaged or a canonical file.
fn is_damaged_or_written(alloc: Global, at: usize) -> Result<bool, Fail> {
    let body = changed(alloc, ENTRIES, at)?;
    let bytes = sealed(alloc, body.as_slice())?;
    Ok(is_damaged(alloc, &bytes) || are_written(alloc, &bytes)?)
}

#[test]
fn each_byte_of_a_join_index_is_guarded(rt: HostRuntime) -> Result<(), Fail> {
    let bytes = sealed(rt.alloc(), ENTRIES)?;
    assert!(rt; bytes.len() == 68 && are_written(rt.alloc(), &bytes)?);
    for at in 0..bytes.len() {
        assert!(rt; is_guarded(rt.alloc(), &bytes, at)?, "at {at}");
    }
    for at in 0..ENTRIES.len() {
        assert!(rt;
            is_damaged_or_written(rt.alloc(), at)?,
            "sealed again at {at}"
        );
    }
    Ok(())
}

/// The bytes before the second entry.
const BEFORE_SECOND: &[u8; 24] = b"CSJIX001\0\0\0\0\0\x01\0\0\0\x03\0\x01\0\0\0\x01";

/// The bytes after it.
const AFTER_SECOND: &[u8; 6] = b"\0\0\0\0\0\x02";

/// The file with another second entry.
fn with_second_entry(alloc: Global, segment: u16, key: u32) -> Result<Vec<u8>, Fail> {
    let mut body = BEFORE_SECOND.to_vec(alloc)?;
    body.extend_from_slice(&segment.to_be_bytes())?;
    body.extend_from_slice(&key.to_be_bytes())?;
    body.extend_from_slice(AFTER_SECOND)?;
    Ok(sealed(alloc, body.as_slice())?)
}

/// The number of entries, the second and the third.
fn read_with_second_entry(
    alloc: Global,
    segment: u16,
    key: u32,
) -> Result<(u32, Option<(u16, u32)>, Option<(u16, u32)>), Fail> {
    let bytes = with_second_entry(alloc, segment, key)?;
    match read_jix(alloc, 0, 0, 1, &bytes) {
        Ok(join) => Ok((join.top(), join.entry(2), join.entry(3))),
        Err(_) => Err(Fail::from("the join index is not read")),
    }
}

#[test]
fn entries_that_no_join_index_has(rt: HostRuntime) -> Result<(), Fail> {
    let read = read_with_second_entry(rt.alloc(), 0, 0)?;
    assert_eq!(rt; read, (3, None, Some((0, 2))));
    for (segment, key) in [(1, 0), (16, 1), (0, 4_194_305)] {
        let bytes = with_second_entry(rt.alloc(), segment, key)?;
        assert!(rt; is_damaged(rt.alloc(), &bytes), "({segment}, {key})");
    }
    Ok(())
}
