//! Join indexes: their files, and bytes that are not one.
use crate::made::are_made;
use cs_jix::{read_jix, write_jix};
use cs_segment::fault::FileFault;
use cs_segment::seal::seal;
use std::alloc::{AllocError, Global};
use test_support::files::sealed;

/// The entries (1, 1), (0, 1), (0, 2), without the digest.
const BODY: [u8; 36] = [
    0x43, 0x53, 0x4a, 0x49, 0x58, 0x30, 0x30, 0x31, 0, 0, 0, 0, 0, 1, 0, 0, 0, 3, 0, 1, 0, 0, 0, 1,
    0, 0, 0, 0, 0, 1, 0, 0, 0, 0, 0, 2,
];

/// Entries by their keys.
const ENTRIES: [(u32, Option<(u16, u32)>); 5] = [
    (0, None),
    (1, Some((1, 1))),
    (2, Some((0, 1))),
    (3, Some((0, 2))),
    (4, None),
];

#[test]
fn entries_are_read_with_ample_memory(rt: HostRuntime) {
    let bytes = sealed(rt.alloc(), &BODY).expect(&rt, "a file");
    assert_eq!(rt; bytes.len(), 68);
    let join = read_jix(rt.alloc(), 0, 0, 1, &bytes).expect(&rt, "a join index");
    assert_eq!(rt; join.top(), 3);
    for (key, entry) in ENTRIES {
        assert!(rt; join.entry(key) == entry, "key {key}");
    }
}

#[test]
fn entries_are_written_with_ample_memory(rt: HostRuntime) {
    let wanted = sealed(rt.alloc(), &BODY).expect(&rt, "a file");
    let written = write_jix(rt.alloc(), 0, 0, 1, &[(1, 1), (0, 1), (0, 2)]);
    assert!(rt; are_made(written, &wanted));
}

fn is_damaged(alloc: Global, q: u16, bytes: &[u8]) -> bool {
    matches!(read_jix(alloc, 0, 0, q, bytes), Err(FileFault::Damaged))
}

#[test]
fn files_are_damaged(rt: HostRuntime) {
    let mut bytes = sealed(rt.alloc(), &BODY).expect(&rt, "a file");
    bytes.push(0).expect(&rt, "a byte more");
    // another target, no bytes, a byte less, a byte more
    for (q, len) in [(0u16, 68usize), (1, 0), (1, 67), (1, 69)] {
        let text = bytes.as_slice().get(..len).expect(&rt, "so many bytes");
        assert!(rt; is_damaged(rt.alloc(), q, text), "{len} bytes");
    }
}

/// What is read from the file with one byte of its body changed.
fn fault_of(alloc: Global, at: usize, value: u8) -> Result<Option<FileFault>, AllocError> {
    let mut bytes = BODY.as_slice().to_vec(alloc)?;
    if at < bytes.len() {
        bytes[at] = value;
    }
    seal(&mut bytes)?;
    Ok(read_jix(alloc, 0, 0, 1, &bytes).err())
}

#[test]
fn refuses_entries(rt: HostRuntime) {
    let damaged = Some(FileFault::Damaged);
    for (at, value, fault) in [
        (29, 0, None),
        (23, 0, damaged),
        (19, 16, damaged),
        (19, 15, None),
    ] {
        assert!(rt; fault_of(rt.alloc(), at, value) == Ok(fault), "byte {at}");
    }
}
