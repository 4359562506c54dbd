//! Bytes that are not a segment.
use super::{PLAIN, is_damaged, two_orders};
use std::alloc::{AllocError, Global};
use test_support::files::sealed;

/// The bytes with four of them set to 255.
fn with_a_high_count(alloc: Global, bytes: &[u8], at: usize) -> Result<Vec<u8>, AllocError> {
    let mut out = Vec::new(alloc);
    for (i, byte) in bytes.iter().enumerate() {
        out.push(if i.wrapping_sub(at) < 4 { 0xff } else { *byte })?;
    }
    Ok(out)
}

#[test]
fn hostile_bytes_are_damaged(rt: HostRuntime) {
    let alloc = rt.alloc();
    let catalog = two_orders(&rt);
    let mut left_over = PLAIN.to_vec(alloc).expect(&rt, "a body");
    left_over.push(0).expect(&rt, "a byte more");
    let many_rows = with_a_high_count(alloc, PLAIN, 12).expect(&rt, "many rows");
    let long_body = with_a_high_count(alloc, PLAIN, 20).expect(&rt, "a long body");
    for body in [&left_over, &many_rows, &long_body] {
        let bytes = sealed(alloc, body).expect(&rt, "a file");
        assert!(rt; is_damaged(alloc, &catalog, 0, 0, &bytes));
    }
}

#[test]
fn bytes_after_the_digest_are_damaged(rt: HostRuntime) {
    let catalog = two_orders(&rt);
    let mut bytes = sealed(rt.alloc(), PLAIN).expect(&rt, "a file");
    bytes.push(0).expect(&rt, "a byte more");
    assert!(rt; is_damaged(rt.alloc(), &catalog, 0, 0, &bytes));
}
