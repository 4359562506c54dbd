//! The results of calls.

/// Whether a call returned these bytes.
pub fn are_made<F: Drop>(made: Result<Vec<u8>, F>, wanted: &[u8]) -> bool {
    match made {
        Ok(bytes) => bytes.as_slice() == wanted,
        Err(_) => false,
    }
}
