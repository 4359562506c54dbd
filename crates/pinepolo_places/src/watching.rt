//! Stores that are read while others may change them.
use crate::causes::Refusal;
use crate::error::VerbError;
use crate::listings::Listings;
use cs_shelf::Pending;
use std::alloc::Global;

/// For what a store is refused on which there is work, if it is to be changed.
fn refusal_of(pending: Pending) -> Refusal {
    match pending {
        Pending::AtWork(kind) => Refusal::AtWork(kind),
        Pending::Unknown(kind) => Refusal::Unknown(kind),
        Pending::Stopped(kind) => Refusal::Unfinished(kind),
    }
}

/// Why a store at a path can't be changed: there is work on it.
pub fn refuse_pending<P: Listings>(alloc: Global, places: &P, path: &str) -> Option<VerbError> {
    match places.pending(path) {
        Ok(None) => None,
        Ok(Some(pending)) => Some(VerbError::refused(alloc, refusal_of(pending), path)),
        Err(_) => Some(VerbError::OutOfMemory),
    }
}

/// Looks at the store at a path before it is read. It is refused if a run is at work on it, or if that can't be told.
pub fn watch<P: Listings>(alloc: Global, places: &P, path: &str) -> Result<P::Stamp, VerbError> {
    match places.pending(path) {
        Ok(None) | Ok(Some(Pending::Stopped(_))) => {}
        Ok(Some(pending)) => return Err(VerbError::refused(alloc, refusal_of(pending), path)),
        Err(_) => return Err(VerbError::OutOfMemory),
    }
    match places.stamp(path) {
        Ok(stamp) => Ok(stamp),
        Err(_) => Err(VerbError::OutOfMemory),
    }
}

/// Refuses the store at a path if it changed since it was looked at: what was read of it may be of two moments.
pub fn require_unchanged<P: Listings>(
    alloc: Global,
    places: &P,
    path: &str,
    before: &P::Stamp,
) -> Result<(), VerbError> {
    match places.is_unchanged(path, before) {
        Ok(true) => Ok(()),
        Ok(false) => Err(VerbError::refused(alloc, Refusal::Changed, path)),
        Err(_) => Err(VerbError::OutOfMemory),
    }
}
