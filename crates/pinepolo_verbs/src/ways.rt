//! Whether something new may be made at a path.
use cs_store::StoreFault;
use pinepolo_places::{Failure, Refusal, Tables, VerbError, Way};
use std::alloc::Global;

/// Sees that nothing is at a path yet, and that nothing was begun there that is not to be replaced.
pub fn require_free<P: Tables>(
    alloc: Global,
    places: &P,
    path: &str,
    replaces: bool,
) -> Result<(), VerbError> {
    match places.way(path) {
        Ok(Way::Free) => Ok(()),
        Ok(Way::Taken) => Err(VerbError::refused(alloc, Refusal::Exists, path)),
        Ok(Way::Begun) if replaces => Ok(()),
        Ok(Way::Begun) => Err(VerbError::refused(alloc, Refusal::Begun, path)),
        Ok(Way::Busy) => Err(VerbError::refused(alloc, Refusal::BeingMade, path)),
        Ok(Way::Foreign) => Err(VerbError::refused(alloc, Refusal::Foreign, path)),
        Err(fault) => Err(VerbError::of_device(alloc, fault, Failure::MakeNew, path)),
    }
}

/// Sees that nothing has a name yet, whatever stands beside it.
pub fn require_unnamed<P: Tables>(alloc: Global, places: &P, path: &str) -> Result<(), VerbError> {
    match places.way(path) {
        Ok(Way::Taken) => Err(VerbError::refused(alloc, Refusal::Exists, path)),
        Ok(_) => Ok(()),
        Err(fault) => Err(VerbError::of_device(alloc, fault, Failure::MakeNew, path)),
    }
}

/// Why something new could not be made at a path: something has the name, which it took meanwhile, or a call failed.
pub fn make_error<P: Tables>(
    alloc: Global,
    places: &P,
    fault: StoreFault,
    failure: Failure,
    path: &str,
) -> VerbError {
    match places.way(path) {
        Ok(Way::Taken) => VerbError::refused(alloc, Refusal::Exists, path),
        _ => VerbError::of_device(alloc, fault, failure, path),
    }
}
