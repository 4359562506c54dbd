//! What tells folders apart.

/// What a folder is on this system, whatever its path: its device, and its number there.
#[derive(Clone, Copy, Debug, PartialEq, Eq)]
pub struct Identity {
    pub device: u64,
    pub number: u64,
}
