//! What tells how much a verb takes.

/// What tells the time and the memory of this process.
pub trait Meter {
    /// The milliseconds since some moment, which stays the same.
    fn milliseconds(&self) -> u64;

    /// The greatest memory that the process has had so far, in KiB; `None` if the system does not tell.
    fn peak(&self) -> Option<u64>;
}
