//! Laws about deltas. Each function does nothing; its contract is the law.
ghost use Rattle.cs_delta.specs.Laws.{OneDelta};

/// Bytes are the file of at most one delta.
pub fn one_delta()
    ensures { OneDelta }
{}
