//! A law about conflicts. The function does nothing; its contract is the law.
ghost use Rattle.cs_diagnosis.specs.ConflictLaws.{KeptConflictsAreConflicts};

/// A safe loss contains a site of each stored conflict if and only if it contains one of each conflict of the table, as
/// `cs_recovery` defines them: of the sites whose files contradict the table by themselves, and of the pairs of sites
/// that name a row by different keys.
pub fn kept_conflicts_are_conflicts()
    ensures { KeptConflictsAreConflicts }
{}
