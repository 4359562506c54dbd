//! Laws about the definitions. Each function does nothing; its contract is the law.
ghost use Rattle.cs_diagnosis.specs.Laws.{AcceptedLossesGrow, ChangedSitesAreDiagnosed};

/// What survives a loss holds at most one table, and a safe loss that contains an accepted one is accepted with its
/// table.
pub fn accepted_losses_grow()
    ensures { AcceptedLossesGrow }
{}

/// If at most half as many sites were changed as may fail besides the forced ones, the verdict still gives the true
/// table.
pub fn changed_sites_are_diagnosed()
    ensures { ChangedSitesAreDiagnosed }
{}
