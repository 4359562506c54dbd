//! Laws about the losses that a store accepts: K-safety is the distance of a code. Each function does nothing; its
//! contract is the law.
//!
//! A loss is *accepted* with a table if it is safe and the files that survive it hold the table.
ghost use Rattle.cs_recovery.specs.LossLaws.{FewerSurvivorsHold, AcceptanceGrows, OneTableIsHeld, ChangedSitesAreDetected};
ghost use Rattle.cs_recovery.specs.LossLaws.{ChangedSitesAreCorrected, AcceptedLossesHitConflicts};

/// A table that the survivors of a loss hold is held by the survivors of each larger loss.
pub fn fewer_survivors_hold()
    ensures { FewerSurvivorsHold }
{}

/// If a loss is accepted, so is each safe loss that contains it, with the same table: giving up one more site never
/// changes the table.
pub fn acceptance_grows()
    ensures { AcceptanceGrows }
{}

/// Two accepted losses that are contained in one safe loss leave the same table.
pub fn one_table_is_held()
    ensures { OneTableIsHeld }
{}

/// Changing the files of up to K sites never makes a K-safe store hold another table: it holds its old table or none.
pub fn changed_sites_are_detected()
    ensures { ChangedSitesAreDetected }
{}

/// With e sites known to be lost, up to m others may have been changed if e + 2m is at most K: each accepted loss of at
/// most e + m sites that contains the e known ones leaves the true table, and there is such a loss.
pub fn changed_sites_are_corrected()
    ensures { ChangedSitesAreCorrected }
{}

/// A safe loss is accepted with a table if and only if it contains a site of every conflict. A conflict is a site whose
/// files contradict the table by themselves, or two sites that name a row by different keys.
pub fn accepted_losses_hit_conflicts()
    ensures { AcceptedLossesHitConflicts }
{}
