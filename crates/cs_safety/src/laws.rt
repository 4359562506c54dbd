//! Laws about the definitions. Each function does nothing; its contract is the law.
ghost use Rattle.cs_safety.specs.SafetyLaws.{WholeIsSafeByRows, FirstUnsafeIsOne, PlanIsOne, CutsDecide};
ghost use Rattle.cs_safety.specs.CutLaws.{CellsAreGreatestCuts};
ghost use Rattle.cs_safety.specs.Within.{SafetyIsMonotone};

/// A loss that leaves a suitable projection is safe by rows.
pub fn whole_is_safe_by_rows()
    ensures { WholeIsSafeByRows }
{}

/// A loss contained in a safe one is safe, by either rule.
pub fn safety_is_monotone()
    ensures { SafetyIsMonotone }
{}

/// A catalog has at most one first unsafe loss.
pub fn first_unsafe_is_one()
    ensures { FirstUnsafeIsOne }
{}

/// A loss has at most one plan.
pub fn plan_is_one()
    ensures { PlanIsOne }
{}

/// A row is in the same segments as the row of the greatest cuts that are not above its cells.
pub fn cuts_decide()
    ensures { CutsDecide }
{}

/// A cell of that row is the greatest cut on its column, of any projection, that is not above the row's cell, or the
/// smallest value if there is none.
pub fn cells_are_greatest_cuts()
    ensures { CellsAreGreatestCuts }
{}
