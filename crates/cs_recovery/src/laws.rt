//! Laws about the definitions. Each function does nothing; its contract is the law.
ghost use Rattle.cs_recovery.specs.Laws.{VerdictIsTheTable, AcceptedStoresRecover, VerdictTableIsHeld, WholeAgain, OneRebuildVerdict};
ghost use Rattle.cs_recovery.specs.Laws.{CheckHasOneVerdict, WalkFindsTheTable, LevelsEnd, SurvivorsDecide, RebuildAnswersSuffice};
ghost use Rattle.cs_recovery.specs.Laws.{CheckAnswersSuffice};

/// If the surviving files of a safe loss hold a table, every verdict on them is that table.
pub fn verdict_is_the_table()
    ensures { VerdictIsTheTable }
{}

/// Every answer of `rebuild` on what survives of an accepted store recovers its table, unless memory runs out.
pub fn accepted_stores_recover()
    ensures { AcceptedStoresRecover }
{}

/// If a verdict is a table, the surviving files hold it.
pub fn verdict_table_is_held()
    ensures { VerdictTableIsHeld }
{}

/// The surviving files together with the expected ones hold the table again.
pub fn expected_files_make_whole()
    ensures { WholeAgain }
{}

/// There is at most one verdict of `rebuild` on the same files.
pub fn rebuild_has_one_verdict()
    ensures { OneRebuildVerdict }
{}

/// There is at most one verdict of `check` on the same files.
pub fn check_has_one_verdict()
    ensures { CheckHasOneVerdict }
{}

/// If the surviving files of a safe loss hold a table, the walk finds exactly its rows.
pub fn walk_finds_the_table()
    ensures { WalkFindsTheTable }
{}

/// The last level of a walk by rows reaches no row.
pub fn levels_end()
    ensures { LevelsEnd }
{}

/// Files under names that do not survive do not change an answer of `rebuild`.
pub fn survivors_decide()
    ensures { SurvivorsDecide }
{}

/// The other clauses of `rebuild` follow from its answer.
pub fn rebuild_answers_suffice()
    ensures { RebuildAnswersSuffice }
{}

/// The other clauses of `check` follow from its answer.
pub fn check_answers_suffice()
    ensures { CheckAnswersSuffice }
{}
