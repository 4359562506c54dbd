//! Laws about answers of `rebuild` to repeated calls, and to calls after `check`. Each function does nothing; its
//! contract is the law.
ghost use Rattle.cs_recovery.specs.AnswerLaws.{OneAnswer, PartlyWrittenHolds, RestartAnswersTheSame, CheckedStoresRecover};

/// Two answers of `rebuild` on files with the same survivors are the same fault or the same files, unless memory runs
/// out.
pub fn one_answer()
    ensures { OneAnswer }
{}

/// A store into which some of the expected files were put still holds its table.
pub fn partly_written_holds()
    ensures { PartlyWrittenHolds }
{}

/// A recovery in place can stop at any point: called again for the same loss, `rebuild` returns the same files.
pub fn restart_answers_the_same()
    ensures { RestartAnswersTheSame }
{}

/// If `check` accepted a store, each loss of at most K sites is recovered from what survives it, unless memory runs
/// out, and putting the files in place makes the store whole again.
pub fn checked_stores_recover()
    ensures { CheckedStoresRecover }
{}
