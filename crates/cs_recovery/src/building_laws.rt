//! Laws about a store's table when it is handed out whole, and about a new store built from it. Each function does
//! nothing; its contract is the law.
ghost use Rattle.cs_recovery.specs.TableAnswers.{TableAnswersSuffice};
ghost use Rattle.cs_recovery.specs.BuildAnswers.{BuildAnswersSuffice, ColumnsAreTheTable};

/// The other clauses of `table` follow from its answer: if the surviving files of a safe loss hold a table, that table
/// is returned, unless memory runs out.
pub fn table_answers_suffice()
    ensures { TableAnswersSuffice }
{}

/// The other clauses of `build` follow from its answer: the files hold the table of the rows, and each safe loss of
/// them is recovered to the same files, unless memory runs out.
pub fn build_answers_suffice()
    ensures { BuildAnswersSuffice }
{}

/// Columns that `table` returned can be passed to `build`, and their rows are those of the table.
pub fn columns_are_the_table()
    ensures { ColumnsAreTheTable }
{}
