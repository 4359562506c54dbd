//! Laws about tables, keys and the steps of a walk. Each function does nothing; its contract is the law.
ghost use Rattle.cs_recovery.specs.TableLaws.{TableHasTheRows, IndexIsThePlace, MergedKeysAreDistinct, WalkIsStepByStep};

/// The table of rows without a repeated primary key has exactly these rows, in whatever order they were given.
pub fn table_has_the_rows()
    ensures { TableHasTheRows }
{}

/// The index of a row is its position among the rows of its segment.
pub fn index_is_the_place()
    ensures { IndexIsThePlace }
{}

/// The keys of a segment's image are distinct, at least 1, and at most the highest key ever given.
pub fn merged_keys_are_distinct()
    ensures { MergedKeysAreDistinct }
{}

/// Each step of the walk is one look-up in a join index of the projection before it.
pub fn walk_is_step_by_step()
    ensures { WalkIsStepByStep }
{}
