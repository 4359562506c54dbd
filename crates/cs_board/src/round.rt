//! The rounds of a recovery. Workers share the tasks of each.
use std::fmt;

/// A round of work, and what its tasks are.
#[derive(Clone, Copy, Debug, PartialEq, Eq)]
pub enum Round {
    /// Reads the files of surviving segments, one segment a task.
    Files,
    /// Follows surviving rows along join indexes to the table's rows, `cut` rows a task.
    Walk,
    /// Compares surviving segments with the table, one segment a task.
    Images,
    /// Compares surviving join indexes with the places of the table's rows, one join index a task.
    Joins,
    /// Encodes the columns of one segment, `cut` cells of a column a task. Each segment that is written has a round of
    /// its own.
    Columns,
}

impl fmt::Display for Round {
    fn fmt<W: fmt::Write>(&self, f: &mut fmt::Formatter<W>) -> fmt::Result {
        let name = match self {
            Round::Files => "files",
            Round::Walk => "walk",
            Round::Images => "images",
            Round::Joins => "joins",
            Round::Columns => "columns",
        };
        write!(f, "{name}")
    }
}
