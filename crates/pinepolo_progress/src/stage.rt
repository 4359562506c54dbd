//! The stages of a verb.
ghost use Rattle.std.specs.Prelude.{◌≡◌, ◌<◌};
ghost use Rattle.pinepolo_progress.specs.Numbers.{number_of};

use cs_board::Round;
use std::fmt;

/// The stages of a verb.
#[derive(Clone, Copy, Debug, PartialEq, Eq)]
pub enum Stage {
    /// Files are read.
    Reading,
    /// A table is read.
    Table,
    /// Files are inspected, each by itself.
    Inspecting,
    /// A round of pieces is done.
    Round(Round),
    /// Files are written.
    Writing,
    /// What stands under names that are to change is kept.
    Keeping,
}

impl Stage {
    /// The stage as a number, which threads share in a word.
    pub fn number(self) -> u64
        ensures { result ≡ number_of self }
    {
        match self {
            Stage::Reading => 0,
            Stage::Inspecting => 1,
            Stage::Writing => 2,
            Stage::Round(Round::Files) => 3,
            Stage::Round(Round::Walk) => 4,
            Stage::Round(Round::Images) => 5,
            Stage::Round(Round::Joins) => 6,
            Stage::Round(Round::Columns) => 7,
            Stage::Table => 8,
            Stage::Keeping => 9,
        }
    }

    /// The stage with a number below 10.
    pub fn of_number(number: u64) -> Stage
        ensures { number < 10 → number_of result ≡ number }
    {
        match number {
            0 => Stage::Reading,
            1 => Stage::Inspecting,
            3 => Stage::Round(Round::Files),
            4 => Stage::Round(Round::Walk),
            5 => Stage::Round(Round::Images),
            6 => Stage::Round(Round::Joins),
            7 => Stage::Round(Round::Columns),
            8 => Stage::Table,
            9 => Stage::Keeping,
            _ => Stage::Writing,
        }
    }
}

impl fmt::Display for Stage {
    fn fmt<W: fmt::Write>(&self, f: &mut fmt::Formatter<W>) -> fmt::Result {
        match self {
            Stage::Reading => f.write_str("reading files"),
            Stage::Table => f.write_str("reading the table"),
            Stage::Inspecting => f.write_str("looking at each file"),
            Stage::Round(round) => write!(f, "{round}"),
            Stage::Writing => f.write_str("writing files"),
            Stage::Keeping => f.write_str("keeping old files"),
        }
    }
}
