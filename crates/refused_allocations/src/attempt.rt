//! What comes of a call after so many allocations.
use std::alloc::Global;
use std::fmt;

/// More allocations than any call makes with its inputs.
pub const LIMIT: u64 = 20_000;

/// What a call answered.
#[derive(Clone, Copy, Debug, PartialEq, Eq)]
pub enum Answer {
    /// That memory ran out.
    Memory,
    /// What it has to answer with ample memory.
    Complete,
    /// Something else.
    Wrong,
    /// An input was changed, whatever the answer.
    Changed,
}

impl Answer {
    /// The answer of a call that ended well, right or not.
    pub fn of(right: bool) -> Answer {
        if right {
            Answer::Complete
        } else {
            Answer::Wrong
        }
    }
}

/// What came of a call.
#[derive(Clone, Copy, Debug, PartialEq, Eq)]
pub enum Report {
    /// An allocation was refused before the call, after so many.
    Before(u64),
    /// The call was made, and so many allocations after it were granted before one was refused: `LIMIT` where none was.
    Made(Answer, u64),
}

impl Report {
    /// The report of a call that was just made.
    pub fn made(alloc: Global, answer: Answer) -> Report {
        Report::Made(answer, allocate(alloc, LIMIT))
    }

    /// This report, or `Changed` if an input was changed.
    pub fn unless_changed(self, same: bool) -> Report {
        match self {
            Report::Made(_, after) => {
                if same {
                    self
                } else {
                    Report::Made(Answer::Changed, after)
                }
            }
            Report::Before(_) => self,
        }
    }
}

/// Makes so many allocations, and gives how many were granted before one was refused.
pub fn allocate(alloc: Global, count: u64) -> u64 {
    for i in 0..count {
        if Box::new(alloc, i).is_err() {
            return i;
        }
    }
    count
}

impl fmt::Display for Answer {
    fn fmt<W: fmt::Write>(&self, f: &mut fmt::Formatter<W>) -> fmt::Result {
        f.write_str(match self {
            Answer::Memory => "memory",
            Answer::Complete => "complete",
            Answer::Wrong => "wrong",
            Answer::Changed => "changed",
        })
    }
}

impl fmt::Display for Report {
    fn fmt<W: fmt::Write>(&self, f: &mut fmt::Formatter<W>) -> fmt::Result {
        match self {
            Report::Before(granted) => write!(f, "before {granted}"),
            Report::Made(answer, LIMIT) => write!(f, "{answer}"),
            Report::Made(answer, after) => write!(f, "{answer} {after}"),
        }
    }
}
