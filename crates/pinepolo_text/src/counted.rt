//! Numbers of things.
use std::fmt;

/// A number with the word for one thing or for several, as `1 row` or `2 rows`.
#[derive(Clone, Copy)]
pub struct Counted {
    pub count: u64,
    pub one: &'static str,
    pub several: &'static str,
}

impl fmt::Display for Counted {
    fn fmt<W: fmt::Write>(&self, f: &mut fmt::Formatter<W>) -> fmt::Result {
        let count = self.count;
        let word = if count == 1 { self.one } else { self.several };
        write!(f, "{count} {word}")
    }
}
