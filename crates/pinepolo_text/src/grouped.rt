//! Numbers that are read by people.
use std::fmt;

/// A number with a comma before each three digits, as `60,050`.
#[derive(Clone, Copy)]
pub struct Grouped(pub u64);

/// What the digits count that stand before a comma, the most first.
const THOUSANDS: [u64; 6] = [
    1_000_000_000_000_000_000,
    1_000_000_000_000_000,
    1_000_000_000_000,
    1_000_000_000,
    1_000_000,
    1_000,
];

impl fmt::Display for Grouped {
    fn fmt<W: fmt::Write>(&self, f: &mut fmt::Formatter<W>) -> fmt::Result {
        let mut is_begun = false;
        for thousands in THOUSANDS {
            let digits = self.0 / thousands;
            if is_begun {
                let digits = digits % 1_000;
                write!(f, "{digits:03},")?;
            } else if digits > 0 {
                write!(f, "{digits},")?;
                is_begun = true;
            }
        }
        let digits = self.0 % 1_000;
        if is_begun {
            write!(f, "{digits:03}")
        } else {
            write!(f, "{digits}")
        }
    }
}

/// A number of files, as `1 file` or `1,200 files`.
#[derive(Clone, Copy)]
pub struct FileCount(pub u64);

impl fmt::Display for FileCount {
    fn fmt<W: fmt::Write>(&self, f: &mut fmt::Formatter<W>) -> fmt::Result {
        let word = if self.0 == 1 { "file" } else { "files" };
        let count = Grouped(self.0);
        write!(f, "{count} {word}")
    }
}
