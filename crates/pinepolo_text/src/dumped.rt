//! What a dump answers, in words.
use pinepolo_answers::Dumped;
use std::fmt;

/// A table that was written to a file as CSV, as a line.
#[derive(Clone, Copy)]
pub struct DumpedText<'a>(pub &'a Dumped);

impl fmt::Display for DumpedText<'_> {
    fn fmt<W: fmt::Write>(&self, f: &mut fmt::Formatter<W>) -> fmt::Result {
        let bytes = self.0.bytes;
        writeln!(f, "ok bytes={bytes}")
    }
}
