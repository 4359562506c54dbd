//! What a recovery answers, in words.
use pinepolo_answers::Recovered;
use std::fmt;

/// The files that a recovery wrote, as lines.
#[derive(Clone, Copy)]
pub struct RecoveredText<'a>(pub &'a Recovered);

impl fmt::Display for RecoveredText<'_> {
    fn fmt<W: fmt::Write>(&self, f: &mut fmt::Formatter<W>) -> fmt::Result {
        let files = &self.0.files;
        for i in 0..files.len() {
            let (name, bytes) = files.at(i);
            let length = bytes.len();
            writeln!(f, "{name} {length}")?;
        }
        let count = files.len();
        writeln!(f, "ok files={count}")
    }
}
