//! A table that reports how far it has been read.
ghost use Rattle.std.specs.Prelude.{◌≡◌};

use crate::progress::Progress;
use std::io;
use std::io::Read;

/// A table's text that reports its rows to a gate as they are read. It counts the ends of lines, though a cell may
/// contain some too.
#[derive(Drop)]
pub struct LinesRead<'a, I, G> {
    input: I,
    gate: &'a G,
}

impl<'a, I, G> LinesRead<'a, I, G> {
    /// The text that an input has yet to give.
    pub fn new(input: I, gate: &'a G) -> Self
        ensures { result.input ≡ input }
    {
        Self { input, gate }
    }
}

/// The number of line ends among some bytes.
fn line_ends(bytes: &[u8]) -> u64 {
    bytes.iter().filter(|byte| **byte == b'\n').count() as u64
}

impl<I: Read, G: Progress> Read for LinesRead<'_, I, G> {
    ghost remaining = { λ lines. I.remaining lines.input };

    fn read(&mut self, buf: &mut [u8]) -> io::Result<usize> {
        match self.input.read(buf) {
            Ok(count) => {
                self.gate.read_rows(line_ends(&buf[..count]));
                Ok(count)
            }
            Err(error) => Err(error),
        }
    }
}
