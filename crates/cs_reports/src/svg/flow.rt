//! Words in lines of a width.
use std::alloc::{AllocError, Global};

/// Lines of at most so many letters, one after the other.
#[derive(Drop)]
pub struct Flow {
    alloc: Global,
    lines: Vec<String>,
    line: String,
    used: u64,
    letters: u64,
}

impl Flow {
    /// No line yet.
    pub fn new(alloc: Global, letters: u64) -> Flow {
        Flow {
            alloc,
            lines: Vec::new(alloc),
            line: String::new(alloc),
            used: 0,
            letters,
        }
    }

    /// Ends the line.
    pub fn end_line(&mut self) -> Result<(), AllocError> {
        let line = std::mem::replace(&mut self.line, String::new(self.alloc));
        self.used = 0;
        self.lines.push(line)?;
        Ok(())
    }

    /// Adds a letter, in the next line where this one is full.
    fn letter(&mut self, letter: char) -> Result<(), AllocError> {
        if self.used >= self.letters {
            self.end_line()?;
        }
        self.used = self.used.saturating_add(1);
        self.line.push(letter)
    }

    /// Adds a word, in the next line where it has no room here; a longer one is cut.
    pub fn word(&mut self, word: &str) -> Result<(), AllocError> {
        let length = word.len() as u64;
        if self.used > 0 && self.used.saturating_add(length).saturating_add(1) > self.letters {
            self.end_line()?;
        }
        if self.used > 0 {
            self.letter(' ')?;
        }
        for letter in word.chars() {
            self.letter(letter)?;
        }
        Ok(())
    }

    /// The lines.
    pub fn finish(self) -> Vec<String> {
        let Flow {
            alloc: _,
            lines,
            line: _,
            used: _,
            letters: _,
        } = self;
        lines
    }
}
