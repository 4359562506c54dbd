//! A call that fails.
use std::io;
use std::io::ErrorKind;

/// After how many calls one fails, if one does.
#[derive(Clone, Copy)]
pub struct Failing(pub Option<u64>);

impl Failing {
    /// Counts a call. An error if it is the one that fails.
    pub fn begin(&mut self) -> io::Result<()> {
        match self.0 {
            None => Ok(()),
            Some(0) => {
                self.0 = None;
                Err(io::Error::from(ErrorKind::Other))
            }
            Some(count) => {
                self.0 = Some(count - 1);
                Ok(())
            }
        }
    }
}
