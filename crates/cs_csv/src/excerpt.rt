//! The part of a text that a fault shows.
ghost use Rattle.std.specs.Prelude.{◌≡◌};
ghost use Rattle.cs_csv.specs.Shown.{shown};

use arrayvec::ArrayVec;
use std::fmt;
use std::marker::Model;

/// The maximum number of bytes shown.
const SHOWN: usize = 40;

/// The first bytes of a field. `Display` escapes them, so that they fit on one line. Contracts see the bytes.
#[derive(Debug, Drop)]
pub struct Excerpt {
    bytes: ArrayVec<u8, 40>,
}

impl Model for Excerpt {
    ghost use Rattle.std.specs.Prelude.{List, ℕ};

    ghost Value = { List ℕ };

    ghost view = { λ e. e.bytes.items };
}

impl Excerpt {
    /// The first 40 bytes of a text.
    pub fn new(text: &[u8]) -> Excerpt
        ensures { result ≡ shown text.now }
    {
        let mut bytes = ArrayVec::new();
        let count = SHOWN.min(text.len());
        match bytes.try_extend_from_slice(&text[..count]) {
            Ok(()) => Excerpt { bytes },
            Err(_) => unreachable!(),
        }
    }
}

impl fmt::Display for Excerpt {
    fn fmt<W: fmt::Write>(&self, f: &mut fmt::Formatter<W>) -> fmt::Result {
        let escaped = self.bytes.as_slice().escape_ascii();
        write!(f, "{escaped}")
    }
}
