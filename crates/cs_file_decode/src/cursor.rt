//! A place in the bytes of a file.
use crate::nonsense::{Nonsense, Wanted};
use cs_segment::bytes::{after, number, parts, short};

/// The bytes of a file before its digest, and those of them that were not looked at yet.
#[derive(Clone, Copy)]
pub struct Cursor<'a> {
    front: &'a [u8],
    rest: &'a [u8],
}

impl<'a> Cursor<'a> {
    /// The first place.
    pub fn new(front: &'a [u8]) -> Self {
        Self { front, rest: front }
    }

    /// That the bytes make no sense here.
    pub fn stop(&self, wanted: Wanted) -> Nonsense {
        Nonsense {
            at: self.front.len().saturating_sub(self.rest.len()),
            wanted,
        }
    }

    /// The bytes that were not looked at yet.
    pub fn rest(&self) -> &'a [u8] {
        self.rest
    }

    /// The place behind a given text, if that stands here.
    pub fn past(self, text: &[u8]) -> Option<Self> {
        let rest = after(self.rest, text)?;
        Some(Self {
            front: self.front,
            rest,
        })
    }

    /// The number of four bytes that stands here, and the place behind it.
    pub fn number(self) -> Option<(u32, Self)> {
        let (number, rest) = number(self.rest)?;
        let behind = Self {
            front: self.front,
            rest,
        };
        Some((number, behind))
    }

    /// The number of two bytes that stands here, and the place behind it.
    pub fn short(self) -> Option<(u16, Self)> {
        let (number, rest) = short(self.rest)?;
        let behind = Self {
            front: self.front,
            rest,
        };
        Some((number, behind))
    }

    /// The byte that stands here, and the place behind it.
    pub fn byte(self) -> Option<(u8, Self)> {
        let (byte, rest) = self.rest.split_first()?;
        let behind = Self {
            front: self.front,
            rest,
        };
        Some((*byte, behind))
    }

    /// So many bytes that stand here, and the place behind them.
    pub fn bytes(self, count: usize) -> Option<(&'a [u8], Self)> {
        let (bytes, rest) = parts(self.rest, count)?;
        let behind = Self {
            front: self.front,
            rest,
        };
        Some((bytes, behind))
    }
}
