//! A column of texts as one block of bytes and the offset at which each text ends (as in Arrow's string arrays).
ghost use Rattle.std.specs.Prelude.{◌≡◌, ◌==◌, ◌↔◌, ◌-◌, ◌<◌, ◌≤◌, [], ◌∷◌, ◌++◌, ℕ, length, take, drop};
ghost use Rattle.std.specs.Prelude.{slice_get, slice_index, Some, IsUtf8, OnOk, OnErr, IsTrue};
ghost use Rattle.std.specs.List.{concat};
ghost use Rattle.std.specs.Option.{option_cmp};
ghost use Rattle.std.specs.Ordering.{nat_cmp};
ghost use Rattle.std.specs.Cmp.Lexicographic.{slice_cmp};
ghost use Rattle.cs_schema.specs.Blocks.{start_at, texts_at};

use crate::Word;
use crate::ends::{Ends, Shift, part};
use std::alloc::{AllocError, Global};
use std::cmp::Ordering;
use std::marker::Model;
use std::str;

/// Texts of at most 255 bytes each, in one block. Contracts see the bytes of each.
#[derive(Drop)]
pub struct Texts {
    bytes: Vec<u8>,
    ends: Ends,
}

impl Model for Texts {
    ghost use Rattle.std.specs.Prelude.{List, ℕ};

    ghost Value = { List (List ℕ) };

    ghost use Rattle.cs_schema.specs.Blocks.{pieces, IsBlock};

    ghost view = { λ t. pieces t.bytes.items t.ends };

    ghost invariant = { λ t. IsBlock t.bytes.items t.ends };
}

impl Texts {
    /// No texts.
    pub fn new(alloc: Global) -> Texts
        ensures { result ≡ [] }
    {
        Texts {
            bytes: Vec::new(alloc),
            ends: Ends::new(alloc),
        }
    }

    /// The number of texts.
    #[inline]
    pub fn len(&self) -> usize
        ensures { result ≡ length self.now }
    {
        self.ends.len()
    }

    /// The total number of bytes.
    pub fn size(&self) -> usize
        ensures { result ≡ length (concat self.now) }
    {
        self.bytes.len()
    }

    /// Whether there are no texts.
    #[inline]
    pub fn is_empty(&self) -> bool
        ensures { result ≡ (length self.now == 0) }
    {
        self.len() == 0
    }

    /// The text at an index.
    #[inline]
    pub fn get(&self, at: usize) -> &str
        requires { at < length self.now }
        ensures value { slice_get self.now at ≡ Some result.now }
        ensures fits { length result.now ≤ 255 }
        ensures utf8 { IsUtf8 result.now }
    {
        let start = start_of(&self.ends, at);
        let end = self.ends.get(at);
        text_between(&self.bytes, start, end)
    }

    /// The bytes of the text at an index.
    #[inline]
    pub fn bytes(&self, at: usize) -> &[u8]
        requires { at < length self.now }
        ensures value { slice_get self.now at ≡ Some result.now }
        ensures fits { length result.now ≤ 255 }
        ensures utf8 { IsUtf8 result.now }
    {
        self.get(at).as_bytes()
    }

    /// A copy of the text at an index. It does not allocate.
    #[inline]
    pub fn word(&self, at: usize) -> Word
        requires { at < length self.now }
        ensures value { slice_get self.now at ≡ Some result }
        ensures fits { length result ≤ 255 }
        ensures utf8 { IsUtf8 result }
    {
        match Word::new(self.get(at)) {
            Ok(word) => word,
            Err(_) => unreachable!(),
        }
    }

    /// Compares the text at an index with one of another block, by their bytes.
    #[inline]
    pub fn compare(&self, at: usize, other: &Texts, other_at: usize) -> Ordering
        requires here { at < length self.now }
        requires there { other_at < length other.now }
        ensures { result ≡ option_cmp (slice_cmp nat_cmp) (slice_get self.now at) (slice_get other.now other_at) }
    {
        self.get(at).cmp(other.get(other_at))
    }

    /// Whether the text at an index equals one of another block.
    #[inline]
    pub fn same(&self, at: usize, other: &Texts, other_at: usize) -> bool
        requires here { at < length self.now }
        requires there { other_at < length other.now }
        ensures { IsTrue result ↔ (slice_get self.now at ≡ slice_get other.now other_at) }
    {
        self.get(at) == other.get(other_at)
    }

    /// Appends a copy of a text. If memory is refused, nothing changes.
    #[inline]
    pub fn push(&mut self, text: &str) -> Result<(), AllocError>
        requires { length text.now ≤ 255 }
        ensures ok { OnOk result (self.new ≡ self.old ++ text.now ∷ []) }
        ensures err { OnErr result (self.new ≡ self.old) }
    {
        let count = self.bytes.len();
        self.bytes.extend_from_slice(text.as_bytes())?;
        if self.ends.push(count + text.len()).is_err() {
            self.bytes.truncate(count);
            return Err(AllocError);
        }
        Ok(())
    }

    /// Appends copies of the texts `from..to` of another block. If memory is refused, nothing changes.
    pub fn extend(&mut self, other: &Texts, from: usize, to: usize) -> Result<(), AllocError>
        requires order { from ≤ to }
        requires within { to ≤ length other.now }
        ensures ok { OnOk result (self.new ≡ self.old ++ take (to - from) (drop from other.now)) }
        ensures err { OnErr result (self.new ≡ self.old) }
    {
        let start = start_of(&other.ends, from);
        let end = start_of(&other.ends, to);
        let count = self.bytes.len();
        let more = part(&other.bytes, start, end);
        self.bytes.extend_from_slice(more)?;
        let shift = Shift {
            less: start,
            more: count,
            top: count + more.len(),
        };
        if self
            .ends
            .extend_moved(&other.ends, from, to, shift)
            .is_err()
        {
            self.bytes.truncate(count);
            return Err(AllocError);
        }
        Ok(())
    }

    /// Moves the texts of another block to the end. If memory is refused, nothing changes.
    pub fn append(&mut self, other: Texts) -> Result<(), AllocError>
        ensures ok { OnOk result (self.new ≡ self.old ++ other) }
        ensures err { OnErr result (self.new ≡ self.old) }
    {
        if self.is_empty() {
            *self = other;
            return Ok(());
        }
        let count = other.len();
        self.extend(&other, 0, count)
    }

    /// Keeps only the first `count` texts.
    pub fn truncate(&mut self, count: usize)
        ensures { self.new ≡ take count self.old }
    {
        if count < self.ends.len() {
            let end = start_of(&self.ends, count);
            self.ends.truncate(count);
            self.bytes.truncate(end);
        }
    }

    /// Reserves room for `texts` texts of `bytes` bytes in total.
    pub fn reserve(&mut self, texts: usize, bytes: usize) -> Result<(), AllocError>
        ensures { self.new ≡ self.old }
    {
        self.ends.reserve(texts)?;
        self.bytes.reserve(bytes)
    }

    /// Appends copies of the texts of another block at these indices. If memory is refused, nothing changes.
    pub fn push_at(&mut self, other: &Texts, places: &[u32]) -> Result<(), AllocError>
        requires { (k : ℕ) → k < length places.now → slice_index places.now k < length other.now }
        ensures ok { OnOk result (self.new ≡ self.old ++ texts_at other.now places.now) }
        ensures err { OnErr result (self.new ≡ self.old) }
    {
        let count = self.len();
        let added = push_each(self, other, places);
        if added.is_err() {
            self.truncate(count);
        }
        added
    }

    /// The total number of bytes of the texts at these indices, if that fits 64 bits. It reads offsets alone, so no
    /// read waits for another.
    pub fn size_at(&self, places: &[u32]) -> usize
        requires { (k : ℕ) → k < length places.now → slice_index places.now k < length self.now }
        ensures { result ≤ length (concat (texts_at self.now places.now)) }
    {
        let mut size: usize = 0;
        for place in places {
            size = size.wrapping_add(self.get(*place as usize).len());
        }
        size
    }
}

/// Appends copies of the texts at these indices. If memory is refused, some of them have been appended.
fn push_each(texts: &mut Texts, other: &Texts, places: &[u32]) -> Result<(), AllocError>
    requires { (k : ℕ) → k < length places.now → slice_index places.now k < length other.now }
    ensures all { OnOk result (texts.new ≡ texts.old ++ texts_at other.now places.now) }
    ensures kept { take (length texts.old) texts.new ≡ texts.old }
{
    texts.reserve(places.len(), other.size_at(places))?;
    for place in places {
        texts.push(other.get(*place as usize))?;
    }
    Ok(())
}

/// The offset at which the text at an index starts, or at which the last one ends.
#[inline]
fn start_of(ends: &Ends, at: usize) -> usize
    requires { at ≤ length ends.now }
    ensures { result ≡ start_at ends.now at }
{
    if at == 0 { 0 } else { ends.get(at - 1) }
}

/// The text between two offsets.
#[inline]
fn text_between(bytes: &[u8], start: usize, end: usize) -> &str
    requires order { start ≤ end }
    requires within { end ≤ length bytes.now }
    requires utf8 { IsUtf8 (take (end - start) (drop start bytes.now)) }
    ensures { result.now ≡ take (end - start) (drop start bytes.now) }
{
    let text = part(bytes, start, end);
    unsafe { str::from_utf8_unchecked(text) }
}
