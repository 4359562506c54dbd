//! Where each text of a block ends.
ghost use Rattle.std.specs.Prelude.{◌≡◌, ◌+◌, ◌-◌, ◌<◌, ◌≤◌, ◌^◌, [], ◌∷◌, ◌++◌, ℕ, length, take, drop, map, slice_index, OnOk, OnErr};

use std::alloc::{AllocError, Global};
use std::marker::Model;

/// Offsets of 64 bits. Those before the first that needs more than 32 bits take four bytes each. Contracts see one
/// list.
#[derive(Drop)]
pub(crate) struct Ends {
    narrow: Vec<u32>,
    wide: Vec<u64>,
}

/// How offsets into one block become offsets into another.
#[derive(Clone, Copy)]
pub(crate) struct Shift {
    /// Subtracted from each.
    pub(crate) less: usize,
    /// Added to each.
    pub(crate) more: usize,
    /// No shifted offset is greater.
    pub(crate) top: usize,
}

impl Model for Ends {
    ghost use Rattle.std.specs.Prelude.{List, ℕ, ◌++◌};

    ghost Value = { List ℕ };

    ghost view = { λ e. e.narrow.items ++ e.wide.items };
}

impl Ends {
    /// No offsets.
    pub(crate) fn new(alloc: Global) -> Ends
        ensures { result ≡ [] }
    {
        Ends {
            narrow: Vec::new(alloc),
            wide: Vec::new(alloc),
        }
    }

    /// The number of offsets.
    #[inline]
    pub(crate) fn len(&self) -> usize
        ensures { result ≡ length self.now }
    {
        self.narrow.len() + self.wide.len()
    }

    /// The offset at an index.
    #[inline]
    pub(crate) fn get(&self, at: usize) -> usize
        requires { at < length self.now }
        ensures { result ≡ slice_index self.now at }
    {
        let narrow = self.narrow.len();
        if at < narrow {
            self.narrow[at] as usize
        } else {
            self.wide[at - narrow] as usize
        }
    }

    /// Appends an offset. If memory is refused, nothing changes.
    #[inline]
    pub(crate) fn push(&mut self, end: usize) -> Result<(), AllocError>
        ensures ok { OnOk result (self.new ≡ self.old ++ end ∷ []) }
        ensures err { OnErr result (self.new ≡ self.old) }
    {
        if end <= u32::MAX as usize && self.wide.is_empty() {
            self.narrow.push(end as u32)?;
        } else {
            self.wide.push(end as u64)?;
        }
        Ok(())
    }

    /// Appends the offsets `from..to` of another list, shifted. If memory is refused, nothing changes.
    pub(crate) fn extend_moved(
        &mut self,
        other: &Ends,
        from: usize,
        to: usize,
        shift: Shift,
    ) -> Result<(), AllocError>
        requires order { from ≤ to }
        requires within { to ≤ length other.now }
        requires low { (k : ℕ) → k < to - from → shift.less ≤ slice_index (take (to - from) (drop from other.now)) k }
        requires high { (k : ℕ) → k < to - from → slice_index (take (to - from) (drop from other.now)) k + shift.more ≤ shift.top + shift.less }
        ensures ok { OnOk result (self.new ≡ self.old ++ map (λ e. e - shift.less + shift.more) (take (to - from) (drop from other.now))) }
        ensures err { OnErr result (self.new ≡ self.old) }
    {
        let most = u32::MAX as usize;
        if to <= other.narrow.len()
            && self.wide.is_empty()
            && shift.less <= most
            && shift.more <= most
            && shift.top <= most
        {
            return extend_narrow(
                &mut self.narrow,
                part(&other.narrow, from, to),
                shift.less as u32,
                shift.more as u32,
            );
        }
        let count = self.len();
        let added = push_moved(self, other, from, to, shift);
        if added.is_err() {
            self.truncate(count);
        }
        added
    }

    /// Keeps only the first `count` offsets.
    pub(crate) fn truncate(&mut self, count: usize)
        ensures { self.new ≡ take count self.old }
    {
        self.wide.truncate(count.saturating_sub(self.narrow.len()));
        self.narrow.truncate(count);
    }

    /// Reserves room for `more` offsets.
    pub(crate) fn reserve(&mut self, more: usize) -> Result<(), AllocError>
        ensures { self.new ≡ self.old }
    {
        if self.wide.is_empty() {
            self.narrow.reserve(more)
        } else {
            self.wide.reserve(more)
        }
    }
}

/// The items `from..to`.
#[inline]
pub(crate) fn part<T>(items: &[T], from: usize, to: usize) -> &[T]
    requires order { from ≤ to }
    requires within { to ≤ length items.now }
    ensures { result.now ≡ take (to - from) (drop from items.now) }
{
    &items[from..to]
}

/// Appends shifted offsets one by one. If memory is refused, some of them have been appended.
fn push_moved(
    ends: &mut Ends,
    other: &Ends,
    from: usize,
    to: usize,
    shift: Shift,
) -> Result<(), AllocError>
    requires order { from ≤ to }
    requires within { to ≤ length other.now }
    requires low { (k : ℕ) → k < to - from → shift.less ≤ slice_index (take (to - from) (drop from other.now)) k }
    requires high { (k : ℕ) → k < to - from → slice_index (take (to - from) (drop from other.now)) k + shift.more ≤ shift.top + shift.less }
    ensures all { OnOk result (ends.new ≡ ends.old ++ map (λ e. e - shift.less + shift.more) (take (to - from) (drop from other.now))) }
    ensures kept { take (length ends.old) ends.new ≡ ends.old }
{
    ends.reserve(to - from)?;
    for at in from..to {
        ends.push(other.get(at) - shift.less + shift.more)?;
    }
    Ok(())
}

/// Appends shifted offsets that take four bytes each, by one copy. If memory is refused, nothing changes.
fn extend_narrow(
    ends: &mut Vec<u32>,
    others: &[u32],
    less: u32,
    more: u32,
) -> Result<(), AllocError>
    requires low { (k : ℕ) → k < length others.now → less ≤ slice_index others.now k }
    requires high { (k : ℕ) → k < length others.now → slice_index others.now k + more < 2 ^ 32 + less }
    ensures ok { OnOk result (ends.new.items ≡ ends.old.items ++ map (λ e. e - less + more) others.now) }
    ensures err { OnErr result (ends.new.items ≡ ends.old.items) }
{
    let count = ends.len();
    ends.extend_from_slice(others)?;
    move_ends(&mut ends[count..], less, more);
    Ok(())
}

/// Shifts offsets in place.
fn move_ends(ends: &mut [u32], less: u32, more: u32)
    requires low { (k : ℕ) → k < length ends.old → less ≤ slice_index ends.old k }
    requires high { (k : ℕ) → k < length ends.old → slice_index ends.old k + more < 2 ^ 32 + less }
    ensures { ends.new ≡ map (λ e. e - less + more) ends.old }
{
    for end in ends.iter_mut() {
        *end = *end - less + more;
    }
}
