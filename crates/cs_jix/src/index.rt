//! Join indexes, and following their entries.
ghost use Rattle.std.specs.Prelude.{◌≡◌, ◌≤◌, ℕ, List, length};
ghost use Rattle.std.specs.List.{zip};
ghost use Rattle.cs_jix.specs.JoinIndex.{entry_at};
ghost use Rattle.cs_jix.specs.Follow.{followed};

use cs_delta::image::Image;
use std::marker::Model;

/// A join index (C-Store, VLDB 2005). For each storage key of a segment, from 1 to `top`, its entry is the segment and
/// the key at which the target projection stores the row. The entry of a key without a live row is empty: (0, 0).
#[derive(Drop)]
pub struct JoinIndex {
    segments: Vec<u16>,
    keys: Vec<u32>,
}

impl Model for JoinIndex {
    ghost use Rattle.std.specs.Prelude.{List, ◌≡◌, ◌≤◌, length};
    ghost use Rattle.std.specs.List.{zip};
    ghost use Rattle.cs_jix.specs.JoinIndex.{Place};

    ghost Value = { List Place };

    ghost view = { λ j. zip j.segments.items j.keys.items };

    ghost invariant = { λ j. (length j.segments.items ≡ length j.keys.items) × (length j.keys.items ≤ 4194304) };
}

impl JoinIndex {
    /// The join index whose entries have these segments and keys.
    pub(crate) fn from_parts(segments: Vec<u16>, keys: Vec<u32>) -> Self
        requires same { length segments.items ≡ length keys.items }
        requires few { length keys.items ≤ 4194304 }
        ensures { result ≡ zip segments.items keys.items }
    {
        JoinIndex { segments, keys }
    }

    /// The number of entries, and the highest key that has one.
    pub fn top(&self) -> u32
        ensures { result ≡ length self.now }
    {
        self.keys.len() as u32
    }

    /// The entry of a key: a segment of the target and a key in it. `None` if there is no such entry, or if it is
    /// empty.
    pub fn entry(&self, key: u32) -> Option<(u16, u32)>
        ensures { result ≡ entry_at self.now key }
    {
        let key = key as usize;
        if key == 0 || key > self.keys.len() {
            return None;
        }
        let place = (self.segments[key - 1], self.keys[key - 1]);
        if place.1 == 0 { None } else { Some(place) }
    }

    /// The row to which the entry of a key points: its segment in the target, and its position in the image of that
    /// segment. `images` has those of the target's segments in order. `None` if there is no entry, if it is empty, if
    /// the image of its segment is not given, or if its key is not live there.
    pub fn follow(&self, key: u32, images: &[Option<Image>]) -> Option<(u16, u32)>
        ensures { result ≡ followed self.now key images.now }
    {
        match self.entry(key) {
            None => None,
            Some((segment, target)) => match images.get(segment as usize) {
                Some(Some(image)) => match image.position_of(target) {
                    Some(position) => Some((segment, position)),
                    None => None,
                },
                _ => None,
            },
        }
    }
}
