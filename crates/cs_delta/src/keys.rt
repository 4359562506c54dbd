//! The storage keys of an image's rows, and the position of each.
ghost use Rattle.std.specs.Prelude.{◌≡◌, ◌≤◌, ◌<◌, ◌==◌, length, slice_index, IfOk};
ghost use Rattle.std.specs.List.{position};
ghost use Rattle.cs_delta.specs.Places.{IsIndex};
ghost use Rattle.cs_delta.specs.KindedImage.{base_keys};

use std::alloc::{AllocError, Global};
use std::marker::Model;

/// The keys of at most 1,048,576 rows: either 1, 2, 3 and so on without gaps, or a list.
///
/// The keys of a segment without changes are not listed, so they take no memory and are found without a search.
#[derive(Drop)]
pub struct Keys {
    first: u32,
    listed: Vec<u32>,
    /// Indexed by key: one more than the position of a listed key, and 0 for any other number.
    places: Vec<u32>,
}

impl Model for Keys {
    ghost use Rattle.std.specs.Prelude.{ℕ, List};
    ghost use Rattle.cs_delta.specs.KeysView.{key_list, AreKeys};

    ghost Value = { List ℕ };

    ghost view = { key_list };

    ghost invariant = { AreKeys };
}

impl Keys {
    /// The keys 1 to `count`: those of a base that no item changes.
    pub fn first(alloc: Global, count: u32) -> Self
        requires { count ≤ 1048576 }
        ensures { result ≡ base_keys count }
    {
        Keys {
            first: count,
            listed: Vec::new(alloc),
            places: Vec::new(alloc),
        }
    }

    /// These keys, with an index of 4 bytes for each number up to the highest of them.
    pub fn listed(alloc: Global, keys: Vec<u32>) -> Result<Self, AllocError>
        requires { length keys.items ≤ 1048576 }
        ensures { IfOk result (λ listed. listed ≡ keys.items) }
    {
        let places = index_keys(alloc, &keys)?;
        Ok(Keys {
            first: 0,
            listed: keys,
            places,
        })
    }

    /// The number of keys.
    pub fn len(&self) -> u32
        ensures { result ≡ length self.now }
    {
        self.first + self.listed.len() as u32
    }

    /// The key at a position.
    pub fn at(&self, i: u32) -> u32
        requires { i < length self.now }
        ensures { result ≡ slice_index self.now i }
    {
        if i < self.first {
            return i + 1;
        }
        self.listed[(i - self.first) as usize]
    }

    /// The position of a key, or `None` if it is not among them. It takes constant time.
    pub fn position_of(&self, key: u32) -> Option<u32>
        ensures { result ≡ position (λ k. k == key) self.now }
    {
        if self.first > 0 {
            if key == 0 || key > self.first {
                return None;
            }
            return Some(key - 1);
        }
        let at = key as usize;
        let place = if at < self.places.len() {
            self.places[at]
        } else {
            0
        };
        if place == 0 { None } else { Some(place - 1) }
    }
}

/// The index of a list of keys: at each key one more than its first position, and 0 at all other numbers.
fn index_keys(alloc: Global, keys: &[u32]) -> Result<Vec<u32>, AllocError>
    requires { length keys.now ≤ 1048576 }
    ensures { IfOk result (λ places. IsIndex places.items keys.now) }
{
    let mut size = 0;
    for key in keys {
        if *key as usize >= size {
            size = *key as usize + 1;
        }
    }
    let mut places = Vec::new(alloc);
    places.resize(size, 0u32)?;
    let mut i = keys.len();
    while i > 0 {
        i -= 1;
        places[keys[i] as usize] = i as u32 + 1;
    }
    Ok(places)
}
