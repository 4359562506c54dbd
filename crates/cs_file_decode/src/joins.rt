//! Where the bytes of a join index stop making sense.
use crate::cursor::Cursor;
use crate::nonsense::{Nonsense, Wanted};

/// The highest key, and the most entries.
const KEY_LIMIT: u32 = 4_194_304;

/// The greatest number of a segment.
const LAST_SEGMENT: u16 = 15;

/// The number of entries, and the place behind the head.
fn past_head(start: Cursor<'_>, p: u16, s: u16, q: u16) -> Result<(u32, Cursor<'_>), Nonsense> {
    let Some(marked) = start.past(b"CSJIX001") else {
        return Err(start.stop(Wanted::Mark));
    };
    let mut named = marked;
    for number in [p, s, q] {
        match named.past(&number.to_be_bytes()) {
            Some(behind) => named = behind,
            None => return Err(named.stop(Wanted::Name)),
        }
    }
    match named.number() {
        Some((entries, headed)) if entries <= KEY_LIMIT => Ok((entries, headed)),
        _ => Err(named.stop(Wanted::Entries)),
    }
}

/// The place behind an entry.
fn past_entry(start: Cursor<'_>) -> Option<Cursor<'_>> {
    let (segment, named) = start.short()?;
    let (key, behind) = named.number()?;
    let is_allowed = if key == 0 {
        segment == 0
    } else {
        segment <= LAST_SEGMENT && key <= KEY_LIMIT
    };
    if is_allowed { Some(behind) } else { None }
}

/// Where the bytes of a join index before the digest stop making sense, if they do.
pub fn join_nonsense(p: u16, s: u16, q: u16, front: &[u8]) -> Option<Nonsense> {
    let (entries, mut place) = match past_head(Cursor::new(front), p, s, q) {
        Ok(headed) => headed,
        Err(nonsense) => return Some(nonsense),
    };
    for entry in 0..entries {
        match past_entry(place) {
            Some(behind) => place = behind,
            None => return Some(place.stop(Wanted::Entry(entry.saturating_add(1)))),
        }
    }
    if place.rest().is_empty() {
        None
    } else {
        Some(place.stop(Wanted::End))
    }
}
