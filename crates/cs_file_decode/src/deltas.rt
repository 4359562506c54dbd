//! Where the bytes of a delta stop making sense.
ghost use Rattle.std.specs.Prelude.{◌<◌, length};

use crate::cursor::Cursor;
use crate::nonsense::{Nonsense, Wanted};
use cs_schema::{Catalog, Kind};

/// The most rows of a base.
const ROW_LIMIT: u32 = 1_048_576;

/// The highest key.
const KEY_LIMIT: u32 = 4_194_304;

/// The most layers.
const LAYER_LIMIT: u8 = 3;

/// The place behind the numbers that both versions have: the name, the rows and the highest key.
fn past_numbers(start: Cursor<'_>, p: u16, s: u16) -> Result<Cursor<'_>, Nonsense> {
    let Some(placed) = start.past(&p.to_be_bytes()) else {
        return Err(start.stop(Wanted::Name));
    };
    let Some(named) = placed.past(&s.to_be_bytes()) else {
        return Err(placed.stop(Wanted::Name));
    };
    let (rows, counted) = match named.number() {
        Some((rows, counted)) if rows <= ROW_LIMIT => (rows, counted),
        _ => return Err(named.stop(Wanted::Rows)),
    };
    match counted.number() {
        Some((top, topped)) if rows <= top && top <= KEY_LIMIT => Ok(topped),
        _ => Err(counted.stop(Wanted::Top)),
    }
}

/// The number of layers, and the place behind the head.
fn past_head(start: Cursor<'_>, p: u16, s: u16) -> Result<(u8, Cursor<'_>), Nonsense> {
    if let Some(marked) = start.past(b"CSDEL001") {
        return match past_numbers(marked, p, s) {
            Ok(headed) => Ok((1, headed)),
            Err(nonsense) => Err(nonsense),
        };
    }
    let Some(marked) = start.past(b"CSDEL002") else {
        return Err(start.stop(Wanted::Mark));
    };
    let topped = match past_numbers(marked, p, s) {
        Ok(topped) => topped,
        Err(nonsense) => return Err(nonsense),
    };
    match topped.byte() {
        Some((layers, headed)) if 1 <= layers && layers <= LAYER_LIMIT => Ok((layers, headed)),
        _ => Err(topped.stop(Wanted::Layers)),
    }
}

/// The place behind a cell.
fn past_cell(start: Cursor<'_>, kind: Kind) -> Option<Cursor<'_>> {
    let (length, begun) = match kind {
        Kind::Int => (8, start),
        Kind::Text => start.byte()?,
    };
    let (_, behind) = begun.bytes(usize::from(length))?;
    Some(behind)
}

/// The place behind the cells of a row.
fn past_row<'a>(catalog: &Catalog, p: u16, start: Cursor<'a>) -> Option<Cursor<'a>>
    requires { p < length catalog.now.projections }
{
    let mut place = start;
    for j in 0..catalog.width(p) {
        place = past_cell(place, catalog.column_kind(p, j))?;
    }
    Some(place)
}

/// The place behind a modification whose column stands here.
fn past_modification<'a>(catalog: &Catalog, p: u16, start: Cursor<'a>) -> Option<Cursor<'a>>
    requires { p < length catalog.now.projections }
{
    let (column, named) = start.byte()?;
    let j = usize::from(column);
    if j >= catalog.width(p) {
        return None;
    }
    past_cell(named, catalog.column_kind(p, j))
}

/// The place behind an item.
fn past_item<'a>(catalog: &Catalog, p: u16, start: Cursor<'a>) -> Option<Cursor<'a>>
    requires { p < length catalog.now.projections }
{
    let (tag, tagged) = start.byte()?;
    let (_, placed) = tagged.number()?;
    match tag {
        1 => {
            let (_, keyed) = placed.number()?;
            past_row(catalog, p, keyed)
        }
        2 => Some(placed),
        3 => past_modification(catalog, p, placed),
        _ => None,
    }
}

/// The place behind a layer.
fn past_layer<'a>(
    catalog: &Catalog,
    p: u16,
    layer: usize,
    start: Cursor<'a>,
) -> Result<Cursor<'a>, Nonsense>
    requires { p < length catalog.now.projections }
{
    let Some((items, counted)) = start.number() else {
        return Err(start.stop(Wanted::Layer(layer)));
    };
    let mut place = counted;
    for item in 0..items {
        match past_item(catalog, p, place) {
            Some(behind) => place = behind,
            None => return Err(place.stop(Wanted::Item { layer, item })),
        }
    }
    Ok(place)
}

/// Where the bytes of a delta before the digest stop making sense, if they do so before its items are compared.
pub fn delta_nonsense(catalog: &Catalog, p: u16, s: u16, front: &[u8]) -> Option<Nonsense>
    requires { p < length catalog.now.projections }
{
    let (layers, mut place) = match past_head(Cursor::new(front), p, s) {
        Ok(headed) => headed,
        Err(nonsense) => return Some(nonsense),
    };
    for layer in 0..layers {
        match past_layer(catalog, p, usize::from(layer), place) {
            Ok(behind) => place = behind,
            Err(nonsense) => return Some(nonsense),
        }
    }
    if place.rest().is_empty() {
        None
    } else {
        Some(place.stop(Wanted::End))
    }
}
