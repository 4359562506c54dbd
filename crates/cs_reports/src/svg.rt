//! Pictures of a placement: projections as rows, their segments as boxes in the columns of their sites, join indexes as
//! arrows. XML documents of SVG, 1,000 pixels wide.
mod arrows;
mod boxes;
mod escaped;
mod flow;
mod frame;
mod legends;
mod looks;
mod rows;
mod sites;

use crate::design::Design;
use crate::placed::BadFile;
use arrows::draw_arrows;
use boxes::draw_row;
use cs_schema::Catalog;
use frame::{Frame, WIDTH};
use legends::draw_legend;
use looks::Paint;
use rows::{Row, rows_of};
use sites::draw_sites;
use std::alloc::{AllocError, Global};
use std::fmt::Write;

/// How high the legend is.
const LEGEND: u64 = 60;

/// The picture of what a catalog says of losses.
pub fn picture(alloc: Global, catalog: &Catalog, design: &Design) -> Result<String, AllocError> {
    let paint = Paint {
        by_state: false,
        lost: design.lost,
        bad: Vec::new(alloc),
    };
    draw(alloc, catalog, design, &paint)
}

/// The picture of a store with these bad files, of which no name comes twice: each segment in the colour of its state. The
/// design is that beside the loss of their sites.
pub fn store_picture(
    alloc: Global,
    catalog: &Catalog,
    design: &Design,
    bad: Vec<BadFile>,
) -> Result<String, AllocError> {
    let paint = Paint {
        by_state: true,
        lost: design.lost,
        bad,
    };
    draw(alloc, catalog, design, &paint)
}

/// The text of a picture.
fn draw(
    alloc: Global,
    catalog: &Catalog,
    design: &Design,
    paint: &Paint,
) -> Result<String, AllocError> {
    let frame = Frame::of(catalog.sites);
    let rows = rows_of(alloc, catalog, &frame)?;
    let bottom = bottom_of(&frame, rows.as_slice());
    let mut text = head(alloc, &frame, bottom)?;
    for row in &rows {
        draw_row(&mut text, &frame, paint, row)?;
    }
    draw_arrows(&mut text, &frame, rows.as_slice())?;
    draw_sites(&mut text, &frame, design, bottom)?;
    draw_legend(&mut text, design, paint.by_state, bottom)?;
    text.push_str("</svg>\n")?;
    Ok(text)
}

/// Where the last row ends.
fn bottom_of(frame: &Frame, rows: &[Row<'_>]) -> u64 {
    match rows.last() {
        Some(row) => row.top.saturating_add(row.height),
        None => frame.head,
    }
}

/// The document up to its first shape.
fn head(alloc: Global, frame: &Frame, bottom: u64) -> Result<String, AllocError> {
    let height = bottom.saturating_add(LEGEND);
    let font = frame.font;
    let mut text = String::new(alloc);
    write!(
        text,
        r##"<svg xmlns="http://www.w3.org/2000/svg" width="{WIDTH}" height="{height}" viewBox="0 0 {WIDTH} {height}" font-family="monospace" font-size="{font}">
<rect width="{WIDTH}" height="{height}" fill="#ffffff"/>
"##
    )?;
    Ok(text)
}
