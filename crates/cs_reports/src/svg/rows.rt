//! The rows of the picture, one for each projection.
use super::flow::Flow;
use super::frame::Frame;
use cs_schema::{Catalog, Projection};
use std::alloc::{AllocError, Global};

/// How far a box is from the next, and from the end of its row.
pub const MARGIN: u64 = 8;

/// How many letters a line has left of the sites.
const NAME_LETTERS: u64 = 14;

/// A projection's row.
#[derive(Drop)]
pub struct Row<'a> {
    /// The projection, and its number.
    pub projection: &'a Projection,
    pub p: u16,
    /// Its name, in lines.
    pub name: Vec<String>,
    /// Its columns and its sort key, in lines.
    pub lines: Vec<String>,
    /// How high a box is.
    pub box_height: u64,
    /// Where the row begins, and how high it is.
    pub top: u64,
    pub height: u64,
}

impl Row<'_> {
    /// Where the box of a segment begins: below those of the segments before it on its site.
    pub fn box_top(&self, s: usize) -> u64 {
        let projection = self.projection;
        let Some(site) = projection.sites.get(s) else {
            return self.top;
        };
        let mut top = self.top.saturating_add(MARGIN);
        for (before, other) in projection.sites.iter().enumerate() {
            if before < s && other == site {
                top = top.saturating_add(self.box_height).saturating_add(MARGIN);
            }
        }
        top
    }
}

/// How many segments of a projection stand on the site that has most of them.
fn depth_of(projection: &Projection) -> u64 {
    let mut most = 0;
    for site in &projection.sites {
        let mut here = 0u64;
        for other in &projection.sites {
            if other == site {
                here = here.saturating_add(1);
            }
        }
        most = here.max(most);
    }
    most
}

/// Adds columns by their names.
fn add_names(flow: &mut Flow, catalog: &Catalog, columns: &[u8]) -> Result<(), AllocError> {
    for column in columns {
        if let Some(column) = catalog.columns.get(usize::from(*column)) {
            flow.word(column.name.as_str())?;
        }
    }
    Ok(())
}

/// What stands in a box of a projection below its title.
fn lines_of(
    alloc: Global,
    catalog: &Catalog,
    projection: &Projection,
    letters: u64,
) -> Result<Vec<String>, AllocError> {
    let mut flow = Flow::new(alloc, letters);
    add_names(&mut flow, catalog, projection.columns.as_slice())?;
    flow.end_line()?;
    flow.word("by")?;
    add_names(&mut flow, catalog, projection.sort.as_slice())?;
    flow.end_line()?;
    Ok(flow.finish())
}

/// A name, in lines.
fn name_lines(alloc: Global, name: &str) -> Result<Vec<String>, AllocError> {
    let mut flow = Flow::new(alloc, NAME_LETTERS);
    flow.word(name)?;
    flow.end_line()?;
    Ok(flow.finish())
}

/// The row of a projection that begins at `top`.
fn row_of<'a>(
    alloc: Global,
    catalog: &'a Catalog,
    frame: &Frame,
    p: u16,
    top: u64,
) -> Result<Option<Row<'a>>, AllocError> {
    let Some(projection) = catalog.projections.get(usize::from(p)) else {
        return Ok(None);
    };
    let lines = lines_of(alloc, catalog, projection, frame.letters)?;
    let count = (lines.len() as u64).saturating_add(1);
    let box_height = count.saturating_mul(frame.line).saturating_add(8);
    let stacked = depth_of(projection).saturating_mul(box_height.saturating_add(MARGIN));
    Ok(Some(Row {
        projection,
        p,
        name: name_lines(alloc, projection.name.as_str())?,
        lines,
        box_height,
        top,
        height: stacked.saturating_add(MARGIN),
    }))
}

/// The rows of all projections, with room for arrows between them.
pub fn rows_of<'a>(
    alloc: Global,
    catalog: &'a Catalog,
    frame: &Frame,
) -> Result<Vec<Row<'a>>, AllocError> {
    let mut rows = Vec::new(alloc);
    let mut top = frame.head;
    for p in 0..catalog.projection_count() {
        if let Some(row) = row_of(alloc, catalog, frame, p, top)? {
            top = row.top.saturating_add(row.height).saturating_add(20);
            rows.push(row)?;
        }
    }
    Ok(rows)
}
