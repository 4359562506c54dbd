//! Join indexes, as arrows from their segments to the rows of their projections.
use super::boxes::box_end;
use super::frame::Frame;
use super::rows::Row;
use cs_schema::FileName;
use std::alloc::AllocError;
use std::fmt::Write;

/// A colour for each projection to which arrows lead.
static COLOURS: [&str; 8] = [
    "#1d4ed8", "#b45309", "#047857", "#7c3aed", "#be123c", "#0e7490", "#4d7c0f", "#a21caf",
];

/// The arrows of all join indexes.
pub fn draw_arrows(text: &mut String, frame: &Frame, rows: &[Row<'_>]) -> Result<(), AllocError> {
    for row in rows {
        let projection = row.projection;
        for q in &projection.joins {
            if let Some(target) = rows.get(usize::from(*q)) {
                draw_joins(text, frame, row, target)?;
            }
        }
    }
    Ok(())
}

/// The arrows of a projection's segments to another projection.
fn draw_joins(
    text: &mut String,
    frame: &Frame,
    row: &Row<'_>,
    target: &Row<'_>,
) -> Result<(), AllocError> {
    let projection = row.projection;
    for (s, site) in projection.sites.iter().enumerate() {
        draw_arrow(text, frame, row, target, (s, *site))?;
    }
    Ok(())
}

/// The arrow of a segment to another projection: out of the box, and beside it to the other row.
fn draw_arrow(
    text: &mut String,
    frame: &Frame,
    row: &Row<'_>,
    target: &Row<'_>,
    at: (usize, u8),
) -> Result<(), AllocError> {
    let (s, site) = at;
    let q = u64::from(target.p);
    let from = box_end(frame, site);
    let y = row
        .box_top(s)
        .saturating_add(8)
        .saturating_add(q.saturating_mul(4));
    let x = from.saturating_add(3).saturating_add(q);
    let is_below = target.p > row.p;
    let end = if is_below {
        target.top
    } else {
        target.top.saturating_add(target.height)
    };
    let colour = match COLOURS.get(target.p as usize) {
        Some(colour) => *colour,
        None => "#000000",
    };
    let name = FileName::Jix {
        p: row.p,
        s: u16::try_from(s).unwrap_or(u16::MAX),
        q: target.p,
    };
    write!(
        text,
        r##"<path d="M{from} {y}H{x}V{end}" fill="none" stroke="{colour}" stroke-width="1.5"><title>{name}</title></path>
"##
    )?;
    draw_tip(text, (x, end), is_below, colour)
}

/// The tip of an arrow that ends here, from above or from below.
fn draw_tip(
    text: &mut String,
    at: (u64, u64),
    is_from_above: bool,
    colour: &str,
) -> Result<(), AllocError> {
    let (x, y) = at;
    let (left, right) = (x.saturating_sub(4), x.saturating_add(4));
    let back = if is_from_above {
        y.saturating_sub(7)
    } else {
        y.saturating_add(7)
    };
    write!(
        text,
        r##"<path d="M{x} {y}L{left} {back}H{right}Z" fill="{colour}"/>
"##
    )
}
