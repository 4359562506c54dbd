//! Rows with their boxes.
use super::escaped::Escaped;
use super::frame::{Frame, LEFT, WIDTH};
use super::looks::{Look, Paint};
use super::rows::Row;
use std::alloc::AllocError;
use std::fmt::Write;

/// Where a text begins, and what it looks like.
#[derive(Clone, Copy)]
struct Style {
    x: u64,
    y: u64,
    /// How far the next line is.
    step: u64,
    /// Attributes, each behind a blank.
    attributes: &'static str,
}

/// Writes lines of text, one below the other.
fn draw_lines(text: &mut String, style: Style, lines: &[String]) -> Result<(), AllocError> {
    let (x, attributes) = (style.x, style.attributes);
    let mut y = style.y;
    for line in lines {
        let line = Escaped(line.as_str());
        write!(
            text,
            r##"<text x="{x}" y="{y}"{attributes}>{line}</text>
"##
        )?;
        y = y.saturating_add(style.step);
    }
    Ok(())
}

/// The row of a projection with all its boxes.
pub fn draw_row(
    text: &mut String,
    frame: &Frame,
    paint: &Paint,
    row: &Row<'_>,
) -> Result<(), AllocError> {
    draw_band(text, frame, row)?;
    let projection = row.projection;
    for (s, site) in projection.sites.iter().enumerate() {
        draw_box(text, frame, row, (s, *site), paint.look_of(row.p, s, *site))?;
    }
    Ok(())
}

/// What lies behind the boxes of a row, and its name.
fn draw_band(text: &mut String, frame: &Frame, row: &Row<'_>) -> Result<(), AllocError> {
    let (top, height) = (row.top, row.height);
    write!(
        text,
        r##"<rect x="0" y="{top}" width="{WIDTH}" height="{height}" fill="#eef2f7"/>
"##
    )?;
    let style = Style {
        x: 8,
        y: top.saturating_add(22),
        step: frame.line,
        attributes: r##" font-size="12" font-weight="bold""##,
    };
    draw_lines(text, style, row.name.as_slice())
}

/// The box of a segment on its site.
fn draw_box(
    text: &mut String,
    frame: &Frame,
    row: &Row<'_>,
    at: (usize, u8),
    look: Look,
) -> Result<(), AllocError> {
    let (s, site) = at;
    let (x, y) = (frame.x_of(site), row.box_top(s));
    let (width, height) = (frame.width, row.box_height);
    let Look {
        fill,
        mark,
        attributes,
    } = look;
    write!(
        text,
        r##"<rect x="{x}" y="{y}" width="{width}" height="{height}" rx="3" fill="{fill}" stroke="#334155"/>
"##
    )?;
    draw_title(text, frame, (x, y), s, attributes)?;
    draw_mark(text, frame, (x, y), mark)?;
    let style = Style {
        x: x.saturating_add(4),
        y: y.saturating_add(frame.line.saturating_mul(2)),
        step: frame.line,
        attributes,
    };
    draw_lines(text, style, row.lines.as_slice())
}

/// The title of a box: its segment.
fn draw_title(
    text: &mut String,
    frame: &Frame,
    at: (u64, u64),
    s: usize,
    attributes: &str,
) -> Result<(), AllocError> {
    let x = at.0.saturating_add(4);
    let y = at.1.saturating_add(frame.line);
    let word = if frame.letters > 9 { "segment" } else { "s" };
    let blank = if frame.letters > 9 { " " } else { "" };
    write!(
        text,
        r##"<text x="{x}" y="{y}" font-weight="bold"{attributes}>{word}{blank}{s}</text>
"##
    )
}

/// The mark of a box at the end of its first line, if it has one.
fn draw_mark(
    text: &mut String,
    frame: &Frame,
    at: (u64, u64),
    mark: &str,
) -> Result<(), AllocError> {
    if mark.is_empty() {
        return Ok(());
    }
    let x = at.0.saturating_add(frame.width).saturating_sub(4);
    let y = at.1.saturating_add(frame.line);
    write!(
        text,
        r##"<text x="{x}" y="{y}" font-weight="bold" text-anchor="end">{mark}</text>
"##
    )
}

/// Where the boxes of a site end, and its arrows begin.
pub fn box_end(frame: &Frame, site: u8) -> u64 {
    frame.x_of(site).max(LEFT).saturating_add(frame.width)
}
