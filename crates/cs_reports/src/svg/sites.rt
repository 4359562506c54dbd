//! The columns of the sites.
use super::frame::Frame;
use super::looks::is_lost;
use crate::design::Design;
use cs_schema::Loss;
use std::alloc::AllocError;
use std::fmt::Write;

/// The first fatal set, if there is one of at least one site.
fn first_fatal(design: &Design) -> Loss {
    match design.fatal.first() {
        Some(loss) => *loss,
        None => Loss::none(),
    }
}

/// The names of all sites, with outlines and strokes down to `bottom`.
pub fn draw_sites(
    text: &mut String,
    frame: &Frame,
    design: &Design,
    bottom: u64,
) -> Result<(), AllocError> {
    let fatal = first_fatal(design);
    for site in 1..17u8 {
        if u64::from(site) <= frame.sites {
            draw_name(text, frame, site)?;
            if is_lost(fatal, site) {
                draw_outline(text, frame, site, bottom)?;
            }
            if is_lost(design.lost, site) {
                draw_stroke(text, frame, site)?;
            }
        }
    }
    Ok(())
}

/// The name of a site.
fn draw_name(text: &mut String, frame: &Frame, site: u8) -> Result<(), AllocError> {
    let x = frame.x_of(site).saturating_add(4);
    let word = if frame.letters > 6 { "site " } else { "" };
    write!(
        text,
        r##"<text x="{x}" y="26" font-size="14" font-weight="bold">{word}{site}</text>
"##
    )
}

/// An outline round the column of a site.
fn draw_outline(text: &mut String, frame: &Frame, site: u8, bottom: u64) -> Result<(), AllocError> {
    let x = frame.x_of(site).saturating_sub(4);
    let width = frame.step.saturating_sub(6);
    let height = bottom;
    write!(
        text,
        r##"<rect x="{x}" y="6" width="{width}" height="{height}" rx="6" fill="none" stroke="#c81e1e" stroke-width="3" stroke-dasharray="8 4"/>
"##
    )
}

/// A stroke through the name of a site.
fn draw_stroke(text: &mut String, frame: &Frame, site: u8) -> Result<(), AllocError> {
    let x = frame.x_of(site);
    let end = x.saturating_add(frame.width.min(60));
    write!(
        text,
        r##"<line x1="{x}" y1="21" x2="{end}" y2="21" stroke="#000000" stroke-width="3"/>
"##
    )
}
