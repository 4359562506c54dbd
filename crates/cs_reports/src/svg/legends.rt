//! What outlines, strokes and colours mean.
use super::looks::{STATES, State};
use crate::design::Design;
use std::alloc::AllocError;
use std::fmt::Write;

/// The legend below the last row.
pub fn draw_legend(
    text: &mut String,
    design: &Design,
    by_state: bool,
    bottom: u64,
) -> Result<(), AllocError> {
    draw_outlined(text, design, bottom.saturating_add(24))?;
    let below = bottom.saturating_add(44);
    if by_state {
        draw_struck(text, design, "a file there is bad", below)?;
        draw_states(text, below)
    } else {
        draw_struck(text, design, "lost already", below)
    }
}

/// How many sites may fail, and what the outline is.
fn draw_outlined(text: &mut String, design: &Design, y: u64) -> Result<(), AllocError> {
    match (design.k, design.fatal.first()) {
        (Some(k), Some(fatal)) => write!(
            text,
            r##"<text x="10" y="{y}" font-size="13">K={k}. Outlined: the first set of sites that must not be lost, {fatal}.</text>
"##
        ),
        _ => write!(
            text,
            r##"<text x="10" y="{y}" font-size="13">Unsafe already.</text>
"##
        ),
    }
}

/// Why sites are struck through, if some are.
fn draw_struck(text: &mut String, design: &Design, why: &str, y: u64) -> Result<(), AllocError> {
    let lost = design.lost;
    if lost.count() == 0 {
        return Ok(());
    }
    write!(
        text,
        r##"<text x="10" y="{y}" font-size="13">Struck through: {why}, {lost}.</text>
"##
    )
}

/// The colour, the mark and the name of each state, from the right half on.
fn draw_states(text: &mut String, y: u64) -> Result<(), AllocError> {
    let top = y.saturating_sub(12);
    let mut x = 470u64;
    for state in &STATES {
        let State { word, fill, mark } = *state;
        let middle = x.saturating_add(12);
        let after = x.saturating_add(30);
        write!(
            text,
            r##"<rect x="{x}" y="{top}" width="24" height="16" rx="3" fill="{fill}" stroke="#334155"/>
<text x="{middle}" y="{y}" font-size="13" font-weight="bold" text-anchor="middle">{mark}</text>
<text x="{after}" y="{y}" font-size="13">{word}</text>
"##
        )?;
        x = x.saturating_add(130);
    }
    Ok(())
}
