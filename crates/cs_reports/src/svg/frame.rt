//! Where things stand in the picture, in pixels.

/// How wide the picture is.
pub const WIDTH: u64 = 1000;

/// How wide the names of the projections are, left of the sites.
pub const LEFT: u64 = 110;

/// How much of a site's column is to the right of its boxes, for arrows.
pub const GUTTER: u64 = 14;

/// The measures of a picture.
#[derive(Clone, Copy)]
pub struct Frame {
    /// How many sites there are.
    pub sites: u64,
    /// How wide the column of a site is, with its gutter.
    pub step: u64,
    /// How wide a box is.
    pub width: u64,
    /// The size of the letters.
    pub font: u64,
    /// The distance of lines.
    pub line: u64,
    /// How many letters a line in a box has.
    pub letters: u64,
    /// Where the first row begins.
    pub head: u64,
}

impl Frame {
    /// The measures for so many sites.
    pub fn of(sites: u8) -> Frame {
        let sites = u64::from(sites.max(1));
        let font = if sites <= 8 { 12 } else { 10 };
        let step = (WIDTH - LEFT - 10) / sites;
        let width = step.saturating_sub(GUTTER);
        Frame {
            sites,
            step,
            width,
            font,
            line: font + 3,
            letters: (width.saturating_sub(6) * 5 / (font * 3)).max(1),
            head: 40,
        }
    }

    /// Where the column of a site begins.
    pub fn x_of(&self, site: u8) -> u64 {
        let before = u64::from(site).saturating_sub(1);
        LEFT.saturating_add(before.saturating_mul(self.step))
    }
}
