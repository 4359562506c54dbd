//! What the boxes of segments look like.
ghost use Rattle.std.specs.Prelude.{◌<◌};

use crate::placed::{BadFile, FileProblem};
use cs_schema::Loss;

/// By what the boxes are coloured.
#[derive(Drop)]
pub struct Paint {
    /// Whether by the states of the segments, or else by the sites that are lost.
    pub by_state: bool,
    pub lost: Loss,
    /// The bad files of a store.
    pub bad: Vec<BadFile>,
}

/// What a box looks like.
#[derive(Clone, Copy)]
pub struct Look {
    pub fill: &'static str,
    /// A letter for those who don't see the colour.
    pub mark: &'static str,
    /// Attributes of the text, each behind a blank.
    pub attributes: &'static str,
}

/// A state of a segment: its name in the legend, the colour of its box, and its mark.
#[derive(Clone, Copy)]
pub struct State {
    pub word: &'static str,
    pub fill: &'static str,
    pub mark: &'static str,
}

/// The states, from the best to the worst; a segment has that of its worst file. Who confuses red and green tells these
/// colours apart.
pub const STATES: [State; 4] = [
    State {
        word: "sound",
        fill: "#009e73",
        mark: "",
    },
    State {
        word: "damaged",
        fill: "#d55e00",
        mark: "D",
    },
    State {
        word: "missing",
        fill: "#f0e442",
        mark: "M",
    },
    State {
        word: "unreadable",
        fill: "#56b4e9",
        mark: "U",
    },
];

/// Whether a site is lost.
pub fn is_lost(lost: Loss, site: u8) -> bool {
    (1..=16).contains(&site) && lost.has(site)
}

/// The place in `STATES` of what is wrong with a file.
fn place_of(problem: FileProblem) -> usize
    ensures { result < 4 }
{
    match problem {
        FileProblem::Missing => 2,
        FileProblem::Unreadable => 3,
        _ => 1,
    }
}

/// The place of a segment's state in `STATES`: that of its worst file.
fn worst_of(bad: &[BadFile], p: u16, s: usize) -> usize
    ensures { result < 4 }
{
    let mut worst = 0;
    for file in bad {
        let name = file.name;
        if name.projection() == p && usize::from(name.segment()) == s {
            worst = worst.max(place_of(file.problem));
        }
    }
    worst
}

impl Paint {
    /// The look of a segment's box.
    pub fn look_of(&self, p: u16, s: usize, site: u8) -> Look {
        if self.by_state {
            let State { fill, mark, .. } = STATES[worst_of(self.bad.as_slice(), p, s)];
            return Look {
                fill,
                mark,
                attributes: "",
            };
        }
        let (fill, attributes) = if is_lost(self.lost, site) {
            (
                "#dddddd",
                r##" fill="#555555" text-decoration="line-through""##,
            )
        } else {
            ("#ffffff", "")
        };
        Look {
            fill,
            mark: "",
            attributes,
        }
    }
}
