//! What a look at a catalog answers, in words.
use cs_reports::DesignText;
use pinepolo_answers::Designed;
use std::fmt;

/// What a catalog says of losses, as lines.
#[derive(Clone, Copy)]
pub struct DesignedText<'a>(pub &'a Designed);

impl fmt::Display for DesignedText<'_> {
    fn fmt<W: fmt::Write>(&self, f: &mut fmt::Formatter<W>) -> fmt::Result {
        let text = DesignText {
            catalog: &self.0.catalog,
            design: &self.0.design,
        };
        write!(f, "{text}")
    }
}
