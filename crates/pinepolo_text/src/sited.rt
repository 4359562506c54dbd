//! Sites that are away, in words.
use crate::at::{At, has};
use cs_schema::Loss;
use std::fmt;

/// A line for each site that is away, with what the system said if it is there.
#[derive(Clone, Copy)]
pub struct AwayLines<'a>(pub At<'a>);

impl fmt::Display for AwayLines<'_> {
    fn fmt<W: fmt::Write>(&self, f: &mut fmt::Formatter<W>) -> fmt::Result {
        for away in self.0.away() {
            let (site, folder) = (away.site, away.folder.as_str());
            write!(f, "site {site}  away  {folder}")?;
            if let Some(call) = self.0.calls.last_below(folder) {
                write!(f, ": could not {call}")?;
            }
            f.write_str("\n")?;
        }
        Ok(())
    }
}

/// The options by which lost sites that are away are restored into new folders, each with a blank behind it.
#[derive(Clone, Copy)]
pub struct ToWords<'a> {
    pub at: At<'a>,
    pub loss: Loss,
}

impl fmt::Display for ToWords<'_> {
    fn fmt<W: fmt::Write>(&self, f: &mut fmt::Formatter<W>) -> fmt::Result {
        for away in self.at.away() {
            let site = away.site;
            if has(self.loss, site) {
                write!(f, "--to {site}=FOLDER ")?;
            }
        }
        Ok(())
    }
}
