//! What is said of a store as a whole, as text.
use crate::at::{At, has};
use crate::catalog_words::CatalogWords;
use crate::counted::Counted;
use crate::memory::recovery_memory;
use crate::next_step::{NextLine, NextStep};
use crate::sited::AwayLines;
use crate::unfinished::write_unfinished;
use crate::unread::Unread;
use cs_inspection::Badness;
use cs_reports::{DesignHead, site_of};
use cs_schema::{FileName, Loss};
use pinepolo_answers::{FileLine, StoreView, problem_of};
use std::fmt;

/// How many bytes a mebibyte has.
const MEBIBYTE: u64 = 1_048_576;

/// How a file is.
pub fn state_word(line: &FileLine) -> &'static str {
    match line.badness {
        None => "sound",
        Some(badness) => problem_of(badness).word(),
    }
}

/// A number, or a stroke where it isn't known.
#[derive(Clone, Copy)]
struct NumberOrStroke(Option<u64>);

impl fmt::Display for NumberOrStroke {
    fn fmt<W: fmt::Write>(&self, f: &mut fmt::Formatter<W>) -> fmt::Result {
        match self.0 {
            Some(number) => write!(f, "{number:>11}"),
            None => write!(f, "{:>11}", "-"),
        }
    }
}

/// What a file has so many of.
pub fn count_word(name: FileName, count: Option<u64>) -> &'static str {
    let is_one = count == Some(1);
    match name {
        FileName::Seg { .. } if is_one => "row",
        FileName::Seg { .. } => "rows",
        FileName::Del { .. } if is_one => "item",
        FileName::Del { .. } => "items",
        FileName::Jix { .. } if is_one => "entry",
        FileName::Jix { .. } => "entries",
    }
}

/// What is said of a store, as lines.
#[derive(Clone, Copy)]
pub struct StoreText<'a> {
    pub view: &'a StoreView,
    pub at: At<'a>,
}

impl<'a> StoreText<'a> {
    /// What to do next, if work was left unfinished.
    pub fn next(&self) -> Option<NextStep<'a>> {
        let kind = self.view.unfinished?;
        Some(NextStep::Resume(kind, self.at.words()))
    }

    /// The line of a file, if it stands on this site.
    fn write_line<W: fmt::Write>(
        &self,
        f: &mut fmt::Formatter<W>,
        site: u8,
        line: &FileLine,
    ) -> fmt::Result {
        let catalog = &self.view.catalog;
        let name = line.name;
        let p = name.projection();
        if site_of(catalog, p, name.segment()) != Some(site) {
            return Ok(());
        }
        let projection = match catalog.projections.get(usize::from(p)) {
            Some(projection) => projection.name.as_str(),
            None => "",
        };
        let path = name.path();
        let path = path.as_str();
        let word = count_word(name, line.count);
        let (count, bytes) = (NumberOrStroke(line.count), NumberOrStroke(line.bytes));
        let state = state_word(line);
        write!(
            f,
            "{site:>4}  {path:<13} {projection:<12}{count} {word:<7}{bytes} bytes  {state}"
        )?;
        if line.badness == Some(Badness::Unreadable) {
            let why = Unread::of(self.at, Some(site), name);
            write!(f, ": {why}")?;
        }
        f.write_str("\n")
    }

    /// The table of files, by sites. A site that is away has one line.
    fn write_table<W: fmt::Write>(&self, f: &mut fmt::Formatter<W>, away: Loss) -> fmt::Result {
        let catalog = &self.view.catalog;
        writeln!(f, "site  file          projection")?;
        for site in 1..17u8 {
            if site > catalog.sites {
                return Ok(());
            }
            if has(away, site) {
                writeln!(f, "{site:>4}  away")?;
                continue;
            }
            for line in &self.view.lines {
                self.write_line(f, site, line)?;
            }
        }
        Ok(())
    }

    /// How many files there are, and how much memory a recovery takes, in whole mebibytes, at least one.
    fn write_sums<W: fmt::Write>(&self, f: &mut fmt::Formatter<W>) -> fmt::Result {
        let files = Counted {
            count: self.view.lines.len() as u64,
            one: "file",
            several: "files",
        };
        let bad = self.view.bad.len();
        let mebibytes = recovery_memory(&self.view.catalog, self.view.lines.as_slice()) / MEBIBYTE
            + 1;
        writeln!(
            f,
            "{files}, {bad} bad; a recovery takes about {mebibytes} MiB of memory"
        )
    }

    /// What the catalog doesn't name.
    fn write_strays<W: fmt::Write>(&self, f: &mut fmt::Formatter<W>) -> fmt::Result {
        for name in &self.view.strays {
            let name = name.as_str();
            writeln!(f, "not named by the catalog: {name:?}")?;
        }
        Ok(())
    }
}

impl fmt::Display for StoreText<'_> {
    fn fmt<W: fmt::Write>(&self, f: &mut fmt::Formatter<W>) -> fmt::Result {
        let view = self.view;
        let catalog = CatalogWords(&view.catalog);
        let head = DesignHead {
            catalog: &view.catalog,
            design: &view.design,
        };
        let away = AwayLines(self.at);
        write!(f, "{away}{catalog}{head}")?;
        self.write_table(f, self.at.away_sites())?;
        self.write_sums(f)?;
        self.write_strays(f)?;
        write_unfinished(f, view.unfinished)?;
        let next = NextLine(self.next());
        write!(f, "{next}")
    }
}
