//! What a restore answers that was not refused, in words.
use crate::grouped::{FileCount, Grouped};
use cs_reports::site_of;
use cs_restore::What;
use cs_schema::Loss;
use pinepolo_answers::Restored;
use pinepolo_places::JOURNAL;
use std::fmt;

/// What becomes of a file, in a word.
pub fn what_word(what: What) -> &'static str {
    match what {
        What::New => "new",
        What::Replaces => "replaces",
        What::Same => "same",
    }
}

/// Whether a site was lost.
fn is_lost(lost: Loss, site: u8) -> bool {
    (1..=16).contains(&site) && lost.has(site)
}

/// A store that was restored, or what a restore would do, as lines.
#[derive(Clone, Copy)]
pub struct RestoredText<'a>(pub &'a Restored);

impl RestoredText<'_> {
    /// A line for each rebuilt file.
    fn write_steps<W: fmt::Write>(&self, f: &mut fmt::Formatter<W>) -> fmt::Result {
        for step in &self.0.steps {
            let name = step.name;
            let site = site_of(&self.0.catalog, name.projection(), name.segment()).unwrap_or(0);
            let (what, bytes) = (what_word(step.what), Grouped(step.bytes));
            write!(f, "site {site}  {what}  {name}  {bytes} bytes")?;
            if is_lost(self.0.lost, site) {
                writeln!(f)?;
            } else {
                writeln!(f, ", this site was not lost")?;
            }
        }
        Ok(())
    }

    /// How many files are new or replaced, and how many bytes these have.
    fn changed(&self) -> (u64, u64) {
        let (mut files, mut bytes) = (0u64, 0u64);
        for step in &self.0.steps {
            if step.what != What::Same {
                files = files.saturating_add(1);
                bytes = bytes.saturating_add(step.bytes);
            }
        }
        (files, bytes)
    }
}

/// Where the old files are kept, which ends a line.
pub fn write_kept<W: fmt::Write>(f: &mut fmt::Formatter<W>, kept: Option<u32>) -> fmt::Result {
    match kept {
        Some(kept) => writeln!(f, ", old files in replaced/{kept}/"),
        None => writeln!(f),
    }
}

/// That a manifest of the store no longer names the digests of its files, where any were changed.
pub fn write_outdated<W: fmt::Write>(f: &mut fmt::Formatter<W>, changed: u64) -> fmt::Result {
    match changed {
        0 => Ok(()),
        _ => writeln!(
            f,
            "make a new manifest of this store: {JOURNAL} has the new digests"
        ),
    }
}

impl fmt::Display for RestoredText<'_> {
    fn fmt<W: fmt::Write>(&self, f: &mut fmt::Formatter<W>) -> fmt::Result {
        self.write_steps(f)?;
        let Some(rows) = self.0.rows else {
            return Ok(());
        };
        let (k, (changed, bytes)) = (self.0.k, self.changed());
        let kilobytes = Grouped(bytes.div_ceil(1_000));
        let files = FileCount(changed);
        write!(f, "ok rows={rows} k={k}, {files}, {kilobytes} KB")?;
        write_kept(f, self.0.kept)?;
        write_outdated(f, changed)
    }
}
