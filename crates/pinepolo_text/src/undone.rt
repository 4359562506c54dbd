//! What an undo answers, in words.
use crate::grouped::{FileCount, Grouped};
use crate::restored::{write_kept, write_outdated};
use cs_reports::site_of;
use cs_schema::FileName;
use pinepolo_answers::Undone;
use std::fmt;

/// What became of a name, in a word: its file is back, or what stood there is gone.
pub fn undone_word(back: Option<&[u8]>) -> &'static str {
    match back {
        Some(_) => "back",
        None => "gone",
    }
}

/// A store that has again what stood there before, as lines.
#[derive(Clone, Copy)]
pub struct UndoneText<'a>(pub &'a Undone);

impl UndoneText<'_> {
    /// A line for a name.
    fn write_name<W: fmt::Write>(&self, f: &mut fmt::Formatter<W>, name: FileName) -> fmt::Result {
        let site = site_of(&self.0.catalog, name.projection(), name.segment()).unwrap_or(0);
        let back = self.0.undoable.back.get(name);
        let word = undone_word(back);
        match self.0.size(name) {
            Some(size) => {
                let bytes = Grouped(size);
                writeln!(f, "site {site}  {word}  {name}  {bytes} bytes")
            }
            None => writeln!(f, "site {site}  {word}  {name}"),
        }
    }
}

impl fmt::Display for UndoneText<'_> {
    fn fmt<W: fmt::Write>(&self, f: &mut fmt::Formatter<W>) -> fmt::Result {
        for name in &self.0.undoable.names {
            self.write_name(f, *name)?;
        }
        let changed = self.0.undoable.names.len() as u64;
        let files = FileCount(changed);
        write!(f, "ok {files}")?;
        write_kept(f, self.0.kept)?;
        write_outdated(f, changed)
    }
}
