//! That work on a store was left unfinished.
use crate::next_step::{NextLine, NextStep};
use cs_reports::StoreWords;
use cs_reports::object::Object;
use pinepolo_places::{RESTORING, WorkKind};
use serde_json::Value;
use std::fmt;

/// That work on a store was left unfinished, and what to do next, as lines.
#[derive(Clone, Copy)]
pub struct Unfinished<'a> {
    pub kind: WorkKind,
    /// The store as words of a command line.
    pub store: StoreWords<'a>,
}

/// Writes that work on a store was left unfinished, if any was.
pub fn write_unfinished<W: fmt::Write>(
    f: &mut fmt::Formatter<W>,
    unfinished: Option<WorkKind>,
) -> fmt::Result {
    match unfinished {
        Some(kind) => writeln!(f, "unfinished {kind}: {RESTORING} is there"),
        None => Ok(()),
    }
}

impl fmt::Display for Unfinished<'_> {
    fn fmt<W: fmt::Write>(&self, f: &mut fmt::Formatter<W>) -> fmt::Result {
        write_unfinished(f, Some(self.kind))?;
        let next = NextLine(Some(NextStep::Resume(self.kind, self.store)));
        write!(f, "{next}")
    }
}

/// The object with the kind of work that was left unfinished, or null.
pub fn with_unfinished(object: Object, unfinished: Option<WorkKind>) -> Object {
    match unfinished {
        Some(WorkKind::Restore) => object.text("unfinished", "restore"),
        Some(WorkKind::Undo) => object.text("unfinished", "undo"),
        None => object.member("unfinished", Ok(Value::Null)),
    }
}
