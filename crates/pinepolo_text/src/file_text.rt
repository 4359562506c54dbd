//! What is said of one file, as text.
ghost use Rattle.std.specs.Prelude.{◌≤◌, length};

use crate::at::At;
use crate::catalog_words::{code_at, kind_word};
use crate::counted::Counted;
use crate::next_step::{NextLine, NextStep};
use crate::row_words::{BaseRow, Hex, ItemWords};
use crate::samples::{first_end, has_gap, last_begin};
use cs_delta::{Delta, Layer};
use cs_file_decode::{Content, Digests, Nonsense};
use cs_jix::JoinIndex;
use cs_reports::{ColumnNames, site_of};
use cs_schema::{Catalog, FileName};
use cs_segment::Segment;
use pinepolo_answers::FileView;
use std::fmt;

/// Writes how many rows a segment has, and the first and the last of them with their keys.
fn write_segment<W: fmt::Write>(f: &mut fmt::Formatter<W>, segment: &Segment) -> fmt::Result {
    let rows = Counted {
        count: u64::from(segment.rows),
        one: "row",
        several: "rows",
    };
    writeln!(f, "{rows}")?;
    let count = segment.rows as usize;
    write_rows(f, segment, 0, first_end(count))?;
    write_gap(f, count)?;
    write_rows(f, segment, last_begin(count), count)
}

/// Writes rows of a segment with their keys.
fn write_rows<W: fmt::Write>(
    f: &mut fmt::Formatter<W>,
    segment: &Segment,
    from: usize,
    to: usize,
) -> fmt::Result {
    for row in from..to {
        let key = row.saturating_add(1);
        let row = BaseRow { segment, row };
        writeln!(f, "key {key}: {row}")?;
    }
    Ok(())
}

/// Writes that some of so many are left out.
fn write_gap<W: fmt::Write>(f: &mut fmt::Formatter<W>, count: usize) -> fmt::Result {
    if has_gap(count) {
        writeln!(f, "..")
    } else {
        Ok(())
    }
}

/// Writes the numbers of a delta's head, and its layers.
fn write_delta<W: fmt::Write>(f: &mut fmt::Formatter<W>, delta: &Delta) -> fmt::Result {
    let (version, top) = (delta.version, delta.top);
    let rows = Counted {
        count: u64::from(delta.rows),
        one: "row",
        several: "rows",
    };
    let layers = Counted {
        count: delta.layers.len() as u64,
        one: "layer",
        several: "layers",
    };
    writeln!(
        f,
        "version {version}, for a base of {rows}; highest key {top}; {layers}"
    )?;
    for (number, layer) in delta.layers.iter().enumerate() {
        write_layer(f, number, layer)?;
    }
    Ok(())
}

/// Writes how many items a layer has, and the first and the last of them.
fn write_layer<W: fmt::Write>(
    f: &mut fmt::Formatter<W>,
    number: usize,
    layer: &Layer,
) -> fmt::Result {
    let count = layer.len();
    let counted = Counted {
        count: count as u64,
        one: "item",
        several: "items",
    };
    writeln!(f, "layer {number}: {counted}")?;
    write_items(f, layer, 0, first_end(count))?;
    write_gap(f, count)?;
    write_items(f, layer, last_begin(count), count)
}

/// Writes items of a layer, each in a line.
fn write_items<W: fmt::Write>(
    f: &mut fmt::Formatter<W>,
    layer: &Layer,
    from: usize,
    to: usize,
) -> fmt::Result
    requires { to ≤ length layer.now }
{
    for i in from..to {
        let item = layer.item(i);
        let item = ItemWords(&item);
        writeln!(f, "{item}")?;
    }
    Ok(())
}

/// Writes how many entries a join index has, and the first and the last of them.
fn write_join<W: fmt::Write>(f: &mut fmt::Formatter<W>, join: &JoinIndex) -> fmt::Result {
    let top = join.top();
    let entries = Counted {
        count: u64::from(top),
        one: "entry",
        several: "entries",
    };
    writeln!(f, "{entries}")?;
    let count = top as usize;
    write_entries(f, join, 0, first_end(count))?;
    write_gap(f, count)?;
    write_entries(f, join, last_begin(count), count)
}

/// Writes where entries of a join index lead, which stand at the keys behind these numbers.
fn write_entries<W: fmt::Write>(
    f: &mut fmt::Formatter<W>,
    join: &JoinIndex,
    from: usize,
    to: usize,
) -> fmt::Result {
    for at in from..to {
        let key = at.saturating_add(1);
        match join.entry(u32::try_from(key).unwrap_or(0)) {
            Some((segment, target)) => writeln!(f, "key {key}: segment {segment}, key {target}")?,
            None => writeln!(f, "key {key}: nothing")?,
        }
    }
    Ok(())
}

/// Writes the digest that a file has, and the one that it should have.
fn write_digests<W: fmt::Write>(f: &mut fmt::Formatter<W>, digests: &Digests) -> fmt::Result {
    let (found, wanted) = (Hex(&digests.found), Hex(&digests.wanted));
    writeln!(f, "digest found:  {found}")?;
    writeln!(f, "digest wanted: {wanted}")
}

/// Writes the name of a projection behind some words, if the catalog has it.
fn write_projection<W: fmt::Write>(
    f: &mut fmt::Formatter<W>,
    catalog: &Catalog,
    words: &str,
    p: u16,
) -> fmt::Result {
    match catalog.projections.get(usize::from(p)) {
        Some(projection) => {
            let name = projection.name.as_str();
            write!(f, " {words} {name}")
        }
        None => Ok(()),
    }
}

/// Writes the columns of a projection, each with its kind and its code.
fn write_columns<W: fmt::Write>(
    f: &mut fmt::Formatter<W>,
    catalog: &Catalog,
    p: u16,
) -> fmt::Result {
    let Some(projection) = catalog.projections.get(usize::from(p)) else {
        return Ok(());
    };
    f.write_str("columns:")?;
    for (at, number) in projection.columns.iter().enumerate() {
        let separator = if at == 0 { "" } else { "," };
        let columns = &[*number];
        let name = ColumnNames { catalog, columns };
        let code = code_at(projection, at);
        let kind = match catalog.columns.get(usize::from(*number)) {
            Some(column) => kind_word(column.kind),
            None => "",
        };
        write!(f, "{separator} {name} {kind} {code}")?;
    }
    writeln!(f)
}

/// What is said of a file of a store, as lines.
#[derive(Clone, Copy)]
pub struct FileText<'a> {
    pub view: &'a FileView,
    pub at: At<'a>,
}

impl<'a> FileText<'a> {
    /// What to do next, if the file is damaged.
    pub fn next(&self) -> Option<NextStep<'a>> {
        match &self.view.report.content {
            Content::Nonsense(_) => Some(NextStep::Ask("diagnose", self.at.words())),
            _ => None,
        }
    }

    /// What kind of file it is, of which segment, and how long.
    fn write_head<W: fmt::Write>(&self, f: &mut fmt::Formatter<W>) -> fmt::Result {
        let name = self.view.name;
        let catalog = &self.view.catalog;
        let site = site_of(catalog, name.projection(), name.segment()).unwrap_or(0);
        let kind = match name {
            FileName::Seg { .. } => "segment",
            FileName::Del { .. } => "the delta of segment",
            FileName::Jix { .. } => "the join index of segment",
        };
        let s = name.segment();
        write!(f, "{name} (site {site}): {kind} {s}")?;
        write_projection(f, catalog, "of projection", name.projection())?;
        if let FileName::Jix { q, .. } = name {
            write_projection(f, catalog, "into projection", q)?;
        }
        let bytes = Counted {
            count: self.view.report.length as u64,
            one: "byte",
            several: "bytes",
        };
        writeln!(f, ", {bytes}")
    }

    /// Where the first invalid byte is, and what to do next.
    fn write_nonsense<W: fmt::Write>(
        &self,
        f: &mut fmt::Formatter<W>,
        nonsense: &Nonsense,
    ) -> fmt::Result {
        let length = self.view.report.length;
        let (at, wanted) = (nonsense.at, nonsense.wanted);
        writeln!(
            f,
            "damaged: invalid at byte {at} of {length}; expected: {wanted}"
        )?;
        let next = NextLine(self.next());
        write!(f, "{next}")
    }
}

impl fmt::Display for FileText<'_> {
    fn fmt<W: fmt::Write>(&self, f: &mut fmt::Formatter<W>) -> fmt::Result {
        let view = self.view;
        self.write_head(f)?;
        if let Some(digests) = &view.report.digests {
            write_digests(f, digests)?;
        }
        match &view.report.content {
            Content::Segment(segment) => {
                write_columns(f, &view.catalog, view.name.projection())?;
                write_segment(f, segment)
            }
            Content::Delta(delta) => write_delta(f, delta),
            Content::Join(join) => write_join(f, join),
            Content::Nonsense(nonsense) => self.write_nonsense(f, nonsense),
        }
    }
}
