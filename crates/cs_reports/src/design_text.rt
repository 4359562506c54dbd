//! What a design says, as text.
use crate::columns::ColumnNames;
use crate::design::Design;
use cs_schema::{Catalog, FileName};
use std::fmt;

/// The lines of a design, each ended by a line break.
#[derive(Clone, Copy)]
pub struct DesignText<'a> {
    pub catalog: &'a Catalog,
    pub design: &'a Design,
}

/// The lines of a design that tell how many sites may fail, and the fatal losses.
#[derive(Clone, Copy)]
pub struct DesignHead<'a> {
    pub catalog: &'a Catalog,
    pub design: &'a Design,
}

impl DesignHead<'_> {
    /// How many sites may fail, of those that are not lost.
    fn write_head<W: fmt::Write>(&self, f: &mut fmt::Formatter<W>) -> fmt::Result {
        let (catalog, lost) = (self.catalog, self.design.lost);
        let left = catalog.sites.saturating_sub(lost.count());
        let further = if lost.count() == 0 { "" } else { "further " };
        match self.design.k {
            Some(0) => writeln!(f, "K=0 (no {further}site may fail)"),
            Some(k) => writeln!(f, "K={k} (any {k} of {left} {further}sites may fail)"),
            None if lost.count() == 0 => writeln!(f, "unsafe even if no site fails"),
            None => writeln!(f, "unsafe after the loss of {lost}"),
        }
    }

    /// The fatal losses, if what is lost is safe.
    fn write_fatal<W: fmt::Write>(&self, f: &mut fmt::Formatter<W>) -> fmt::Result {
        if self.design.k.is_none() {
            return Ok(());
        }
        let mut separator = "fatal: ";
        for loss in &self.design.fatal {
            write!(f, "{separator}{loss}")?;
            separator = "  ";
        }
        writeln!(f)
    }
}

impl fmt::Display for DesignHead<'_> {
    fn fmt<W: fmt::Write>(&self, f: &mut fmt::Formatter<W>) -> fmt::Result {
        self.write_head(f)?;
        self.write_fatal(f)
    }
}

impl DesignText<'_> {
    /// What stands on a site.
    fn write_site<W: fmt::Write>(
        &self,
        f: &mut fmt::Formatter<W>,
        site: usize,
        files: &[FileName],
    ) -> fmt::Result {
        write!(f, "site {site}:")?;
        if files.is_empty() {
            write!(f, " nothing")?;
        }
        let mut separator = "";
        for name in files {
            write_file(f, self.catalog, separator, *name)?;
            separator = ";";
        }
        writeln!(f)
    }
}

/// A file's name, and before a segment's what it is.
fn write_file<W: fmt::Write>(
    f: &mut fmt::Formatter<W>,
    catalog: &Catalog,
    separator: &str,
    name: FileName,
) -> fmt::Result {
    if let FileName::Seg { p, s } = name {
        if let Some(projection) = catalog.projections.get(usize::from(p)) {
            let label = projection.name.as_str();
            let columns = ColumnNames {
                catalog,
                columns: projection.columns.as_slice(),
            };
            write!(f, "{separator} {label} segment {s} ({columns}):")?;
        }
    }
    write!(f, " {name}")
}

impl fmt::Display for DesignText<'_> {
    fn fmt<W: fmt::Write>(&self, f: &mut fmt::Formatter<W>) -> fmt::Result {
        let DesignText { catalog, design } = *self;
        let head = DesignHead { catalog, design };
        write!(f, "{head}")?;
        for (at, files) in self.design.files.iter().enumerate() {
            self.write_site(f, at + 1, files.as_slice())?;
        }
        Ok(())
    }
}
