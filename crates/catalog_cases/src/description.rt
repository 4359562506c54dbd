//! What a catalog says, as text.
use anyhow::Result;
use cs_schema::{Catalog, Cells, Loss, Projection, Texts};
use std::alloc::Global;
use std::fmt::Write;

/// A line for each thing that the catalog says, and the files that a loss of site 2 leaves.
pub fn describe(alloc: Global, catalog: &Catalog) -> Result<String> {
    let mut text = String::new(alloc);
    describe_table(&mut text, catalog)?;
    describe_columns(&mut text, catalog)?;
    for projection in &catalog.projections {
        describe_projection(&mut text, projection)?;
    }
    describe_files(alloc, &mut text, catalog)?;
    Ok(text)
}

fn describe_table(text: &mut String, catalog: &Catalog) -> Result<()> {
    let (table, key) = (catalog.table.as_str(), catalog.key);
    let (sites, safety) = (catalog.sites, catalog.safety);
    writeln!(
        text,
        "  table {table}, key {key}, sites {sites}, safety {safety:?}"
    )?;
    Ok(())
}

fn describe_columns(text: &mut String, catalog: &Catalog) -> Result<()> {
    for column in &catalog.columns {
        let (name, kind) = (column.name.as_str(), column.kind);
        writeln!(text, "  column {name}: {kind:?}")?;
    }
    Ok(())
}

fn describe_files(alloc: Global, text: &mut String, catalog: &Catalog) -> Result<()> {
    let names = catalog.surviving(alloc, Loss::none().with(2))?;
    text.push_str("  without site 2:")?;
    for name in &names {
        write!(text, " {name}")?;
    }
    text.push_str("\n")?;
    Ok(())
}

/// The lines of a projection.
fn describe_projection(text: &mut String, projection: &Projection) -> Result<()> {
    let name = projection.name.as_str();
    writeln!(text, "  projection {name}")?;
    describe_lists(text, projection)?;
    describe_cuts(text, &projection.cuts)?;
    let (sites, joins) = (projection.sites.as_slice(), projection.joins.as_slice());
    writeln!(text, "    sites {sites:?}, joins {joins:?}")?;
    Ok(())
}

fn describe_lists(text: &mut String, projection: &Projection) -> Result<()> {
    let (columns, codes) = (projection.columns.as_slice(), projection.codes.as_slice());
    let sort = projection.sort.as_slice();
    writeln!(
        text,
        "    columns {columns:?}, codes {codes:?}, sort {sort:?}"
    )?;
    Ok(())
}

fn describe_cuts(text: &mut String, cuts: &Cells) -> Result<()> {
    match cuts {
        Cells::Ints(cuts) => {
            let cuts = cuts.as_slice();
            writeln!(text, "    int cuts {cuts:?}")?;
            Ok(())
        }
        Cells::Texts(cuts) => describe_texts(text, cuts),
    }
}

fn describe_texts(text: &mut String, cuts: &Texts) -> Result<()> {
    text.push_str("    text cuts")?;
    for place in 0..cuts.len() {
        let cut = cuts.get(place);
        write!(text, " {cut:?}")?;
    }
    text.push_str("\n")?;
    Ok(())
}
