//! The worked catalogs, by their names.
use anyhow::{Result, anyhow};
use cs_schema::samples::{CITIES, SPLIT_COLUMNS, THREE_PROJECTIONS, TWO_ORDERS};
use std::alloc::Global;

/// Two projections of eight segments each, on sixteen sites.
const SIXTEEN: &str = r#"version = 1
table = "t"
key = "id"
sites = 16
[[column]]
name = "id"
kind = "int"
[[projection]]
name = "a"
columns = ["id"]
codes = [4]
sort = ["id"]
cuts = [1, 2, 3, 4, 5, 6, 7]
sites = [1, 2, 3, 4, 5, 6, 7, 8]
joins = []
[[projection]]
name = "b"
columns = ["id"]
codes = [4]
sort = ["id"]
cuts = [1, 2, 3, 4, 5, 6, 7]
sites = [9, 10, 11, 12, 13, 14, 15, 16]
joins = []
"#;

/// The text of a catalog by its name. Behind `rows_` it has the same projections, and is safe by rows.
pub fn catalog_text(alloc: Global, name: &str) -> Result<String> {
    match name.strip_prefix("rows_") {
        Some(name) => by_rows(alloc, sample(name)?),
        None => Ok(String::from_str(alloc, sample(name)?)?),
    }
}

/// The catalog, safe by rows.
fn by_rows(alloc: Global, text: &str) -> Result<String> {
    let rest = text
        .strip_prefix("version = 1\n")
        .ok_or(anyhow!("a catalog of version 1"))?;
    Ok(format!(in alloc; "version = 2\nsafety = \"rows\"\n{rest}")?)
}

/// A catalog by its name.
fn sample(name: &str) -> Result<&'static str> {
    match name {
        "two_orders" => Ok(TWO_ORDERS),
        "cities" => Ok(CITIES),
        "three_projections" => Ok(THREE_PROJECTIONS),
        "split_columns" => Ok(SPLIT_COLUMNS),
        "sixteen" => Ok(SIXTEEN),
        _ => Err(anyhow!("no such catalog")),
    }
}
