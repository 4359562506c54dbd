//! Catalogs, and edited texts of those in `cs_schema::samples`.
use std::alloc::{AllocError, Global};

/// A text, and what replaces its first occurrence.
pub type Edit<'a> = (&'a str, &'a str);

/// No edit.
pub const AS_IT_IS: &[Edit] = &[];

/// The edit that makes a catalog safe by rows.
pub const BY_ROWS: &[Edit] = &[SAFE_BY_ROWS];

/// Makes a catalog safe by rows.
pub const SAFE_BY_ROWS: Edit = ("version = 1\n", "version = 2\nsafety = \"rows\"\n");

/// One projection of one column of ints, plain.
pub const ONE_COLUMN: &str = r#"version = 1
table = "t"
key = "v"
sites = 1
column = [{name = "v", kind = "int"}]
[[projection]]
name = "a"
columns = ["v"]
codes = [4]
sort = ["v"]
cuts = []
sites = [1]
joins = []
"#;

/// One projection whose columns have each of the four encodings.
pub const FOUR_CODES: &str = r#"version = 1
table = "t"
key = "a"
sites = 1
column = [
  {name = "a", kind = "int"}, {name = "b", kind = "int"},
  {name = "c", kind = "text"}, {name = "d", kind = "text"},
]
[[projection]]
name = "all"
columns = ["a", "b", "c", "d"]
codes = [3, 1, 2, 4]
sort = ["a"]
cuts = []
sites = [1]
joins = []
"#;

/// The text with these edits, one after the other. If one of them finds nothing, the text is empty, which is not a
/// catalog.
pub fn edited(alloc: Global, text: &str, edits: &[Edit]) -> Result<String, AllocError> {
    let mut whole = String::from_str(alloc, text)?;
    for (old, new) in edits {
        whole = exchanged(alloc, whole.as_str(), old, new)?;
    }
    Ok(whole)
}

fn exchanged(alloc: Global, text: &str, old: &str, new: &str) -> Result<String, AllocError> {
    let mut out = String::new(alloc);
    if let Some((before, after)) = text.split_once(old) {
        for part in [before, new, after] {
            out.push_str(part)?;
        }
    }
    Ok(out)
}
