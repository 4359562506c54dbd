//! What a design says, as JSON.
use cs_reports::Design;
use cs_reports::object::{Object, losses, number_or_null, sites};
use cs_schema::FileName;
use serde_json::Value;
use std::alloc::{AllocError, Global};

/// What `design --json` prints.
pub fn design_object(alloc: Global, object: Object, design: &Design) -> Result<Value, AllocError> {
    object
        .member("k", Ok(number_or_null(design.k)))
        .member("lost", sites(alloc, design.lost))
        .truth("safe", design.k.is_some())
        .member("fatal", losses(alloc, design.fatal.as_slice()))
        .member("sites", sites_with_files(alloc, design))
        .finish()
}

/// Each site with the names of its files.
fn sites_with_files(alloc: Global, design: &Design) -> Result<Value, AllocError> {
    let mut list = Vec::new(alloc);
    for (at, files) in design.files.iter().enumerate() {
        list.push(site_object(alloc, at + 1, files.as_slice())?)?;
    }
    Ok(Value::Array(list))
}

/// A site with the names of its files.
fn site_object(alloc: Global, site: usize, files: &[FileName]) -> Result<Value, AllocError> {
    Object::new(alloc)
        .number("site", site as u64)
        .member("files", paths(alloc, files))
        .finish()
}

/// The names of files.
fn paths(alloc: Global, files: &[FileName]) -> Result<Value, AllocError> {
    let mut list = Vec::new(alloc);
    for name in files {
        let path = name.path();
        list.push(Value::try_from_str(alloc, path.as_str())?)?;
    }
    Ok(Value::Array(list))
}
