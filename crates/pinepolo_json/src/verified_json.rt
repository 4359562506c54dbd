//! How a store differs from a manifest, as JSON.
use crate::bad_json::bad_object;
use cs_manifest::{CATALOG, Difference};
use cs_reports::BadFile;
use cs_reports::object::Object;
use pinepolo_answers::{Verified, difference_problem};
use pinepolo_text::At;
use serde_json::Value;
use std::alloc::{AllocError, Global};

/// How a store differs from a manifest.
pub fn verified_object(
    alloc: Global,
    object: Object,
    verified: &Verified,
    at: At<'_>,
) -> Result<Value, AllocError> {
    with_differences(alloc, object, verified)?
        .number("compared", verified.files as u64)
        .member("files", difference_objects(alloc, verified, at))
        .finish()
}

/// The object with how many files differ, if any do.
fn with_differences(
    alloc: Global,
    object: Object,
    verified: &Verified,
) -> Result<Object, AllocError> {
    let comparison = &verified.comparison;
    let catalogs = usize::from(comparison.catalog.is_some());
    let count = comparison.files.len().saturating_add(catalogs);
    if count == 0 {
        return Ok(object);
    }
    let fault = format!(in alloc; "files that differ from the manifest: {count}")?;
    Ok(object.text("kind", "differs").text("fault", fault.as_str()))
}

/// The files that differ.
fn difference_objects(alloc: Global, verified: &Verified, at: At<'_>) -> Result<Value, AllocError> {
    let mut list = Vec::new(alloc);
    if let Some(how) = verified.comparison.catalog {
        list.push(catalog_object(alloc, how)?)?;
    }
    for (name, how) in &verified.comparison.files {
        let file = BadFile::new(&verified.catalog, *name, difference_problem(*how));
        list.push(bad_object(alloc, at, &file)?)?;
    }
    Ok(Value::Array(list))
}

/// The catalog, which differs.
fn catalog_object(alloc: Global, how: Difference) -> Result<Value, AllocError> {
    Object::new(alloc)
        .text("path", CATALOG)
        .member("site", Ok(Value::Null))
        .text("state", difference_problem(how).word())
        .member("fault", Ok(Value::Null))
        .finish()
}
