//! Manifests and tables that were written, as JSON.
use crate::bad_json::bad_objects;
use cs_reports::object::Object;
use pinepolo_answers::{Dumped, Listed};
use pinepolo_text::{At, ListedText, with_unfinished};
use serde_json::Value;
use std::alloc::{AllocError, Global};

/// The manifest of a store, and the files that have no line in it.
pub fn listed_object(
    alloc: Global,
    object: Object,
    listed: &Listed,
    at: At<'_>,
) -> Result<Value, AllocError> {
    let bad = ListedText { listed, at }.bad_files(alloc)?;
    let object = if bad.is_empty() {
        object
    } else {
        let fault = format!(in alloc; "bad files: {}", bad.len())?;
        object
            .text("kind", "bad files")
            .text("fault", fault.as_str())
    };
    object
        .member("files", line_objects(alloc, listed.text.as_slice()))
        .member("bad", bad_objects(alloc, at, bad.as_slice()))
        .finish()
}

/// The lines of a manifest, each with the name of a file and its digest.
fn line_objects(alloc: Global, text: &[u8]) -> Result<Value, AllocError> {
    let mut list = Vec::new(alloc);
    for line in str::from_utf8(text).unwrap_or("").lines() {
        let Some((digest, path)) = line.split_once("  ") else {
            continue;
        };
        let object = Object::new(alloc).text("path", path).text("sha256", digest);
        list.push(object.finish()?)?;
    }
    Ok(Value::Array(list))
}

/// A table that was written to a file.
pub fn dumped_object(alloc: Global, object: Object, dumped: &Dumped) -> Result<Value, AllocError> {
    let object = object.number("bytes", dumped.bytes as u64);
    with_unfinished(object, dumped.unfinished).finish()
}
