//! What is said of a store as a whole, as JSON.
use crate::at::At;
use crate::memory::recovery_memory;
use crate::store_text::state_word;
use crate::unfinished::with_unfinished;
use crate::unread::Unread;
use cs_inspection::Badness;
use cs_reports::object::{Object, count_or_null, losses, number_or_null};
use cs_reports::{file_object, site_of};
use cs_schema::{Catalog, FileName};
use pinepolo_answers::{FileLine, StoreView};
use serde_json::Value;
use std::alloc::{AllocError, Global};

/// The object with what `show --json` prints of a store.
pub fn store_object(
    alloc: Global,
    object: Object,
    view: &StoreView,
    at: At<'_>,
) -> Result<Value, AllocError> {
    let catalog = &view.catalog;
    let memory = recovery_memory(catalog, view.lines.as_slice());
    let object = object
        .text("table", catalog.table.as_str())
        .number("sites", u64::from(catalog.sites))
        .member("k", Ok(number_or_null(view.design.k)))
        .member("fatal", losses(alloc, view.design.fatal.as_slice()))
        .member("files", line_objects(alloc, view, at))
        .member("strays", texts(alloc, view.strays.as_slice()))
        .number("memory", memory);
    with_unfinished(object, view.unfinished).finish()
}

/// Texts.
fn texts(alloc: Global, texts: &[String]) -> Result<Value, AllocError> {
    let mut list = Vec::new(alloc);
    for text in texts {
        list.push(Value::try_from_str(alloc, text.as_str())?)?;
    }
    Ok(Value::Array(list))
}

/// The files, in the order of their names.
fn line_objects(alloc: Global, view: &StoreView, at: At<'_>) -> Result<Value, AllocError> {
    let mut list = Vec::new(alloc);
    for line in &view.lines {
        list.push(line_object(alloc, &view.catalog, line, at)?)?;
    }
    Ok(Value::Array(list))
}

/// Why a file could not be read, in words; null if it is in another state.
fn why_unread(
    alloc: Global,
    line: &FileLine,
    site: Option<u8>,
    at: At<'_>,
) -> Result<Value, AllocError> {
    if line.badness != Some(Badness::Unreadable) {
        return Ok(Value::Null);
    }
    let why = Unread::of(at, site, line.name);
    let words = format!(in alloc; "{why}")?;
    Value::try_from_str(alloc, words.as_str())
}

/// A file.
fn line_object(
    alloc: Global,
    catalog: &Catalog,
    line: &FileLine,
    at: At<'_>,
) -> Result<Value, AllocError> {
    let name = line.name;
    let site = site_of(catalog, name.projection(), name.segment());
    let counted = match name {
        FileName::Seg { .. } => "rows",
        FileName::Del { .. } => "items",
        FileName::Jix { .. } => "entries",
    };
    file_object(alloc, name, site)
        .number("projection", u64::from(name.projection()))
        .member("bytes", Ok(count_or_null(line.bytes)))
        .member(counted, Ok(count_or_null(line.count)))
        .text("state", state_word(line))
        .member("fault", why_unread(alloc, line, site, at))
        .finish()
}
