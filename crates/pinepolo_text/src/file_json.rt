//! What is said of one file, as JSON.
ghost use Rattle.std.specs.Prelude.{◌≤◌, length};

use crate::row_words::{BaseRow, Hex, ItemWords};
use crate::samples::{first_end, last_begin};
use cs_delta::{Delta, Layer};
use cs_file_decode::{Content, FileReport};
use cs_jix::JoinIndex;
use cs_reports::object::{Object, number_or_null};
use cs_reports::site_of;
use cs_segment::Segment;
use pinepolo_answers::FileView;
use serde_json::Value;
use std::alloc::{AllocError, Global};
use std::fmt;

/// The object with what `show --json` prints of a file.
pub fn file_object(alloc: Global, object: Object, view: &FileView) -> Result<Value, AllocError> {
    let name = view.name;
    let path = name.path();
    let site = site_of(&view.catalog, name.projection(), name.segment());
    let object = object
        .text("path", path.as_str())
        .member("site", Ok(number_or_null(site)))
        .number("bytes", view.report.length as u64);
    let object = with_digests(alloc, object, &view.report);
    match &view.report.content {
        Content::Segment(segment) => with_segment(alloc, object, segment).finish(),
        Content::Delta(delta) => with_delta(alloc, object, delta).finish(),
        Content::Join(join) => with_join(alloc, object, join).finish(),
        Content::Nonsense(nonsense) => {
            let wanted = nonsense.wanted;
            object
                .text("state", "damaged")
                .number("at", nonsense.at as u64)
                .member("wanted", text_of(alloc, &wanted))
                .finish()
        }
    }
}

/// What is displayed, as a text of JSON.
fn text_of<D: fmt::Display>(alloc: Global, shown: &D) -> Result<Value, AllocError> {
    let text = format!(in alloc; "{shown}")?;
    Value::try_from_str(alloc, text.as_str())
}

/// The object with the digests, as wanted and as found.
fn with_digests(alloc: Global, object: Object, report: &FileReport) -> Object {
    match &report.digests {
        Some(digests) => object
            .member("digest_wanted", text_of(alloc, &Hex(&digests.wanted)))
            .member("digest_found", text_of(alloc, &Hex(&digests.found))),
        None => object
            .member("digest_wanted", Ok(Value::Null))
            .member("digest_found", Ok(Value::Null)),
    }
}

/// The object with a segment's rows: how many, the first and the last.
fn with_segment(alloc: Global, object: Object, segment: &Segment) -> Object {
    let count = segment.rows as usize;
    object
        .text("state", "sound")
        .number("rows", u64::from(segment.rows))
        .member("first", rows(alloc, segment, 0, first_end(count)))
        .member("last", rows(alloc, segment, last_begin(count), count))
}

/// Rows of a segment, as texts.
fn rows(alloc: Global, segment: &Segment, from: usize, to: usize) -> Result<Value, AllocError> {
    let mut list = Vec::new(alloc);
    for row in from..to {
        list.push(text_of(alloc, &BaseRow { segment, row })?)?;
    }
    Ok(Value::Array(list))
}

/// The object with a delta's head and its layers.
fn with_delta(alloc: Global, object: Object, delta: &Delta) -> Object {
    object
        .text("state", "sound")
        .number("delta_version", u64::from(delta.version))
        .number("rows", u64::from(delta.rows))
        .number("top", u64::from(delta.top))
        .member("layers", layers(alloc, delta))
}

/// The layers of a delta.
fn layers(alloc: Global, delta: &Delta) -> Result<Value, AllocError> {
    let mut list = Vec::new(alloc);
    for layer in &delta.layers {
        list.push(layer_object(alloc, layer)?)?;
    }
    Ok(Value::Array(list))
}

/// A layer: how many items it has, the first and the last.
fn layer_object(alloc: Global, layer: &Layer) -> Result<Value, AllocError> {
    let count = layer.len();
    Object::new(alloc)
        .number("items", count as u64)
        .member("first", items(alloc, layer, 0, first_end(count)))
        .member("last", items(alloc, layer, last_begin(count), count))
        .finish()
}

/// Items of a layer, as texts.
fn items(alloc: Global, layer: &Layer, from: usize, to: usize) -> Result<Value, AllocError>
    requires { to ≤ length layer.now }
{
    let mut list = Vec::new(alloc);
    for i in from..to {
        let item = layer.item(i);
        list.push(text_of(alloc, &ItemWords(&item))?)?;
    }
    Ok(Value::Array(list))
}

/// The object with a join index's entries: how many, the first and the last.
fn with_join(alloc: Global, object: Object, join: &JoinIndex) -> Object {
    let top = join.top();
    let count = top as usize;
    object
        .text("state", "sound")
        .number("entries", u64::from(top))
        .member("first", entries(alloc, join, 0, first_end(count)))
        .member("last", entries(alloc, join, last_begin(count), count))
}

/// Entries of a join index: each the segment and the key that it leads to, or null.
fn entries(alloc: Global, join: &JoinIndex, from: usize, to: usize) -> Result<Value, AllocError> {
    let mut list = Vec::new(alloc);
    for at in from..to {
        let key = u32::try_from(at.saturating_add(1)).unwrap_or(0);
        list.push(entry_value(alloc, join.entry(key))?)?;
    }
    Ok(Value::Array(list))
}

/// Where an entry leads.
fn entry_value(alloc: Global, entry: Option<(u16, u32)>) -> Result<Value, AllocError> {
    match entry {
        Some((segment, key)) => Object::new(alloc)
            .number("segment", u64::from(segment))
            .number("key", u64::from(key))
            .finish(),
        None => Ok(Value::Null),
    }
}
