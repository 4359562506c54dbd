//! What an undo came to, as JSON.
use crate::json::placed_object;
use cs_reports::object::{Object, count_or_null};
use pinepolo_answers::Undone;
use pinepolo_text::undone_word;
use serde_json::Value;
use std::alloc::{AllocError, Global};

/// A store that has again what stood there before.
pub fn undone_object(alloc: Global, object: Object, undone: &Undone) -> Result<Value, AllocError> {
    object
        .number("of", u64::from(undone.undoable.number))
        .member("files", name_objects(alloc, undone))
        .member("kept", Ok(count_or_null(undone.kept.map(u64::from))))
        .finish()
}

/// What became of each name. What is gone has no size, nor what is moved back.
fn name_objects(alloc: Global, undone: &Undone) -> Result<Value, AllocError> {
    let mut list = Vec::new(alloc);
    for name in &undone.undoable.names {
        let back = undone.undoable.back.get(*name);
        let object = placed_object(alloc, &undone.catalog, *name)
            .text("what", undone_word(back))
            .member("bytes", Ok(count_or_null(undone.size(*name))));
        list.push(object.finish()?)?;
    }
    Ok(Value::Array(list))
}
