//! New stores as JSON.
use crate::json::written_objects;
use cs_reports::design_of;
use cs_reports::object::{Object, losses};
use cs_schema::Loss;
use pinepolo_answers::NewStore;
use serde_json::Value;
use std::alloc::{AllocError, Global};

/// A store that a verb made.
pub fn new_store_object(
    alloc: Global,
    object: Object,
    store: &NewStore,
) -> Result<Value, AllocError> {
    let design = design_of(alloc, &store.catalog, Loss::none())?;
    object
        .number("rows", store.rows as u64)
        .member(
            "files",
            written_objects(alloc, &store.catalog, &store.files),
        )
        .number("k", u64::from(store.k))
        .member("fatal", losses(alloc, design.fatal.as_slice()))
        .finish()
}
