//! Bad files as JSON.
use cs_file_system::FailedCall;
use cs_reports::object::Object;
use cs_reports::{BadFile, FileProblem, file_object};
use pinepolo_text::{At, Unread};
use serde_json::Value;
use std::alloc::{AllocError, Global};

/// The object with what a failed call does, and the system's number of what is wrong.
pub fn with_call(alloc: Global, object: Object, call: &FailedCall) -> Result<Object, AllocError> {
    let operation = format!(in alloc; "{}", call.operation)?;
    let object = object.text("operation", operation.as_str());
    Ok(match call.error.raw_os_error() {
        Some(number) => object.number("os_error", u64::from(number.unsigned_abs())),
        None => object,
    })
}

/// The object with why a file could not be read.
fn with_unread(alloc: Global, object: Object, why: Unread<'_>) -> Result<Object, AllocError> {
    let words = format!(in alloc; "{why}")?;
    let object = object.text("fault", words.as_str());
    match why {
        Unread::Failed(call) => with_call(alloc, object, call),
        _ => Ok(object),
    }
}

/// A bad file, with why it could not be read if it could not.
pub fn bad_object(alloc: Global, at: At<'_>, file: &BadFile) -> Result<Value, AllocError> {
    let object = file_object(alloc, file.name, file.site)
        .text("state", file.problem.word())
        .member("fault", Ok(Value::Null));
    if file.problem != FileProblem::Unreadable {
        return object.finish();
    }
    let why = Unread::of(at, file.site, file.name);
    with_unread(alloc, object, why)?.finish()
}

/// Bad files as a list.
pub fn bad_objects(alloc: Global, at: At<'_>, files: &[BadFile]) -> Result<Value, AllocError> {
    let mut list = Vec::new(alloc);
    for file in files {
        list.push(bad_object(alloc, at, file)?)?;
    }
    Ok(Value::Array(list))
}
