//! Sites that are away, as JSON.
use crate::bad_json::with_call;
use cs_reports::object::Object;
use pinepolo_answers::Answer;
use pinepolo_text::{AnswerText, At};
use serde_json::Value;
use std::alloc::{AllocError, Global};

/// The sites that are away, each with its folder, and with the call by which that was found if the system said anything but that
/// nothing is there.
fn away_objects(alloc: Global, at: At<'_>) -> Result<Value, AllocError> {
    let mut list = Vec::new(alloc);
    for away in at.away() {
        let folder = away.folder.as_str();
        let object = Object::new(alloc)
            .number("site", u64::from(away.site))
            .text("folder", folder);
        let object = match at.calls.last_below(folder) {
            Some(call) => {
                let fault = format!(in alloc; "could not {call}")?;
                with_call(alloc, object.text("fault", fault.as_str()), call)?
            }
            None => object.member("fault", Ok(Value::Null)),
        };
        list.push(object.finish()?)?;
    }
    Ok(Value::Array(list))
}

/// The object of an answer, with the sites that are away if the answer is on a store whose sites have folders of their own.
pub fn with_away(
    alloc: Global,
    text: &AnswerText<'_>,
    object: Result<Value, AllocError>,
) -> Result<Value, AllocError> {
    if text.at.sites.is_none() {
        return object;
    }
    match text.answer {
        Answer::Checked(_) | Answer::Shown(_) | Answer::Diagnosed(_) => {}
        _ => return object,
    }
    match object? {
        Value::Object(mut members) => {
            serde_json::put(&mut members, alloc, "away", away_objects(alloc, text.at)?)?;
            Ok(Value::Object(members))
        }
        other => Ok(other),
    }
}
