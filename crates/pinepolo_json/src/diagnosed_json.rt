//! A diagnosis as JSON.
use crate::bad_json::bad_objects;
use crate::disputed_json::dispute_objects;
use cs_diagnosis::{Diagnosis, Explanation, Verdict};
use cs_reports::object::{Object, losses, number_or_null};
use pinepolo_answers::{Diagnosed, files_of};
use pinepolo_places::WorkKind;
use pinepolo_text::{At, number_of, rows_of, verdict_word, with_unfinished};
use serde_json::Value;
use std::alloc::{AllocError, Global};

/// What is wrong with a store by a verdict, if anything is.
fn verdict_fault(verdict: Verdict) -> Option<&'static str> {
    match verdict {
        Verdict::Sound => None,
        Verdict::OneTable => Some("one table explains the store, after a loss"),
        Verdict::Ambiguous => Some("more than one table explains the store"),
        Verdict::NotRecoverable => Some("no table explains the store"),
    }
}

/// The object with what is wrong with a store by a verdict, if anything is.
pub fn with_verdict(object: Object, verdict: Verdict) -> Object {
    match verdict_fault(verdict) {
        Some(fault) => object
            .text("kind", verdict_word(verdict))
            .text("fault", fault),
        None => object,
    }
}

/// The object with what a diagnosis found of a store on which this kind of work was left unfinished.
pub fn diagnosed_object(
    alloc: Global,
    object: Object,
    diagnosed: &Diagnosed,
    unfinished: Option<WorkKind>,
    at: At<'_>,
) -> Result<Value, AllocError> {
    let diagnosis = &diagnosed.diagnosis;
    let reach = &diagnosis.reach;
    let (bad, changed) = (diagnosis.bad.as_slice(), diagnosed.changed.as_slice());
    let bad = files_of(alloc, &diagnosed.catalog, bad, changed)?;
    let object = object
        .number("at_most", u64::from(reach.at_most))
        .member("certain", Ok(number_or_null(reach.certain)))
        .member("files", bad_objects(alloc, at, bad.as_slice()))
        .sites("forced", diagnosis.forced)
        .member("explanations", explanation_objects(alloc, diagnosis))
        .text("verdict", verdict_word(diagnosis.verdict))
        .member("fatal", losses(alloc, diagnosed.fatal.as_slice()))
        .member("disputes", dispute_objects(alloc, diagnosed));
    with_unfinished(object, unfinished).finish()
}

/// The explanations.
fn explanation_objects(alloc: Global, diagnosis: &Diagnosis) -> Result<Value, AllocError> {
    let mut list = Vec::new(alloc);
    for explanation in &diagnosis.explanations {
        list.push(explanation_object(alloc, diagnosis, explanation)?)?;
    }
    Ok(Value::Array(list))
}

/// An explanation.
fn explanation_object(
    alloc: Global,
    diagnosis: &Diagnosis,
    explanation: &Explanation,
) -> Result<Value, AllocError> {
    Object::new(alloc)
        .sites("lost", explanation.loss)
        .number("rows", rows_of(diagnosis, explanation.table))
        .number("table", number_of(explanation.table))
        .finish()
}
