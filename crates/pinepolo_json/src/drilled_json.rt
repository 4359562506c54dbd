//! A drill as JSON.
use cs_drill::{Outcome, Trial};
use cs_reports::object::{Object, sites};
use cs_reports::{FaultWords, fault_site, with_fault};
use cs_schema::{Catalog, FileName};
use pinepolo_answers::{Drilled, Measure, is_failed};
use serde_json::Value;
use std::alloc::{AllocError, Global};

/// What a drill found.
pub fn drilled_object(
    alloc: Global,
    object: Object,
    drilled: &Drilled,
) -> Result<Value, AllocError> {
    let slowest = match drilled.slowest() {
        Some((loss, _measure)) => sites(alloc, loss),
        None => Ok(Value::Null),
    };
    with_failures(alloc, object, drilled)?
        .number("at_most", u64::from(drilled.at_most))
        .member("losses", trial_objects(alloc, drilled))
        .member("slowest", slowest)
        .finish()
}

/// The object with how many losses failed, if any did.
fn with_failures(alloc: Global, object: Object, drilled: &Drilled) -> Result<Object, AllocError> {
    let failures = drilled.failures();
    if failures == 0 {
        return Ok(object);
    }
    let losses = drilled.trials.len();
    let fault = format!(in alloc;
        "{failures} of {losses} losses are not rebuilt as the store stands"
    )?;
    Ok(
        object
            .text("kind", "not rebuilt")
            .text("fault", fault.as_str()),
    )
}

/// The losses that were tried.
fn trial_objects(alloc: Global, drilled: &Drilled) -> Result<Value, AllocError> {
    let mut list = Vec::new(alloc);
    for (trial, measure) in drilled.trials.iter().zip(drilled.measures.iter()) {
        list.push(trial_object(alloc, &drilled.catalog, trial, measure)?)?;
    }
    Ok(Value::Array(list))
}

/// A loss that was tried.
fn trial_object(
    alloc: Global,
    catalog: &Catalog,
    trial: &Trial,
    measure: &Measure,
) -> Result<Value, AllocError> {
    let object = Object::new(alloc)
        .sites("lost", trial.loss)
        .truth("ok", !is_failed(trial))
        .number("milliseconds", measure.milliseconds)
        .member("peak_kib", Ok(number_or_null(measure.peak)));
    match &trial.outcome {
        Outcome::Rebuilt(rebuilt) => object
            .number("rows", rebuilt.rows)
            .number("files", rebuilt.files)
            .member("other", name_or_null(alloc, rebuilt.first_other))
            .member("fault", Ok(Value::Null))
            .member("kind", Ok(Value::Null))
            .finish(),
        Outcome::Refused(fault) => {
            let words = FaultWords { catalog, fault };
            let object = object
                .member("rows", Ok(Value::Null))
                .member("files", Ok(Value::Null))
                .member("other", Ok(Value::Null))
                .member("fault", text_of(alloc, &words));
            with_fault(object, fault_site(catalog, fault), fault).finish()
        }
    }
}

/// A number, or null if there is none.
fn number_or_null(number: Option<u64>) -> Value {
    match number {
        Some(number) => Value::from(number),
        None => Value::Null,
    }
}

/// The name of a file, or null if there is none.
fn name_or_null(alloc: Global, name: Option<FileName>) -> Result<Value, AllocError> {
    match name {
        Some(name) => {
            let path = name.path();
            Value::try_from_str(alloc, path.as_str())
        }
        None => Ok(Value::Null),
    }
}

/// A fault in words.
fn text_of(alloc: Global, words: &FaultWords<'_>) -> Result<Value, AllocError> {
    let text = format!(in alloc; "{words}")?;
    Value::try_from_str(alloc, text.as_str())
}
