//! What a restore came to, as JSON.
use crate::diagnosed_json::{diagnosed_object, with_verdict};
use crate::json::placed_object;
use cs_reports::object::{Object, count_or_null};
use cs_schema::Loss;
use pinepolo_answers::{Doubted, FoundRestore, Restoration, Restored, spare_sites};
use pinepolo_places::WorkKind;
use pinepolo_text::{At, what_word};
use serde_json::Value;
use std::alloc::{AllocError, Global};

/// What a restore came to.
pub fn restoration_object(
    alloc: Global,
    object: Object,
    restoration: &Restoration,
    at: At<'_>,
) -> Result<Value, AllocError> {
    match restoration {
        Restoration::Done(restored) => restored_object(alloc, object, restored),
        Restoration::Doubted(doubted) => doubted_object(alloc, object, doubted, at),
    }
}

/// A loss that is in doubt, with the diagnosis that makes it so, and the sites that need not be lost.
fn doubted_object(
    alloc: Global,
    object: Object,
    doubted: &Doubted,
    at: At<'_>,
) -> Result<Value, AllocError> {
    let diagnosed = &doubted.diagnosed;
    let spare = spare_sites(&diagnosed.diagnosis, doubted.lost);
    let unfinished = if doubted.resumes {
        Some(WorkKind::Restore)
    } else {
        None
    };
    let diagnosis = diagnosed_object(alloc, Object::new(alloc), diagnosed, unfinished, at);
    object
        .text("kind", "doubtful")
        .text("fault", "other losses explain the store as well")
        .member("files", Ok(Value::Array(Vec::new(alloc))))
        .sites("lost", doubted.lost)
        .sites("spare", spare)
        .member("diagnosis", diagnosis)
        .finish()
}

/// What a restore came to that found by itself what was lost, with its diagnosis.
pub fn found_object(
    alloc: Global,
    object: Object,
    found: &FoundRestore,
    at: At<'_>,
) -> Result<Value, AllocError> {
    let object = match &found.restoration {
        Some(Restoration::Done(restored)) => restored_members(alloc, object, restored),
        Some(Restoration::Doubted(doubted)) => return doubted_object(alloc, object, doubted, at),
        None => unrestored_members(alloc, object, found),
    };
    let diagnosed = &found.diagnosed;
    let diagnosis = diagnosed_object(
        alloc,
        Object::new(alloc),
        diagnosed,
        diagnosed.unfinished,
        at,
    );
    object.member("diagnosis", diagnosis).finish()
}

/// The members of a store that was diagnosed and not restored: it is sound, or not one table explains it.
fn unrestored_members(alloc: Global, object: Object, found: &FoundRestore) -> Object {
    let object = object
        .sites("lost", Loss::none())
        .member("files", Ok(Value::Array(Vec::new(alloc))));
    with_verdict(object, found.diagnosed.diagnosis.verdict)
}

/// A store that was restored, or is to be.
fn restored_object(
    alloc: Global,
    object: Object,
    restored: &Restored,
) -> Result<Value, AllocError> {
    restored_members(alloc, object, restored).finish()
}

/// The members of a store that was restored, or is to be.
fn restored_members(alloc: Global, object: Object, restored: &Restored) -> Object {
    object
        .sites("lost", restored.lost)
        .member("rows", Ok(count_or_null(restored.rows)))
        .number("k", u64::from(restored.k))
        .member("files", step_objects(alloc, restored))
        .member("kept", Ok(count_or_null(restored.kept.map(u64::from))))
}

/// What became of each rebuilt file.
fn step_objects(alloc: Global, restored: &Restored) -> Result<Value, AllocError> {
    let mut list = Vec::new(alloc);
    for step in &restored.steps {
        let object = placed_object(alloc, &restored.catalog, step.name)
            .text("what", what_word(step.what))
            .number("bytes", step.bytes);
        list.push(object.finish()?)?;
    }
    Ok(Value::Array(list))
}
