//! What all objects say of a run, and what to do next.
use cs_reports::object::Object;
use pinepolo_places::DONE;
use serde_json::Value;
use std::alloc::{AllocError, Global};

/// The version of the form of all objects.
const VERSION: u64 = 2;

/// The run of which an object tells.
#[derive(Clone, Copy)]
pub struct RunWords<'a> {
    /// The program, with its version.
    pub program: &'a str,
    /// When it began, in UTC, if the system tells the time.
    pub time: Option<&'a str>,
    /// What the command line calls the verb.
    pub command: &'a str,
    /// The path that the verb was given: of the store, or of its catalog.
    pub store: &'a str,
}

/// The words of a command line, as a shell reads them, which was written with quotes.
fn words_of(alloc: Global, line: &str) -> Result<Value, AllocError> {
    let mut words = Vec::new(alloc);
    let mut word = String::new(alloc);
    let (mut is_quoted, mut is_escaped) = (false, false);
    for c in line.chars() {
        if is_escaped {
            word.push(c)?;
            is_escaped = false;
        } else if c == '\'' {
            is_quoted = !is_quoted;
        } else if is_quoted {
            word.push(c)?;
        } else if c == '\\' {
            is_escaped = true;
        } else if c == ' ' {
            words.push(Value::try_from_str(alloc, word.as_str())?)?;
            word.clear();
        } else {
            word.push(c)?;
        }
    }
    words.push(Value::try_from_str(alloc, word.as_str())?)?;
    Ok(Value::Array(words))
}

/// Whether what to do next is a command that runs as it stands.
fn is_command(next: &str) -> bool {
    (next.starts_with("pinepolo ") || next.starts_with("sync ")) && !next.contains('\n')
}

/// The object with what to do next: a command by its words, anything else as advice. Both are null if there is nothing to do.
fn with_next(alloc: Global, object: Object, next: &str) -> Object {
    if next.is_empty() {
        object
            .member("next", Ok(Value::Null))
            .member("advice", Ok(Value::Null))
    } else if is_command(next) {
        object
            .member("next", words_of(alloc, next))
            .member("advice", Ok(Value::Null))
    } else {
        object.member("next", Ok(Value::Null)).text("advice", next)
    }
}

/// A text, or null if there is none.
fn text_or_null(alloc: Global, text: Option<&str>) -> Result<Value, AllocError> {
    match text {
        Some(text) => Value::try_from_str(alloc, text),
        None => Ok(Value::Null),
    }
}

impl RunWords<'_> {
    /// The object of an answer or a refusal of this status, so far: what is to be done next is a command, advice, or empty; nothing
    /// is wrong.
    pub fn object(&self, alloc: Global, status: u8, next: &str) -> Object {
        let object = Object::new(alloc)
            .number("version", VERSION)
            .text("program", self.program)
            .member("time", text_or_null(alloc, self.time))
            .text("command", self.command)
            .text("store", self.store)
            .truth("ok", status == DONE)
            .number("status", u64::from(status))
            .member("fault", Ok(Value::Null))
            .member("kind", Ok(Value::Null));
        with_next(alloc, object, next)
    }
}
