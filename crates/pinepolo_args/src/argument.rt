//! An argument of a verb, and how clap knows it.
use clap::{Arg, ArgAction, value_parser};
use std::alloc::{AllocError, Global};

/// What a value is.
#[derive(Clone, Copy)]
pub enum Value {
    /// A text.
    Text,
    /// A text, each time that the argument is given.
    Texts,
    /// A number from the first to the second.
    Number(i64, i64),
    /// Sites from 1 to 16, with commas between them.
    Sites,
}

/// How an argument is given.
#[derive(Clone, Copy)]
pub enum Form {
    /// `--ID`, or its letter.
    Flag,
    /// `--ID VALUE`, or by its letter: what the help calls the value, and what it is.
    Named(&'static str, Value),
    /// A word by its place, or several if they are sites: what the help calls it, and what it is.
    Positional(&'static str, Value),
}

/// Whether an argument must be given.
#[derive(Clone, Copy)]
pub enum Presence {
    /// It must be given.
    Required,
    /// It may be left out.
    Optional,
    /// It may be left out, and must not be given together with the arguments with these ids.
    Excludes(&'static [&'static str]),
}

/// An argument of some verbs.
#[derive(Clone, Copy)]
pub struct Argument {
    /// Identifies its value; also the name of a flag or an option.
    pub id: &'static str,
    pub form: Form,
    pub presence: Presence,
    /// What the help says, in lines that leave room for the names in 80 columns.
    pub help: &'static str,
    /// The verbs that take it.
    pub verbs: &'static [&'static str],
}

fn with_value<'a>(arg: Arg<'a>, value: Value) -> Arg<'a> {
    match value {
        Value::Text => arg,
        Value::Texts => arg.action(ArgAction::Append),
        Value::Number(least, most) => arg.value_parser(value_parser!(u32).range(least..=most)),
        Value::Sites => arg
            .action(ArgAction::Append)
            .value_parser(value_parser!(u8).range(1..=16))
            .value_delimiter(','),
    }
}

/// An argument by its name, also by a letter if it is given often.
fn with_names<'a>(arg: Arg<'a>, id: &'static str) -> Arg<'a> {
    match id {
        "dry-run" => arg.long(id).short('n'),
        "quiet" => arg.long(id).short('q'),
        "workers" => arg.long(id).short('j'),
        _ => arg.long(id),
    }
}

fn with_form<'a>(arg: Arg<'a>, id: &'static str, form: Form) -> Arg<'a> {
    match form {
        Form::Flag => with_names(arg, id).action(ArgAction::SetTrue),
        Form::Named(name, value) => with_value(with_names(arg, id).value_name(name), value),
        Form::Positional(name, Value::Sites) => {
            with_value(arg.value_name(name).num_args(1..), Value::Sites)
        }
        Form::Positional(name, value) => with_value(arg.value_name(name), value),
    }
}

fn with_presence<'a>(arg: Arg<'a>, presence: Presence) -> Result<Arg<'a>, AllocError> {
    match presence {
        Presence::Required => Ok(arg.required(true)),
        Presence::Optional => Ok(arg),
        Presence::Excludes(ids) => arg.conflicts_with_all(ids),
    }
}

impl Argument {
    /// The argument as clap knows it.
    pub fn to_arg<'a>(&self, alloc: Global) -> Result<Arg<'a>, AllocError> {
        let arg = Arg::new(alloc, self.id).help(self.help);
        with_presence(with_form(arg, self.id, self.form), self.presence)
    }
}
