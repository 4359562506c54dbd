//! The program and its verbs as clap knows them.
use crate::argument::Argument;
use crate::arguments::ARGUMENTS;
use crate::help;
use clap::{Command, Error};
use std::alloc::Global;

/// All verbs, and what each does.
const VERBS: &[(&str, &str)] = &[
    ("check", help::CHECK),
    ("show", help::SHOW),
    ("diagnose", help::DIAGNOSE),
    ("drill", help::DRILL),
    ("recover", help::RECOVER),
    ("restore", help::RESTORE),
    ("undo", help::UNDO),
    ("manifest", help::MANIFEST),
    ("verify", help::VERIFY),
    ("design", help::DESIGN),
    ("load", help::LOAD),
    ("dump", help::DUMP),
    ("relayout", help::RELAYOUT),
];

/// A command with an argument, if its verb takes it.
fn with_argument<'a>(
    alloc: Global,
    command: Command<'a>,
    verb: &'static str,
    argument: &Argument,
) -> Result<Command<'a>, Error> {
    if !argument.verbs.contains(&verb) {
        return Ok(command);
    }
    Ok(command.arg(argument.to_arg(alloc)?)?)
}

/// A command with those of the arguments that its verb takes.
fn with_arguments<'a>(
    alloc: Global,
    command: Command<'a>,
    verb: &'static str,
    arguments: &[Argument],
) -> Result<Command<'a>, Error> {
    let mut command = command;
    for argument in arguments {
        command = with_argument(alloc, command, verb, argument)?;
    }
    Ok(command)
}

/// The command of a verb, and what that does.
fn command_of<'a>(
    alloc: Global,
    verb: &'static str,
    about: &'static str,
) -> Result<Command<'a>, Error> {
    let command = Command::new(alloc, verb)
        .about(about)
        .after_help(help::end_of(verb));
    with_arguments(alloc, command, verb, ARGUMENTS)
}

/// The program with these verbs.
fn with_verbs<'a>(
    alloc: Global,
    program: Command<'a>,
    verbs: &[(&'static str, &'static str)],
) -> Result<Command<'a>, Error> {
    let mut program = program;
    for (verb, about) in verbs {
        program = program.subcommand(command_of(alloc, verb, about)?)?;
    }
    Ok(program)
}

/// The program with all verbs.
pub fn program<'a>(alloc: Global) -> Result<Command<'a>, Error> {
    let program = Command::new(alloc, "pinepolo")
        .no_binary_name(true)
        .subcommand_required(true)
        .arg_required_else_help(true)
        .about(help::PROGRAM)
        .version(help::VERSION)
        .after_help(help::PROGRAM_END)
        .bin_name("pinepolo")?;
    with_verbs(alloc, program, VERBS)
}

/// The verb of this name alone, if there is one, as its usage calls it.
pub fn verb<'a>(alloc: Global, name: &str) -> Option<Command<'a>> {
    for (verb, about) in VERBS.iter() {
        if *verb == name {
            let command = command_of(alloc, verb, about).ok()?;
            let usage = format!(in alloc; "pinepolo {name}").ok()?;
            return command.bin_name(usage.as_str()).ok();
        }
    }
    None
}
