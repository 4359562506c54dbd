//! What the words of the command line ask for.
ghost use Rattle.std.specs.Prelude.{◌≤◌};

use clap::builder::ValueParser;
use clap::error::ErrorKind;
use clap::{Arg, ArgMatches, Command};
use cs_schema::Loss;
use std::alloc::Global;

/// The number of workers if none is given.
pub const ONE_WORKER: u32 = 1;

/// The number of rows of a task if none is given.
pub const DEFAULT_CUT: u32 = 65_536;

/// A command with its arguments.
#[derive(Drop)]
pub enum Request<'a> {
    /// Whether a store is sound, and safe for losses of at most `k` sites.
    Check { k: u8, store: &'a str },
    /// The files that a loss took from a store.
    Recover(Recovery<'a>),
}

/// What to recover, from where, to where, and with how many workers.
#[derive(Clone, Copy)]
pub struct Recovery<'a> {
    /// The number of workers.
    pub workers: u32,
    /// The number of rows of a task.
    pub cut: u32,
    /// The folder of the store.
    pub store: &'a str,
    /// The folder to make for the recovered files.
    pub output: &'a str,
    /// The lost sites.
    pub loss: Loss,
    ghost workers_in_limits: { (1 ≤ workers) × (workers ≤ 64) },
    ghost cut_in_limits: { (1 ≤ cut) × (cut ≤ 1048576) },
}

/// Why the words are no request.
#[derive(Debug, Clone, Copy, PartialEq, Eq)]
pub enum WordsFault {
    /// Out of memory.
    Memory,
    /// They are not a command.
    Usage,
}

/// Reads the words, at least one.
pub fn parse<'a>(alloc: Global, words: &'a [String]) -> Result<Request<'a>, WordsFault> {
    let command = match commands(alloc) {
        Ok(command) => command,
        Err(e) => return Err(words_fault(&e)),
    };
    let matches = match command.try_get_matches_from(words) {
        Ok(matches) => matches,
        Err(e) => return Err(words_fault(&e)),
    };
    let request = match matches.subcommand() {
        Some(("check", found)) => check_of(found),
        Some(("recover", found)) => recover_of(found),
        _ => None,
    };
    match request {
        Some(request) => Ok(request),
        None => Err(WordsFault::Usage),
    }
}

/// Distinguishes out of memory from words that are not a command.
fn words_fault(e: &clap::Error) -> WordsFault {
    if e.kind() == ErrorKind::OutOfMemory {
        WordsFault::Memory
    } else {
        WordsFault::Usage
    }
}

/// What an argument of a command takes.
#[derive(Clone, Copy)]
enum ValueKind {
    Folder,
    /// A number between two bounds, inclusive.
    Number(i64, i64),
    /// An option with a number between two bounds, inclusive.
    Setting(i64, i64),
    /// One or more sites, each a word.
    Sites,
}

/// `check K STORE`.
const CHECK: &[(&str, ValueKind)] = &[
    ("k", ValueKind::Number(0, 255)),
    ("store", ValueKind::Folder),
];

/// `recover [--workers N] [--cut R] STORE OUT SITE...`.
const RECOVER: &[(&str, ValueKind)] = &[
    ("workers", ValueKind::Setting(1, 64)),
    ("cut", ValueKind::Setting(1, 1_048_576)),
    ("store", ValueKind::Folder),
    ("output", ValueKind::Folder),
    ("sites", ValueKind::Sites),
];

fn with_kind<'a>(arg: Arg<'a>, id: &'a str, kind: ValueKind) -> Arg<'a> {
    match kind {
        ValueKind::Folder => arg.required(true),
        ValueKind::Number(least, most) => arg
            .required(true)
            .value_parser(ValueParser::Signed(least, most)),
        ValueKind::Setting(least, most) => {
            arg.long(id).value_parser(ValueParser::Signed(least, most))
        }
        ValueKind::Sites => arg
            .required(true)
            .num_args(1..)
            .value_parser(ValueParser::Signed(1, 16)),
    }
}

/// The two commands.
fn commands<'a>(alloc: Global) -> Result<Command<'a>, clap::Error> {
    let command = Command::new(alloc, "cs_cli")
        .no_binary_name(true)
        .subcommand_required(true)
        .subcommand(command_of(alloc, "check", CHECK)?)?
        .subcommand(command_of(alloc, "recover", RECOVER)?)?;
    Ok(command)
}

fn command_of<'a>(
    alloc: Global,
    name: &'a str,
    arguments: &[(&'a str, ValueKind)],
) -> Result<Command<'a>, clap::Error> {
    let mut command = Command::new(alloc, name);
    for (id, kind) in arguments {
        command = command.arg(with_kind(Arg::new(alloc, *id), *id, *kind))?;
    }
    Ok(command)
}

/// The arguments of `check`, if all are present.
fn check_of<'a>(found: &ArgMatches<'a>) -> Option<Request<'a>> {
    let k = found.get_one::<u8>("k")?;
    let store = found.get_str("store")?;
    Some(Request::Check { k, store })
}

/// The arguments of `recover`, if all are present and within their bounds.
fn recover_of<'a>(found: &ArgMatches<'a>) -> Option<Request<'a>> {
    let workers = found.get_one::<u32>("workers").unwrap_or(ONE_WORKER);
    let cut = found.get_one::<u32>("cut").unwrap_or(DEFAULT_CUT);
    let store = found.get_str("store")?;
    let output = found.get_str("output")?;
    let loss = loss_of(found)?;
    if !(1..=64).contains(&workers) || !(1..=1_048_576).contains(&cut) {
        return None;
    }
    Some(Request::Recover(Recovery {
        workers,
        cut,
        store,
        output,
        loss,
    }))
}

/// The sites, if each is the number of a site. One may occur more than once.
fn loss_of(found: &ArgMatches<'_>) -> Option<Loss> {
    let mut loss = Loss::none();
    for site in found.get_many::<u8>("sites")? {
        match site {
            Ok(site) if (1..=16).contains(&site) => loss = loss.with(site),
            _ => return None,
        }
    }
    Some(loss)
}
