//! The words of pinepolo's command line: its verbs, their arguments, and the help of each.
//!
//! `parse` answers a request, whose numbers are within their limits, or why there is none: the help that was asked for, or
//! a usage error with the usage of the verb.
#![tactic(auto)]

mod argument;
mod arguments;
mod commands;
mod help;
mod new_folders;
mod options;
mod parsing;
mod paths;
mod request;
mod sites;
mod values;
mod verbs;

pub use new_folders::NewFolders;
pub use parsing::{ParseExit, parse, parse_found};
pub use request::{
    CheckArgs, DesignArgs, DiagnoseArgs, DrillArgs, DumpArgs, LoadArgs, ManifestArgs, RecoverArgs,
    RelayoutArgs, Request, RestoreArgs, ShowArgs, UndoArgs, Verb, VerifyArgs,
};
