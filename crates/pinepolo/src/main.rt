//! pinepolo, the operator's program: checks column stores and rebuilds what lost sites took from them.
//!
//! `pinepolo_run` has the verbs; here they get the system's arguments, folders and streams.
#![tactic(auto)]

use cs_file_system::{FailedCalls, FileStep, NotedFiles, Watch};
use pinepolo_args::parse;
use pinepolo_folders::{Folders, SitedRequest, now};
use pinepolo_progress::ProgressLine;
use pinepolo_run::{CUT, Host, VerbError, run, say_early, say_error};
use std::alloc::{AllocError, Global};
use std::io::IsTerminal;
use std::process::ExitCode;
use std::sync::Arc;
use std::{env, io, thread};

/// The program, with the version that it prints.
const PROGRAM: &str = "pinepolo 2.0.0";

/// The number of processors if the system does not say.
const ONE_PROCESSOR: u32 = 1;

/// Nobody who is told of files: the line of progress moves by rounds of tasks alone.
#[derive(Clone, Copy)]
struct Untold;

impl Watch for Untold {
    fn expects(&self, _bytes: u64) {}

    fn begins(&self, _step: FileStep, _site: Option<u8>) {}

    fn moves(&self, _bytes: u64) {}
}

/// No call on a file failed so far.
fn no_failed_calls(alloc: Global) -> Result<Arc<FailedCalls>, AllocError> {
    match Arc::new(alloc, FailedCalls::new(alloc)?) {
        Ok(calls) => Ok(calls),
        Err(_) => Err(AllocError),
    }
}

/// What a verb runs on, over a store in one folder.
fn host_of<'a, R: AllocGlobal, G>(
    rt: &'a R,
    gate: &'a G,
    calls: &'a FailedCalls,
    prefix: &'a str,
    time: &'a Option<String>,
) -> Host<'a, R, G> {
    let time = match time {
        Some(time) => Some(time.as_str()),
        None => None,
    };
    Host {
        rt,
        alloc: rt.alloc(),
        gate,
        sites: None,
        calls,
        prefix,
        program: PROGRAM,
        time,
    }
}

/// What a verb runs on, over a store whose sites have folders of their own, as they were found.
fn with_sites<'a, R, G>(host: Host<'a, R, G>, sited: &'a SitedRequest<'_>) -> Host<'a, R, G> {
    Host {
        sites: sited.sites(),
        ..host
    }
}

fn main(rt: HostRuntime) -> ExitCode {
    let alloc = rt.alloc();
    let processors = match thread::available_parallelism(&rt) {
        Ok(count) => u32::try_from(count.get()).unwrap_or(ONE_PROCESSOR),
        Err(_) => ONE_PROCESSOR,
    };
    let mut out = rt.stdout();
    let mut err = rt.stderr();
    let gate = ProgressLine::new(rt, err, err.is_terminal(), u64::from(CUT));
    let prefix = if out.is_terminal() && err.is_terminal() {
        ""
    } else {
        "pinepolo: "
    };
    let Ok(calls) = no_failed_calls(alloc) else {
        return ExitCode::from(say_early(&VerbError::OutOfMemory, prefix, &mut err));
    };
    let files = NotedFiles {
        rt,
        calls: &calls,
        watch: &Untold,
    };
    let mut places = Folders::new(alloc, files);
    let time = now(alloc, &rt).ok();
    let status = match env::args(&rt) {
        Ok(args) => match args.skip(1).collect::<Vec<String>>(alloc) {
            Ok(words) => {
                match places.find_sites_of(parse(alloc, words.as_slice(), processors)) {
                    Ok(sited) => {
                        let host = host_of(&rt, &gate, &calls, prefix, &time);
                        let host = with_sites(host, &sited);
                        run(&host, &sited.parsed, &mut places, &mut out, &mut err)
                    }
                    Err(refusal) => {
                        let host = host_of(&rt, &gate, &calls, prefix, &time);
                        let (error, request) = (&refusal.error, &refusal.request);
                        say_error(&host, error, request, &mut out, &mut err)
                    }
                }
            }
            Err(_) => say_early(&VerbError::OutOfMemory, prefix, &mut err),
        },
        Err(e) if e.kind() == io::ErrorKind::OutOfMemory => {
            say_early(&VerbError::OutOfMemory, prefix, &mut err)
        }
        Err(_) => say_early(&VerbError::NotUtf8, prefix, &mut err),
    };
    ExitCode::from(status)
}
