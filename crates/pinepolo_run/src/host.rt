//! What a program runs on, and by what its verbs work.
ghost use Rattle.std.specs.Prelude.{◌≤◌};

use cs_file_system::FailedCalls;
use cs_rebuild::Run;
use pinepolo_args::Request;
use pinepolo_json::RunWords;
use pinepolo_places::Sited;
use pinepolo_text::At;
use std::alloc::Global;

/// How many rows a piece of work has.
pub const CUT: u32 = 65_536;

/// What a program runs on.
#[derive(Drop)]
pub struct Host<'a, R, G> {
    pub rt: &'a R,
    pub alloc: Global,
    /// What is told how far a verb has come.
    pub gate: &'a G,
    /// Where the sites of the store stand, if each has a folder of its own.
    pub sites: Option<Sited<'a>>,
    /// The calls on files that failed, with what the system said of them.
    pub calls: &'a FailedCalls,
    /// What stands before each fault: the program's name, unless a terminal shows it.
    pub prefix: &'a str,
    /// The program, with its version.
    pub program: &'a str,
    /// When it began, in UTC, if the system tells the time.
    pub time: Option<&'a str>,
}

impl<'a, R, G> Host<'a, R, G> {
    /// What a verb runs on, with this many workers.
    pub fn run_by(&self, workers: u32) -> Run<'a, R, G>
        requires { (1 ≤ workers) × (workers ≤ 64) }
    {
        Run {
            rt: self.rt,
            alloc: self.alloc,
            workers,
            cut: CUT,
            gate: self.gate,
        }
    }

    /// What the answer to a request says of its run in JSON.
    pub fn words(&self, request: &Request<'a>) -> RunWords<'a> {
        RunWords {
            program: self.program,
            time: self.time,
            command: request.verb.name(),
            store: request.verb.path(),
        }
    }

    /// Where the store of a request is.
    pub fn at(&self, request: &Request<'a>) -> At<'a> {
        let sites = match (self.sites, request.sites) {
            (None, Some(file)) => Some(Sited { file, away: &[] }),
            (sites, _) => sites,
        };
        At {
            store: request.verb.path(),
            sites,
            calls: self.calls,
            prefix: self.prefix,
        }
    }
}
