//! Verbs over places in memory, with what they print.
use crate::places::MemoryPlaces;
use anyhow::Result;
use pinepolo_args::parse;
use pinepolo_progress::OpenGate;
use pinepolo_run::{FailedCalls, Host, Meter, World, run};
use std::alloc::Global;
use std::marker::Sync;
use std::thread::Threads;

// (no test rests on a clock)
impl Meter for MemoryPlaces {
    fn milliseconds(&self) -> u64 {
        0
    }

    fn peak(&self) -> Option<u64> {
        None
    }
}

impl World for MemoryPlaces {}

/// How many processors there are.
const PROCESSORS: u32 = 2;

/// What verbs run on.
fn host_of<'a, R: AllocGlobal>(rt: &'a R, calls: &'a FailedCalls) -> Host<'a, R, OpenGate> {
    Host {
        rt,
        alloc: rt.alloc(),
        gate: &OpenGate,
        sites: None,
        calls,
        prefix: "",
        program: "pinepolo",
        time: Some("2026-01-01T00:00:00Z"),
    }
}

/// Runs a verb over the places, and prints its lines and its status.
pub fn answered<R: Threads + Sync + AllocGlobal + Print>(
    rt: &R,
    places: &mut MemoryPlaces,
    words: &[&str],
) -> Result<()> {
    let alloc = rt.alloc();
    let mut owned = Vec::new(alloc);
    for word in words {
        owned.push(String::from_str(alloc, word)?)?;
    }
    let calls = FailedCalls::new(alloc)?;
    let host = host_of(rt, &calls);
    let mut out = Vec::new(alloc);
    let mut err = Vec::new(alloc);
    let parsed = parse(alloc, owned.as_slice(), PROCESSORS);
    let status = run(&host, &parsed, places, &mut out, &mut err);
    places.settle()?;
    let out = String::from_utf8_lossy(alloc, out.as_slice())?;
    let err = String::from_utf8_lossy(alloc, err.as_slice())?;
    let (out, err) = (out.as_str(), err.as_str());
    print!(rt; "{out}{err}")?;
    println!(rt; "status {status}")?;
    Ok(())
}
