//! Calls with one allocation refused, and a large recovery.
//!
//! A line of standard input names a call, its number of workers, and how many allocations to make before it. So if the
//! environment refuses the Nth allocation, a line says which allocation of the call that is. `tools/refuse-allocations`
//! runs the program once for each allocation of each call. A line `large` recovers more than two million rows.
#![tactic(auto)]

mod attempt;
mod boards;
mod catalogs;
mod large;
mod recoveries;
mod squares;
mod walks;

ghost use Rattle.std.specs.Prelude.{◌≤◌};

use anyhow::{Result, anyhow};
use attempt::Report;
use recoveries::{CITIES_STORE, JOINED_STORE, ONE_LOST, THREE_STORE};
use std::thread::Threads;

/// Makes the inputs of a call, then so many allocations, then the call.
fn make_call(
    rt: &(impl AllocGlobal + Threads + Sync),
    call: &str,
    workers: u32,
    before: u64,
) -> Result<Report>
    requires { (1 ≤ workers) × (workers ≤ 64) }
{
    match call {
        "read-catalog" => catalogs::read(rt.alloc(), before),
        "rebuild-one-lost" => recoveries::rebuild_store(rt, &ONE_LOST, workers, before),
        "rebuild-cities" => recoveries::rebuild_store(rt, &CITIES_STORE, workers, before),
        "rebuild-three-projections" => recoveries::rebuild_store(rt, &THREE_STORE, workers, before),
        "rebuild-joined" => recoveries::rebuild_store(rt, &JOINED_STORE, workers, before),
        "check-cities" => recoveries::check_store(rt, &CITIES_STORE, workers, before),
        "board" => Ok(boards::play(rt.alloc(), before)),
        "squares" => Ok(squares::all(rt, workers, before)),
        "squares-refused" => Ok(squares::refused(rt, workers, before)),
        "walk-rows" => walks::walk(rt.alloc(), before),
        "append" => walks::append(rt.alloc(), before),
        "once" => walks::once(rt.alloc(), before),
        "join-once" => walks::join(rt, before),
        _ => Err(anyhow!("no such call")),
    }
}

/// Makes the call that a line asks for.
fn perform(rt: &(impl AllocGlobal + Threads + Sync), line: &str) -> Result<Report> {
    let mut words = line.split_whitespace();
    let call = words.next().ok_or(anyhow!("no call"))?;
    let workers = words.next().ok_or(anyhow!("no workers"))?;
    let before = words.next().ok_or(anyhow!("no number of allocations"))?;
    let workers = workers.parse::<u32>()?;
    if workers < 1 || workers > 64 {
        return Err(anyhow!("1 to 64 workers"));
    }
    let before = before.parse::<u64>()?;
    make_call(rt, call, workers, before)
}

fn main(rt: HostRuntime) -> Result<()> {
    for line in rt.lines(rt.alloc()) {
        let line = line?;
        if line.as_str() == "large" {
            large::recover_all(&rt)?;
        } else {
            let report = perform(&rt, line.as_str())?;
            println!(rt; "{line}: {report}")?;
        }
    }
    Ok(())
}
