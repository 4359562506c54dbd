//! The commands, and what they print.
ghost use Rattle.std.specs.Prelude.{◌≡◌, ◌≢◌, ◌≤◌, ◌⊎◌, IfOk, OnErr, length};
ghost use Rattle.cs_commands.specs.Commands.{LooksUp, LoadsStore, ChecksStore, RecoversStore, StopsRecovery, Stops, Performs};
ghost use Rattle.cs_commands.specs.declared.program.Answer.{Answer};
ghost use Rattle.cs_parallel_io.specs.Standing.{standing};

use crate::places::Places;
use crate::request::{DEFAULT_CUT, ONE_WORKER, Recovery, Request, WordsFault, parse};
use crate::sample;
use crate::stop::{DEVICE, DONE, Stop, report};
use cs_catalog::read_catalog;
use cs_parallel_io::{load_side_by_side, save_batch};
use cs_rebuild::{Run, check_owned, rebuild, rebuild_owned};
use cs_schema::{Catalog, Loss};
use cs_store::{FileSet, StoreFault};
use std::alloc::Global;
use std::fmt;
use std::io::Write;
use std::marker::Sync;
use std::thread::Threads;

/// What a command did. Its text goes to standard output.
#[derive(Drop)]
pub enum Answer {
    /// The sample was rebuilt: these are its files.
    Sample(FileSet),
    /// The store is sound and safe.
    Checked { rows: u64, k: u8 },
    /// This many files were written.
    Recovered { files: usize },
}

impl fmt::Display for Answer {
    fn fmt<W: fmt::Write>(&self, f: &mut fmt::Formatter<W>) -> fmt::Result {
        match self {
            Answer::Sample(files) => {
                for i in 0..files.len() {
                    let (name, bytes) = files.at(i);
                    let length = bytes.len();
                    writeln!(f, "{name} {length}")?;
                }
                let count = files.len();
                write!(f, "ok files={count}")
            }
            Answer::Checked { rows, k } => write!(f, "ok rows={rows} k={k}"),
            Answer::Recovered { files } => write!(f, "ok files={files}"),
        }
    }
}

/// Runs the command that the words ask for, prints its answer, and returns its status: 0 done, 1 the store was refused,
/// 2 usage error, 3 out of memory, 4 a file, a folder or a stream failed. Without words it rebuilds the sample.
pub fn run<R: Threads + Sync, P: Places, W: Write, E: Write>(
    rt: &R,
    alloc: Global,
    words: &[String],
    places: &mut P,
    out: &mut W,
    err: &mut E,
) -> u8
    ensures status { result ≤ 4 }
    ensures done { result ≡ DONE → (answer : Answer) × Performs P.finds (standing P.Store.answers) P.makes
        P.Output.takes P.Output.marks (length words.now) places.old places.new answer }
    // if everything was done, the answer could not be printed
    ensures stopped { result ≢ DONE
        → Stops P.finds (standing P.Store.answers) P.makes P.misses P.denies places.old places.new
        ⊎ ((answer : Answer) × Performs P.finds (standing P.Store.answers) P.makes P.Output.takes P.Output.marks
        (length words.now) places.old places.new answer) }
{
    match perform(rt, alloc, words, places) {
        Ok(answer) => match writeln!(out, "{answer}") {
            Ok(()) => DONE,
            Err(_) => DEVICE,
        },
        Err(stop) => report(&stop, err),
    }
}

/// Does what the words ask for.
fn perform<R: Threads + Sync, P: Places>(
    rt: &R,
    alloc: Global,
    words: &[String],
    places: &mut P,
) -> Result<Answer, Stop>
    ensures ok { IfOk result (Performs P.finds (standing P.Store.answers) P.makes P.Output.takes P.Output.marks
        (length words.now) places.old places.new) }
    ensures err { OnErr result (Stops P.finds (standing P.Store.answers) P.makes P.misses P.denies places.old places.new) }
{
    if words.is_empty() {
        return rebuild_sample(rt, alloc).map(Answer::Sample);
    }
    match parse(alloc, words) {
        Ok(Request::Check { k, store }) => match check_store(rt, alloc, places, store, k) {
            Ok(rows) => Ok(Answer::Checked { rows, k }),
            Err(stop) => Err(stop),
        },
        Ok(Request::Recover(recovery)) => match recover_store(rt, alloc, places, recovery) {
            Ok(files) => Ok(Answer::Recovered { files }),
            Err(stop) => Err(stop),
        },
        Err(WordsFault::Memory) => Err(Stop::Memory),
        Err(WordsFault::Usage) => Err(Stop::Usage),
    }
}

/// Rebuilds what the sample store has lost.
fn rebuild_sample<R: Threads + Sync>(rt: &R, alloc: Global) -> Result<FileSet, Stop> {
    let catalog = read_catalog(alloc, sample::CATALOG.as_bytes()).map_err(Stop::Catalog)?;
    let files = sample::survivors(alloc).map_err(|_| Stop::Memory)?;
    let loss = Loss::none().with(sample::LOST_SITE);
    rebuild(rt, alloc, &catalog, &files, loss, ONE_WORKER, DEFAULT_CUT).map_err(Stop::Store)
}

/// Checks the store at this path and returns its number of rows.
fn check_store<R: Threads + Sync, P: Places>(
    rt: &R,
    alloc: Global,
    places: &mut P,
    path: &str,
    k: u8,
) -> Result<u64, Stop>
    ensures ok { IfOk result (λ rows. ChecksStore P.finds (standing P.Store.answers)
        places.old path.now k rows places.new) }
    ensures err { OnErr result (LooksUp P.finds P.misses places.old path.now places.new) }
{
    let (catalog, files) = match load_store(rt, alloc, places, path, Loss::none()) {
        Ok(loaded) => loaded,
        Err(stop) => return Err(stop),
    };
    let run = Run {
        rt,
        alloc,
        workers: ONE_WORKER,
        cut: DEFAULT_CUT,
        gate: places.watch(),
    };
    match check_owned(&run, &catalog, k, files) {
        Ok(rows) => Ok(rows),
        Err(fault) => Err(Stop::Store(fault)),
    }
}

/// Recovers what a store has lost and returns the number of files that it wrote. The output is made only after the
/// store was accepted, and marked last.
fn recover_store<R: Threads + Sync, P: Places>(
    rt: &R,
    alloc: Global,
    places: &mut P,
    recovery: Recovery<'_>,
) -> Result<usize, Stop>
    ensures ok { IfOk result (λ count. RecoversStore P.finds (standing P.Store.answers) P.makes P.Output.takes P.Output.marks
        places.old recovery.entry.store.now recovery.entry.loss recovery.entry.output.now count places.new) }
    ensures err { OnErr result (StopsRecovery P.finds (standing P.Store.answers) P.makes P.misses P.denies
        places.old recovery.entry.store.now recovery.entry.loss recovery.entry.output.now places.new) }
{
    let Recovery {
        workers,
        cut,
        store,
        output,
        loss,
    } = recovery;
    let (catalog, files) = match load_store(rt, alloc, places, store, loss) {
        Ok(loaded) => loaded,
        Err(stop) => return Err(stop),
    };
    let run = Run {
        rt,
        alloc,
        workers,
        cut,
        gate: places.watch(),
    };
    let rebuilt = match rebuild_owned(&run, &catalog, loss, files) {
        Ok(rebuilt) => rebuilt,
        Err(fault) => return Err(Stop::Store(fault)),
    };
    let sink = match places.output(output) {
        Ok(sink) => sink,
        Err(StoreFault::Memory) => return Err(Stop::Memory),
        Err(StoreFault::Device) => return Err(Stop::MakeOutput),
    };
    match save_batch(rt, alloc, &rebuilt, sink) {
        Ok(()) => Ok(rebuilt.len()),
        Err(fault) => Err(Stop::Store(fault)),
    }
}

/// The catalog of the store at this path, and the files that survive the loss.
fn load_store<R: Threads + Sync, P: Places>(
    rt: &R,
    alloc: Global,
    places: &mut P,
    path: &str,
    loss: Loss,
) -> Result<(Catalog, FileSet), Stop>
    ensures ok { IfOk result (λ loaded. LoadsStore P.finds (standing P.Store.answers)
        places.old path.now loss loaded.0 loaded.1 places.new) }
    ensures err { OnErr result (LooksUp P.finds P.misses places.old path.now places.new) }
{
    let (bytes, store) = match places.store(path) {
        Ok(found) => found,
        Err(StoreFault::Memory) => return Err(Stop::Memory),
        Err(StoreFault::Device) => return Err(Stop::ReadCatalog),
    };
    let catalog = match read_catalog(alloc, bytes.as_slice()) {
        Ok(catalog) => catalog,
        Err(fault) => return Err(Stop::Catalog(fault)),
    };
    match load_side_by_side(rt, alloc, &catalog, loss, &store) {
        Ok(files) => Ok((catalog, files)),
        Err(fault) => Err(Stop::Store(fault)),
    }
}
