//! The order in which names are read in parallel: each thread takes a run of consecutive names.

use cs_schema::FileName;
use std::alloc::{AllocError, Global};

/// The number of runs to which names are dealt. A thread takes one at a time.
const RUNS: usize = 8;

/// Whether this is the name of a segment.
fn is_segment(name: FileName) -> bool {
    match name {
        FileName::Seg { .. } => true,
        FileName::Del { .. } | FileName::Jix { .. } => false,
    }
}

/// Appends the names of segments, or the other names, to a list.
fn push_kind(
    list: &mut Vec<FileName>,
    names: &[FileName],
    segments: bool,
) -> Result<(), AllocError> {
    for name in names {
        if is_segment(*name) == segments {
            list.push(*name)?;
        }
    }
    Ok(())
}

/// The run for the name at an index: to and fro over the runs.
fn run_of(at: usize) -> usize {
    let place = at % RUNS;
    if at / RUNS % 2 == 0 {
        place
    } else {
        RUNS - 1 - place
    }
}

/// The names dealt to runs so that no thread has all the long files: first those of segments, whose files are the
/// longest.
pub fn dealt(alloc: Global, names: &[FileName]) -> Result<Vec<FileName>, AllocError> {
    let mut longest_first = Vec::with_capacity(alloc, names.len())?;
    push_kind(&mut longest_first, names, true)?;
    push_kind(&mut longest_first, names, false)?;
    let mut dealt = Vec::with_capacity(alloc, names.len())?;
    for run in 0..RUNS {
        for (at, name) in longest_first.iter().enumerate() {
            if run_of(at) == run {
                dealt.push(*name)?;
            }
        }
    }
    Ok(dealt)
}
