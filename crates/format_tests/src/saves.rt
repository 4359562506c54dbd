//! Saves to a sink with a writer, and to one without.
use crate::sinks::{Failing, Noted, Noting};
use cs_parallel_io::save_batch;
use cs_schema::FileName;
use cs_store::{Fault, FileSet};
use std::alloc::Global;
use std::cell::RefCell;
use std::marker::Sync;
use std::process::Abort;
use std::rc::Rc;
use std::test::Fail;
use std::thread::Threads;

/// Segments of one projection, each as long as its number.
fn segments(alloc: Global, count: u16) -> Result<FileSet, Fail> {
    let mut files = FileSet::new(alloc)?;
    for s in 0..count {
        let mut bytes = Vec::new(alloc);
        for _ in 0..s {
            bytes.push(7)?;
        }
        files.put(FileName::Seg { p: 0, s }, bytes)?;
    }
    Ok(files)
}

/// Saves five segments to a sink with this writer, and expects the answer, the lengths of the files that it took, and
/// the mark.
fn expect_save(
    rt: &(impl Threads + Sync + AllocGlobal + Abort),
    writer: Option<Failing>,
    answer: Result<(), Fault>,
    lengths: &[usize],
    mark: Option<u64>,
) -> Result<(), Fail> {
    let alloc = rt.alloc();
    let files = segments(alloc, 5)?;
    let nothing = Noted {
        lengths: Vec::new(alloc),
        mark: None,
    };
    let noted = Rc::new(alloc, RefCell::new(nothing))?;
    let sink = Noting::new(writer, noted.clone()?);
    let got = save_batch(rt, alloc, &files, sink);
    assert!(rt; got == answer, "the answer");
    let Ok(noted) = noted.try_borrow() else {
        return Err(Fail::from("the sink is still there"));
    };
    assert!(rt; noted.lengths.as_slice() == lengths, "what was taken");
    assert!(rt; noted.mark == mark, "the mark");
    Ok(())
}

#[test]
fn takes_what_was_written(rt: HostRuntime) -> Result<(), Fail> {
    let writer = Some(Failing { from: 5 });
    expect_save(&rt, writer, Ok(()), &[0, 1, 2, 3, 4], Some(5))
}

#[test]
fn names_the_first_that_was_not_written(rt: HostRuntime) -> Result<(), Fail> {
    let fault = Fault::Write(Some(FileName::Seg { p: 0, s: 2 }));
    let writer = Some(Failing { from: 2 });
    expect_save(&rt, writer, Err(fault), &[0, 1], None)
}

#[test]
fn puts_each_where_there_is_no_writer(rt: HostRuntime) -> Result<(), Fail> {
    expect_save(&rt, None, Ok(()), &[0, 1, 2, 3, 4], Some(5))
}
