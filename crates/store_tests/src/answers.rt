//! What a store answers to calls with few and many workers and small and large cuts, and the order in which its rounds
//! open.
use crate::rounds::Opened;
use crate::stores::Store;
use cs_rebuild::{check, check_gated, rebuild, rebuild_gated};
use cs_schema::FileName;
use cs_store::{Fault, FileSet};
use std::alloc::Global;
use std::marker::Sync;
use std::process::Abort;
use std::test::Fail;
use std::thread::Threads;
use test_support::files::sealed;
use test_support::stores::loss_of;

/// A file: its name, its length, and the bytes before its digest in hexadecimal.
pub type Written = (FileName, usize, &'static str);

/// Why a store is refused: a `Fault` without a `Loss`, since no constant can lend one.
#[derive(Clone, Copy)]
pub enum Refusal<'a> {
    Site,
    BadK,
    /// The loss of these sites is unsafe.
    Unsafe(&'a [u8]),
    Missing(FileName),
    Damaged(FileName),
    Astray { p: u16, s: u16, row: u32 },
    Twice,
    Misplaced { p: u16, s: u16 },
    Misled { p: u16, s: u16, q: u16 },
}

impl Refusal<'_> {
    fn fault(self) -> Fault {
        match self {
            Refusal::Site => Fault::Site,
            Refusal::BadK => Fault::BadK,
            Refusal::Unsafe(sites) => Fault::Unsafe(loss_of(sites)),
            Refusal::Missing(name) => Fault::Missing(name),
            Refusal::Damaged(name) => Fault::Damaged(name),
            Refusal::Astray { p, s, row } => Fault::Astray { p, s, row },
            Refusal::Twice => Fault::Twice,
            Refusal::Misplaced { p, s } => Fault::Misplaced { p, s },
            Refusal::Misled { p, s, q } => Fault::Misled { p, s, q },
        }
    }
}

/// A call of `rebuild` or `check`, and its answer.
#[derive(Drop)]
pub enum Ask<'a> {
    /// The loss of these sites costs exactly these files.
    Files(&'a [u8], &'a [Written]),
    /// The loss of these sites costs exactly these files, which are rebuilt to the bytes that they have in the store.
    Restored(&'a [u8], &'a [FileName]),
    /// A rebuild after the loss of these sites is refused.
    Refused(&'a [u8], Refusal<'a>),
    /// A check for this many lost sites.
    Checked(u8, Result<u64, Refusal<'a>>),
}

/// Calls a store and expects the answers.
pub fn expect(rt: &(impl Threads + Sync + Abort), store: &Store, asks: &[Ask]) -> Result<(), Fail> {
    for ask in asks {
        match ask {
            Ask::Files(sites, _) | Ask::Restored(sites, _) | Ask::Refused(sites, _) => {
                expect_rebuilt(rt, store, sites, ask)?;
                expect_rounds(rt, store, sites);
            }
            Ask::Checked(k, Ok(rows)) => expect_checked(rt, store, *k, Ok(*rows)),
            Ask::Checked(k, Err(refusal)) => expect_checked(rt, store, *k, Err(refusal.fault())),
        }
        if let Ask::Checked(k, _) = ask {
            expect_rounds_of_check(rt, store, *k);
        }
    }
    Ok(())
}

fn expect_rebuilt(
    rt: &(impl Threads + Sync + Abort),
    store: &Store,
    sites: &[u8],
    wanted: &Ask,
) -> Result<(), Fail> {
    let loss = loss_of(sites);
    for workers in [1u32, 2, 64] {
        for cut in [1u32, 2, 1_048_576] {
            let out = rebuild(
                rt,
                store.alloc,
                &store.catalog,
                &store.files,
                loss,
                workers,
                cut,
            );
            expect_answer(rt, store, out, wanted)?;
        }
    }
    Ok(())
}

/// Expects that the rounds of a rebuild open in order: Files, Walk, Images and Joins once each, then those of Columns,
/// if anything is lost. If it is refused, it may end after any of them.
fn expect_rounds(rt: &(impl Threads + Sync + Abort), store: &Store, sites: &[u8]) {
    let gate = Opened::none();
    let out = rebuild_gated(
        rt,
        store.alloc,
        &store.catalog,
        &store.files,
        loss_of(sites),
        2,
        1,
        &gate,
    );
    let last = gate.last_in_order();
    match out {
        Ok(files) if files.len() > 0 => assert_eq!(rt; last, Some(5)),
        Ok(_) => assert_eq!(rt; last, Some(4)),
        Err(_) => assert!(rt; last.is_some()),
    }
}

/// Expects that the rounds of a check open in order: Files, Walk, Images and Joins, once each.
fn expect_rounds_of_check(rt: &(impl Threads + Sync + Abort), store: &Store, k: u8) {
    let gate = Opened::none();
    let rows = check_gated(
        rt,
        store.alloc,
        &store.catalog,
        &store.files,
        k,
        2,
        1,
        &gate,
    );
    let last = gate.last_in_order();
    match rows {
        Ok(_) => assert_eq!(rt; last, Some(4)),
        Err(_) => assert!(rt; last.is_some()),
    }
}

fn expect_answer(
    rt: &impl Abort,
    store: &Store,
    answer: Result<FileSet, Fault>,
    wanted: &Ask,
) -> Result<(), Fail> {
    match answer {
        Ok(files) => expect_files(rt, store, &files, wanted),
        Err(fault) => expect_refused(rt, fault, wanted),
    }
}

fn expect_files(rt: &impl Abort, store: &Store, files: &FileSet, wanted: &Ask) -> Result<(), Fail> {
    match wanted {
        Ask::Files(_, wanted) => expect_written(rt, store.alloc, files, wanted),
        Ask::Restored(_, names) => expect_restored(rt, store, files, names),
        _ => Err(Fail::from("not refused")),
    }
}

fn expect_refused(rt: &impl Abort, fault: Fault, wanted: &Ask) -> Result<(), Fail> {
    let Ask::Refused(_, refusal) = wanted else {
        return Err(Fail::from("refused"));
    };
    assert_eq!(rt; fault, refusal.fault());
    Ok(())
}

/// The bytes of hexadecimal digits. Other characters are only for readers.
fn bytes_of(alloc: Global, digits: &str) -> Result<Vec<u8>, Fail> {
    let mut out = Vec::new(alloc);
    let mut high = None;
    for byte in digits.bytes() {
        let digit = match byte {
            b'0'..=b'9' => byte - b'0',
            b'a'..=b'f' => byte - b'a' + 10,
            _ => continue,
        };
        match high {
            None => high = Some(digit << 4),
            Some(bits) => {
                out.push(bits | digit)?;
                high = None;
            }
        }
    }
    Ok(out)
}

/// The file whose bytes before the digest these digits are.
fn file_of(alloc: Global, digits: &str) -> Result<Vec<u8>, Fail> {
    let body = bytes_of(alloc, digits)?;
    Ok(sealed(alloc, body.as_slice())?)
}

/// Expects exactly these files.
pub fn expect_written(
    rt: &impl Abort,
    alloc: Global,
    files: &FileSet,
    wanted: &[Written],
) -> Result<(), Fail> {
    assert_eq!(rt; files.len(), wanted.len());
    for (name, length, digits) in wanted {
        let bytes = file_of(alloc, digits)?;
        let (found, there) = (files.get(*name), Some(bytes.as_slice()));
        assert_eq!(rt; (found, bytes.len()), (there, *length), "{name}");
    }
    Ok(())
}

/// Expects exactly the files of these names, with the bytes that they have in the store.
fn expect_restored(
    rt: &impl Abort,
    store: &Store,
    files: &FileSet,
    names: &[FileName],
) -> Result<(), Fail> {
    assert_eq!(rt; files.len(), names.len());
    for name in names {
        let Some(file) = files.get(*name) else {
            return Err(Fail::from("a file is not there"));
        };
        assert_eq!(rt; Some(file), store.files.get(*name), "{name}");
    }
    Ok(())
}

fn expect_checked(
    rt: &(impl Threads + Sync + Abort),
    store: &Store,
    k: u8,
    wanted: Result<u64, Fault>,
) {
    for workers in [1u32, 2, 64] {
        for cut in [1u32, 2, 1_048_576] {
            let rows = check(
                rt,
                store.alloc,
                &store.catalog,
                &store.files,
                k,
                workers,
                cut,
            );
            assert_eq!(rt; rows, wanted);
        }
    }
}
