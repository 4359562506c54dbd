//! What undos of stores in memory put back.
ghost use Rattle.std.specs.Prelude.{◌≡◌, true, None, OnOk};

use crate::standing::{Standing, copy_files};
use cs_restore::names_of;
use cs_schema::FileName;
use cs_shelf::MemoryShelf;
use cs_store::FileSet;
use pinepolo_places::{GivenBack, UndoOf, Undoable, Untaken, Work};
use std::alloc::{AllocError, Global};

/// The names under which the files differ.
fn changed(alloc: Global, old: &FileSet, new: &FileSet) -> Result<Vec<FileName>, AllocError> {
    let mut names = Vec::new(alloc);
    for name in &names_of(alloc, old)? {
        if old.get(*name) != new.get(*name) {
            names.push(*name)?;
        }
    }
    for name in &names_of(alloc, new)? {
        if old.get(*name).is_none() {
            names.push(*name)?;
        }
    }
    names.sort_unstable();
    Ok(names)
}

/// What is put back once more.
fn copy_undoable(alloc: Global, undoable: &Undoable) -> Result<Undoable, AllocError> {
    Ok(Undoable {
        number: undoable.number,
        back: copy_files(alloc, &undoable.back)?,
        names: undoable.names.clone()?,
        moved: undoable.moved.clone()?,
    })
}

/// The number of what is to be undone.
pub fn number_of(store: &Standing, asked: UndoOf) -> Result<u32, Untaken> {
    match (asked, store.restoring) {
        (UndoOf::Unfinished, Some(Work::Undo(number))) => Ok(number),
        (UndoOf::Unfinished, None) => Err(Untaken::Finished),
        (_, Some(Work::Restore(_))) => Err(Untaken::Unfinished),
        (_, Some(Work::Undo(_))) => Err(Untaken::UnfinishedUndo),
        (UndoOf::Number(number), None) => Ok(number),
        (UndoOf::Last, None) => match store.undoable.last() {
            Some(undoable) => Ok(undoable.number),
            None => Err(Untaken::NoneKept(None)),
        },
    }
}

/// What an undo of this number puts back.
pub fn undoable_of(alloc: Global, store: &Standing, number: u32) -> Result<Undoable, Untaken> {
    for undoable in &store.undoable {
        if undoable.number == number {
            return match copy_undoable(alloc, undoable) {
                Ok(undoable) => Ok(undoable),
                Err(_) => Err(Untaken::Memory),
            };
        }
    }
    Err(Untaken::NoneKept(Some(number)))
}

/// Adds what finished work changed, which began with some files and ended with others, to what can be undone. The number
/// under which old files are kept, where some are.
fn add_undoable(
    alloc: Global,
    earlier: &mut Vec<Undoable>,
    begun: FileSet,
    files: &FileSet,
) -> Result<Option<u32>, AllocError> {
    let names = changed(alloc, &begun, files)?;
    if names.is_empty() {
        return Ok(None);
    }
    let number = match earlier.last() {
        Some(undoable) => undoable.number.saturating_add(1),
        None => 1,
    };
    let mut kept = None;
    for name in &names {
        if begun.get(*name).is_some() {
            kept = Some(number);
        }
    }
    earlier.push(Undoable {
        number,
        back: begun,
        names,
        moved: Vec::new(alloc),
    })?;
    Ok(kept)
}

/// Puts what a shelf holds in the place of what stood in its store, whose work is finished or ended early.
pub fn put_shelf(
    alloc: Global,
    store: &mut Standing,
    shelf: MemoryShelf,
    is_finished: bool,
) -> Result<GivenBack, AllocError>
    ensures files { OnOk result (store.new.files ≡ shelf.files) }
    ensures kept { OnOk result (store.new.kept ≡ shelf.kept) }
    ensures restoring { OnOk result (is_finished ≡ true → store.new.restoring ≡ None) }
{
    let is_unfinished = !is_finished && !shelf.past.is_empty();
    let changed = shelf.past.len() as u64;
    store.files = shelf.files;
    store.kept = shelf.kept;
    let mut kept = None;
    if is_finished {
        if let Some(begun) = store.begun.take() {
            kept = add_undoable(alloc, &mut store.undoable, begun, &store.files)?;
        }
    }
    if !is_unfinished {
        store.restoring = None;
        store.begun = None;
    }
    Ok(GivenBack {
        kept,
        changed,
        is_unfinished,
        is_synced: true,
    })
}
