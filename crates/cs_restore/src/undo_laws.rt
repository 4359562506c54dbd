//! Laws over the definitions: each function does nothing, and its contract is the law.
ghost use Rattle.cs_restore.specs.Undoing.{UndoBringsBack, StoppedUndoGoesOn};

/// If the kept files are the earlier ones, an undo brings exactly those back.
pub fn undo_brings_back()
    ensures { UndoBringsBack }
{}

/// An undo that was interrupted at any moment can be run again, and ends with the same files.
pub fn stopped_undo_goes_on()
    ensures { StoppedUndoGoesOn }
{}
