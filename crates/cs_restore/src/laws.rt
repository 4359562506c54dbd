//! Laws over the definitions: each function does nothing, and its contract is the law.
ghost use Rattle.cs_restore.specs.Restoring.{StoppedRestoresAgain};

/// A restore that was interrupted at any moment can be run again, and puts the same files in place.
pub fn stopped_restores_again()
    ensures { StoppedRestoresAgain }
{}
