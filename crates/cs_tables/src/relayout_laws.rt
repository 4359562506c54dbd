//! Laws about tables that are moved into other stores. Each function does nothing; its contract is the law.
ghost use Rattle.cs_tables.specs.RelayoutLaws.{DumpsLoadBack, SurvivorsAreLaidOut, TablesComeBack};

/// A table laid out under another catalog with the same columns is a table of that, and laid out under its own again it
/// is the same table.
pub fn tables_come_back()
    ensures { TablesComeBack }
{}

/// If the survivors of a safe loss hold a table, and the new catalog has room for it, the answer is files that hold it,
/// unless memory runs out.
pub fn survivors_are_laid_out()
    ensures { SurvivorsAreLaidOut }
{}

/// Files loaded from the dump of a store hold its table, whatever the store had lost.
pub fn dumps_load_back()
    ensures { DumpsLoadBack }
{}
