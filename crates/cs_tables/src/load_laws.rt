//! Laws about texts of tables. Each function does nothing; its contract is the law.
ghost use Rattle.cs_tables.specs.Dumping.{DumpsTheSame};

/// Whatever a store that holds a table loses, its dump is the same text, or it is refused.
pub fn dumps_the_same()
    ensures { DumpsTheSame }
{}
