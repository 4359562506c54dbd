//! Laws about the bodies of columns. Each function does nothing; its contract is the law.
ghost use Rattle.cs_piece.specs.Columns.{HaveOneColumn, ColumnTextsAreShort};

/// No two columns of one kind have the same body under one code.
pub fn texts_are_of_one_column()
    ensures { HaveOneColumn }
{}

/// The body of a column has fewer than 2^32 bytes.
pub fn texts_are_short()
    ensures { ColumnTextsAreShort }
{}
