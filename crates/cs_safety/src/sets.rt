//! Sets of small numbers as the bits of a word: 8 bits for projections, 32 for columns.
ghost use Rattle.std.specs.Prelude.{◌≡◌, ℕ, ◌<◌, ◌==◌, ◌||◌, ◌&&◌};
ghost use Rattle.cs_safety.specs.NumberSets.{is_in};

/// A set of projections.
pub type Projections = u8;

/// A set of columns.
pub type Columns = u32;

/// Whether the projection is in the set.
pub fn has(set: Projections, p: u8) -> bool
    requires { p < 8 }
    ensures { result ≡ is_in set p }
{
    (set >> p) % 2 == 1
}

/// The set with this projection added.
pub fn with(set: Projections, p: u8) -> Projections
    requires { p < 8 }
    ensures { (k : ℕ) → is_in result k ≡ (k == p || is_in set k) }
{
    set | (1 << p)
}

/// The union of two sets.
pub fn join(a: Projections, b: Projections) -> Projections
    ensures { (k : ℕ) → is_in result k ≡ (is_in a k || is_in b k) }
{
    a | b
}

/// The intersection of two sets.
pub fn meet(a: Projections, b: Projections) -> Projections
    ensures { (k : ℕ) → is_in result k ≡ (is_in a k && is_in b k) }
{
    a & b
}

/// Whether the column is in the set.
pub fn has_column(set: Columns, c: u8) -> bool
    requires { c < 32 }
    ensures { result ≡ is_in set c }
{
    (set >> c) % 2 == 1
}

/// The set with this column added.
pub fn with_column(set: Columns, c: u8) -> Columns
    requires { c < 32 }
    ensures { (k : ℕ) → is_in result k ≡ (k == c || is_in set k) }
{
    set | (1 << c)
}
