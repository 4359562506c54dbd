//! The first and the last of many.
ghost use Rattle.std.specs.Prelude.{◌≤◌};

/// How many are shown from either end.
const ENDS: usize = 3;

/// Where the first of so many end that are shown.
pub fn first_end(count: usize) -> usize
    ensures { result ≤ count }
{
    if count < ENDS { count } else { ENDS }
}

/// Where the last of so many begin that are shown and are none of the first.
pub fn last_begin(count: usize) -> usize
    ensures { result ≤ count }
{
    let end = first_end(count);
    if count - end > ENDS {
        count - ENDS
    } else {
        end
    }
}

/// Whether some of so many are left out.
pub fn has_gap(count: usize) -> bool {
    first_end(count) < last_begin(count)
}
