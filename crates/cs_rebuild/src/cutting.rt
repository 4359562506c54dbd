//! How rows are cut into pieces of work.
ghost use Rattle.std.specs.Prelude.{◌≡◌, ◌<◌, ◌≤◌, ◌+◌, ◌*◌, ◌^◌};
ghost use Rattle.cs_rebuild.specs.Encoding.{cut_at, pieces_of};

/// The number of pieces of `cut` rows, the last of which may have fewer.
pub fn count_pieces(rows: usize, cut: u32) -> u32
    requires few { rows < 2 ^ 32 }
    requires cut { 1 ≤ cut }
    ensures { (rows ≤ result * cut) × (result * cut < rows + cut) }
{
    if rows == 0 {
        return 0;
    }
    ((rows - 1) / cut as usize) as u32 + 1
}

/// The number of pieces of `cut` rows of a column with `rows` rows: at least one.
pub fn pieces_in(rows: usize, cut: u32) -> u32
    requires rows { rows ≤ 1048576 }
    requires cut { 1 ≤ cut }
    ensures count { result ≡ pieces_of rows cut }
    ensures few { (1 ≤ result) × (result ≤ 1048576) }
{
    if rows == 0 {
        return 1;
    }
    ((rows + cut as usize - 1) / cut as usize) as u32
}

/// The `k`-th piece of `cut` numbers.
pub fn cut_of(numbers: &[u32], cut: u32, k: u32) -> &[u32]
    requires { cut ≤ 1048576 }
    ensures { result.now ≡ cut_at cut numbers.now k }
{
    let from = (k as usize * cut as usize).min(numbers.len());
    let to = (from + cut as usize).min(numbers.len());
    &numbers[from..to]
}
