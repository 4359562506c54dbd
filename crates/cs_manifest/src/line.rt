//! One line of a manifest.
ghost use Rattle.std.specs.Prelude.{◌≡◌, ◌≢◌, ◌++◌, [], OnOk, MatchOption, Some, None};
ghost use Rattle.cs_manifest.specs.Lines.{line_of, entry_in, path_after};

use std::alloc::AllocError;

/// The path of a store's catalog.
pub const CATALOG: &str = "catalog.toml";

/// Appends the line of a file.
pub fn push_line(text: &mut Vec<u8>, path: &str, digest: &[u8; 32]) -> Result<(), AllocError>
    ensures { OnOk result (text.new.items ≡ text.old.items ++ line_of path.now digest.now) }
{
    let mut digits = [0u8; 64];
    let _ = hex::encode_to_slice(digest.as_slice(), &mut digits);
    text.extend_from_slice(&digits)?;
    text.extend_from_slice(b"  ")?;
    text.extend_from_slice(path.as_bytes())?;
    text.push(b'\n')?;
    Ok(())
}

/// The path in a line, whose digest is written into `digest`; `None` if it is not a line of a manifest.
pub fn entry_of<'a>(line: &'a str, digest: &mut [u8; 32]) -> Option<&'a str>
    ensures { MatchOption result (entry_in line.now ≡ None)
        (λ path. entry_in line.now ≡ Some (path.now, digest.new)) }
{
    let Some((digits, rest)) = line.split_once(' ') else {
        return None;
    };
    let Some(path) = unmarked(rest) else {
        return None;
    };
    match hex::decode_to_slice(digits.as_bytes(), digest) {
        Ok(()) => Some(path),
        Err(_) => None,
    }
}

/// The path after the mark of text or binary mode, a space or a star; `None` if either is missing.
fn unmarked(rest: &str) -> Option<&str>
    ensures { MatchOption result (path_after rest.now ≡ None) (λ path. path_after rest.now ≡ Some path.now) }
{
    match rest.strip_prefix(' ') {
        Some(path) => some_path(path),
        None => match rest.strip_prefix('*') {
            Some(path) => some_path(path),
            None => None,
        },
    }
}

/// A path that is not empty.
fn some_path(path: &str) -> Option<&str>
    ensures { MatchOption result (path.now ≡ []) (λ same. (same.now ≡ path.now) × (path.now ≢ [])) }
{
    if path.is_empty() { None } else { Some(path) }
}
