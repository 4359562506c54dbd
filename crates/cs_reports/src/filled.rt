//! Texts with places for parts.
use std::fmt;

/// Writes the part of this number; nothing if there is none.
fn write_part<W: fmt::Write, T: fmt::Display>(
    f: &mut fmt::Formatter<W>,
    parts: &[T],
    number: &str,
) -> fmt::Result {
    match parts.get(number.parse::<usize>().unwrap_or(usize::MAX)) {
        Some(part) => write!(f, "{part}"),
        None => Ok(()),
    }
}

/// Writes a text with the parts in place of `{0}`, `{1}` and so on.
pub fn fill<W: fmt::Write, T: fmt::Display>(
    f: &mut fmt::Formatter<W>,
    text: &str,
    parts: &[T],
) -> fmt::Result {
    for piece in text.split('}') {
        match piece.split_once('{') {
            Some((before, number)) => {
                f.write_str(before)?;
                write_part(f, parts, number)?;
            }
            None => f.write_str(piece)?,
        }
    }
    Ok(())
}
