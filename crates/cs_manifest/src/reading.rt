//! Reads manifests.
ghost use Rattle.std.specs.Prelude.{◌≡◌, ◌+◌, ℕ, List, map, take, count_by, ◌==◌, IfOk, MatchResult};
ghost use Rattle.std.specs.Str.Lines.{lines};
ghost use Rattle.cs_manifest.specs.Reading.{IsReading, IsReadingOf};

use crate::fault::ManifestFault;
use crate::line::entry_of;
use crate::manifest::Manifest;
use std::alloc::{AllocError, Global};
use std::str;

/// Reads a manifest. Every line must have a digest and a path, and no path may occur twice. Lines may end in a carriage
/// return and a line feed. Paths may name any files.
pub fn read_manifest(alloc: Global, bytes: &[u8]) -> Result<Manifest, ManifestFault>
    ensures { IsReading bytes.now result }
{
    match str::from_utf8(bytes) {
        Ok(text) => match lines_of(alloc, text) {
            Ok(lines) => read_lines(alloc, lines.as_slice()),
            Err(_) => Err(ManifestFault::Memory),
        },
        Err(error) => Err(ManifestFault::NoText(line_at(bytes, error.valid_up_to()))),
    }
}

/// The number of the line that contains the byte at an offset, from 1.
fn line_at(bytes: &[u8], at: usize) -> usize
    ensures { result ≡ count_by (λ b. b == 10) (take at bytes.now) + 1 }
{
    let before = &bytes[..at.min(bytes.len())];
    before.iter().filter(|b| **b == b'\n').count() + 1
}

/// The lines of a text.
fn lines_of(alloc: Global, text: &str) -> Result<Vec<&str>, AllocError>
    ensures { IfOk result (λ found. map (λ line. line.now) found.items ≡ lines text.now) }
{
    text.lines().collect(alloc)
}

/// Reads the lines of a manifest.
fn read_lines(alloc: Global, lines: &[&str]) -> Result<Manifest, ManifestFault>
    ensures { IsReadingOf (map (λ line. line.now) lines.now) result }
{
    let mut manifest = Manifest::new(alloc);
    for (i, line) in lines.iter().enumerate() {
        let mut digest = [0u8; 32];
        let Some(path) = entry_of(line, &mut digest) else {
            return Err(ManifestFault::Line(i + 1));
        };
        match manifest.add(alloc, path, digest) {
            Ok(true) => {}
            Ok(false) => return Err(ManifestFault::Twice(i + 1)),
            Err(_) => return Err(ManifestFault::Memory),
        }
    }
    Ok(manifest)
}
