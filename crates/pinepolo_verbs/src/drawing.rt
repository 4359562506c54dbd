//! Pictures that are written or printed.
ghost use Rattle.std.specs.Prelude.{◌≡◌, ◌||◌, IfOk, OnOk, is_some};
ghost use Rattle.std.specs.Option.{option_map};
ghost use Rattle.pinepolo_verbs.specs.Promises.{IsDrawn, IsWritten};

use crate::ways::{make_error, require_unnamed};
use pinepolo_places::{Failure, Places, Tables, VerbError};
use std::alloc::{AllocError, Global};

/// Sees that nothing has the name of a picture yet, if one is asked for.
pub fn require_unnamed_picture<P: Tables>(
    alloc: Global,
    places: &P,
    path: Option<&str>,
) -> Result<(), VerbError> {
    match path {
        Some(path) => require_unnamed(alloc, places, path),
        None => Ok(()),
    }
}

/// Where a picture goes.
#[derive(Clone, Copy)]
pub struct Drawn<'a> {
    /// The file that it is written to.
    pub svg: Option<&'a str>,
    /// Whether it is printed.
    pub prints: bool,
}

impl Drawn<'_> {
    /// Whether a picture is asked for.
    pub fn is_asked(&self) -> bool
        ensures { result ≡ (is_some self.now.svg || self.now.prints) }
    {
        self.svg.is_some() || self.prints
    }
}

/// Writes a picture to the path that is asked for, at which nothing is yet, and hands it on if it is printed.
pub fn draw<P: Places + Tables>(
    alloc: Global,
    places: &mut P,
    to: Drawn<'_>,
    text: Result<String, AllocError>,
) -> Result<Option<String>, VerbError>
    ensures { IfOk result (λ picture. IsDrawn P.draws places.old (option_map (λ p. p.now) to.entry.svg) to.entry.prints (is_some picture) places.new) }
{
    let Ok(text) = text else {
        return Err(VerbError::OutOfMemory);
    };
    match write_if(alloc, places, to.svg, text.as_bytes()) {
        Ok(()) => Ok(printed(text, to.prints)),
        Err(error) => Err(error),
    }
}

/// A picture, if it is printed.
fn printed(text: String, prints: bool) -> Option<String>
    ensures { is_some result ≡ prints }
{
    if prints { Some(text) } else { None }
}

/// Writes a picture to a path at which nothing is yet, if one is given.
fn write_if<P: Places + Tables>(
    alloc: Global,
    places: &mut P,
    path: Option<&str>,
    bytes: &[u8],
) -> Result<(), VerbError>
    ensures { OnOk result (IsWritten P.draws places.old (option_map (λ p. p.now) path.entry) places.new) }
{
    let Some(path) = path else {
        return Ok(());
    };
    match places.picture(path, bytes) {
        Ok(()) => Ok(()),
        Err(fault) => Err(make_error(alloc, places, fault, Failure::MakeNew, path)),
    }
}
