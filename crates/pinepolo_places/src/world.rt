//! All that the verbs of a program find and make.
use crate::listings::Listings;
use crate::meter::Meter;
use crate::places::Places;
use crate::shelves::Shelves;
use crate::tables::Tables;

/// All that the verbs of a program find and make by path.
pub trait World: Places + Tables + Listings + Shelves + Meter {}
