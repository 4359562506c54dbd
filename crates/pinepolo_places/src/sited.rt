//! Stores whose sites stand in folders of their own.

/// A site whose folder is away: it is not there, cannot be read, is no folder, or has no copy of the catalog.
#[derive(Debug, Drop)]
pub struct AwaySite {
    /// The number of the site, from 1.
    pub site: u8,
    /// The path of its folder.
    pub folder: String,
}

/// Where the sites of a store stand, if each has a folder of its own.
#[derive(Clone, Copy)]
pub struct Sited<'a> {
    /// The path of the SITES file.
    pub file: &'a str,
    /// The sites whose folders are away, by their numbers.
    pub away: &'a [AwaySite],
}
