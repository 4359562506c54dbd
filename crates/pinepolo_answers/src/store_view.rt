//! A store as a whole.
use crate::file_lines::FileLine;
use cs_inspection::Badness;
use cs_reports::Design;
use cs_schema::{Catalog, FileName};
use pinepolo_places::WorkKind;

/// What is said of a store as a whole.
#[derive(Drop)]
pub struct StoreView {
    /// Its catalog.
    pub catalog: Catalog,
    /// What the catalog says of losses.
    pub design: Design,
    /// Its bad files, in the order of their names.
    pub bad: Vec<(FileName, Badness)>,
    /// What is said of each of its files, in the order of their names.
    pub lines: Vec<FileLine>,
    /// What else stands in its folder.
    pub strays: Vec<String>,
    /// Which kind of work on it was left unfinished.
    pub unfinished: Option<WorkKind>,
    /// A picture of it, if that is printed in place of all this.
    pub picture: Option<String>,
}
