//! What a look at a catalog answers.
use cs_reports::Design;
use cs_schema::Catalog;

/// What a catalog says of losses.
#[derive(Drop)]
pub struct Designed {
    /// The catalog.
    pub catalog: Catalog,
    /// What it says.
    pub design: Design,
    /// A picture of the placement, if it is printed in place of that.
    pub picture: Option<String>,
}
