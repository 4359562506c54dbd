//! What a file's bytes say.
use crate::digests::Digests;
use crate::nonsense::Nonsense;
use cs_delta::Delta;
use cs_jix::JoinIndex;
use cs_segment::Segment;

/// What bytes hold under the name of a file.
#[derive(Drop)]
pub enum Content {
    /// A segment.
    Segment(Segment),
    /// A delta.
    Delta(Delta),
    /// A join index.
    Join(JoinIndex),
    /// No file of the name.
    Nonsense(Nonsense),
}

/// What a file's bytes say.
#[derive(Drop)]
pub struct FileReport {
    /// How many bytes there are.
    pub length: usize,
    /// The digest that ends them, and the one that should; none where there is no room for one.
    pub digests: Option<Digests>,
    /// What they hold.
    pub content: Content,
}
