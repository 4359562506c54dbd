//! What a dump answers.
use pinepolo_places::WorkKind;

/// A table that was written as CSV.
#[derive(Drop)]
pub struct Dumped {
    /// The text, where it goes to standard output.
    pub text: Option<Vec<u8>>,
    /// How many bytes the text has.
    pub bytes: usize,
    /// Which kind of work on the store was left unfinished.
    pub unfinished: Option<WorkKind>,
}
