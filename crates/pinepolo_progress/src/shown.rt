//! What the line says.
use crate::stage::Stage;
use cs_board::Round;
use cs_schema::Loss;
use std::fmt;

/// How far a verb has come. Its `Display` is one line.
#[derive(Clone, Copy, Debug)]
pub struct Shown {
    /// The current stage.
    pub stage: Stage,
    /// The loss that is tried, if any.
    pub tried: Option<Loss>,
    /// The number of rounds that were opened.
    pub rounds: u64,
    /// The number of pieces of the round, with those of rounds that were open when it began.
    pub pieces: u64,
    /// The number of pieces that have begun.
    pub begun: u64,
    /// The number of rows of a table that were read.
    pub read: u64,
    /// The number of bytes of files that are to be read, or 0 if it is not known.
    pub expected: u64,
    /// The number of bytes of files that were read or written.
    pub moved: u64,
    /// The site of the file that was begun last, or 0.
    pub site: u64,
    /// The number of rows of a piece of a walk. The last piece of a segment may have fewer.
    pub piece_rows: u64,
}

/// The number of bytes of a megabyte.
const MEGABYTE: u64 = 1_000_000;

impl Shown {
    /// Displays how far work on files has come.
    fn fmt_files<W: fmt::Write>(&self, f: &mut fmt::Formatter<W>) -> fmt::Result {
        let Shown {
            stage,
            expected,
            moved,
            site,
            ..
        } = *self;
        write!(f, "{stage}")?;
        if site != 0 {
            write!(f, " of site {site}")?;
        }
        if moved == 0 && expected == 0 {
            return Ok(());
        }
        write!(f, ", {}", moved / MEGABYTE)?;
        if expected >= moved {
            write!(f, " of {}", expected / MEGABYTE)?;
        }
        f.write_str(" MB")
    }
}

impl fmt::Display for Shown {
    fn fmt<W: fmt::Write>(&self, f: &mut fmt::Formatter<W>) -> fmt::Result {
        let Shown {
            stage,
            tried,
            rounds,
            pieces,
            begun,
            read,
            piece_rows,
            ..
        } = *self;
        let round = match stage {
            Stage::Round(round) => round,
            Stage::Table => return write!(f, "{stage}, about {read} rows"),
            Stage::Inspecting => return write!(f, "{stage}"),
            Stage::Reading | Stage::Writing | Stage::Keeping => return self.fmt_files(f),
        };
        if let Some(loss) = tried {
            write!(f, "trying the loss of {loss}, ")?;
        }
        write!(f, "round {rounds}, {round}: piece {begun} of {pieces}")?;
        if round != Round::Walk {
            return Ok(());
        }
        let rows = begun.saturating_mul(piece_rows);
        let all = pieces.saturating_mul(piece_rows);
        write!(f, ", about {rows} of {all} rows")
    }
}
