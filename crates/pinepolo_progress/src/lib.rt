//! How far work has come: a gate that counts what it observes, and shows it on a terminal as one line.
//!
//! A gate changes no answer. Whoever begins a piece counts it, and writes the line if one is due and nobody else is
//! writing. So nobody waits, and no thread exists only to show progress.
#![tactic(auto)]

mod line;
mod lines_read;
mod progress;
mod shown;
mod stage;
mod tried;

pub use cs_board::OpenGate;
pub use line::ProgressLine;
pub use lines_read::LinesRead;
pub use progress::Progress;
pub use shown::Shown;
pub use stage::Stage;
