//! The verbs of pinepolo over `Places`: where stores are found, and outputs and pictures are made. A verb answers what it did, or
//! why it stopped early.
#![tactic(auto)]

mod designing;
mod diagnosing;
mod drawing;
mod dumping;
mod loading;
mod making;
mod performing;
mod recovering;
mod relaying;
mod restoring;
mod showing;
mod surviving;
mod trusted;
mod ways;

pub use performing::perform;
