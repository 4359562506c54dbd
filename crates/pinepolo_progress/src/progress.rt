//! Gates that show what they observe.
use crate::stage::Stage;
use cs_board::{Gate, OpenGate};
use cs_schema::Loss;

/// A gate that may show how far a verb has come. It cannot change any answer.
pub trait Progress: Gate {
    /// The verb has reached this stage, which has no pieces.
    fn reached(&self, _stage: Stage) {}

    /// This many more rows of a table were read.
    fn read_rows(&self, _more: u64) {}
    /// From now on, work is done to find out whether this loss explains a store.
    fn tried(&self, _loss: Loss) {}

    /// Nothing is shown from now on.
    fn silence(&self) {}

    /// The verb has ended: the line is erased.
    fn erase(&self) {}
}

impl Progress for OpenGate {}
