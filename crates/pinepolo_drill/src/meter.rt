//! What a drill is measured by.
use cs_drill::{Trial, Watch};
use pinepolo_answers::Measure;
use pinepolo_places::Meter;
use std::alloc::{AllocError, Global};

/// Measures each loss of a drill.
#[derive(Drop)]
pub struct Stopwatch<'a, M> {
    meter: &'a M,
    /// The time at which the last loss ended.
    last: u64,
    pub measures: Vec<Measure>,
}

impl<'a, M: Meter> Stopwatch<'a, M> {
    /// The first loss begins.
    pub fn new(alloc: Global, meter: &'a M) -> Self {
        Self {
            meter,
            last: meter.milliseconds(),
            measures: Vec::new(alloc),
        }
    }
}

impl<M: Meter> Watch for Stopwatch<'_, M> {
    fn ended(&mut self, _trial: &Trial) -> Result<(), AllocError> {
        let now = self.meter.milliseconds();
        let milliseconds = now.saturating_sub(self.last);
        self.last = now;
        let peak = self.meter.peak();
        self.measures.push(Measure { milliseconds, peak })?;
        Ok(())
    }
}
