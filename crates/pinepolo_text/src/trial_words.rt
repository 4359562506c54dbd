//! A loss of a drill in one line.
use cs_drill::{Outcome, Rebuilt, Trial};
use cs_reports::FaultWords;
use cs_schema::{Catalog, Loss};
use pinepolo_answers::Measure;
use std::fmt;

/// The sites of a loss, or a stroke if there is none.
#[derive(Clone, Copy)]
pub struct Lost(pub Loss);

impl fmt::Display for Lost {
    fn fmt<W: fmt::Write>(&self, f: &mut fmt::Formatter<W>) -> fmt::Result {
        let loss = self.0;
        if loss.count() == 0 {
            return f.write_str("-");
        }
        write!(f, "{loss}")
    }
}

/// What a loss took: seconds and memory.
#[derive(Clone, Copy)]
pub struct MeasureWords(pub Measure);

impl fmt::Display for MeasureWords {
    fn fmt<W: fmt::Write>(&self, f: &mut fmt::Formatter<W>) -> fmt::Result {
        let Measure { milliseconds, peak } = self.0;
        let (seconds, rest) = (milliseconds / 1000, milliseconds % 1000);
        match peak {
            Some(peak) => {
                let mebibytes = peak / 1024;
                write!(f, "{seconds}.{rest:03} s, {mebibytes} MiB")
            }
            None => write!(f, "{seconds}.{rest:03} s, memory unknown"),
        }
    }
}

/// How rebuilt files compare with what stands.
fn compared_text(rebuilt: &Rebuilt) -> &'static str {
    match (rebuilt.is_same, rebuilt.first_other) {
        (true, None) => "same bytes",
        (true, Some(_)) => "same rows in other bytes, first ",
        (false, None) => "DIFFERENT",
        (false, Some(_)) => "DIFFERENT, first ",
    }
}

/// A loss that was tried, with what came of it and what it took.
#[derive(Clone, Copy)]
pub struct TrialLine<'a> {
    pub catalog: &'a Catalog,
    pub trial: &'a Trial,
    pub measure: Measure,
}

impl TrialLine<'_> {
    /// What came of it.
    fn write_outcome<W: fmt::Write>(&self, f: &mut fmt::Formatter<W>) -> fmt::Result {
        match &self.trial.outcome {
            Outcome::Rebuilt(rebuilt) => {
                let (rows, files) = (rebuilt.rows, rebuilt.files);
                let text = compared_text(rebuilt);
                write!(f, "rows={rows} files={files}  {text}")?;
                match rebuilt.first_other {
                    Some(name) => write!(f, "{name}"),
                    None => Ok(()),
                }
            }
            Outcome::Refused(fault) => {
                let catalog = self.catalog;
                let words = FaultWords { catalog, fault };
                write!(f, "NOT REBUILT: {words}")
            }
        }
    }
}

impl fmt::Display for TrialLine<'_> {
    fn fmt<W: fmt::Write>(&self, f: &mut fmt::Formatter<W>) -> fmt::Result {
        let lost = Lost(self.trial.loss);
        let measure = MeasureWords(self.measure);
        write!(f, "lost {lost}  ")?;
        self.write_outcome(f)?;
        writeln!(f, "  {measure}")
    }
}
