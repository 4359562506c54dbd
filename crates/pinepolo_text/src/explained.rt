//! What explains a store, and the verdict on it, in lines.
use cs_diagnosis::{Diagnosis, Reach, Verdict};
use std::fmt;

/// A line for each explanation.
#[derive(Clone, Copy)]
pub struct ExplanationLines<'a>(pub &'a Diagnosis);

/// How many rows a table has that was found.
pub fn rows_of(diagnosis: &Diagnosis, table: usize) -> u64 {
    match diagnosis.tables.get(table) {
        Some(table) => table.rows(),
        None => 0,
    }
}

/// The number of a table by its place: from 1 on.
pub fn number_of(table: usize) -> u64 {
    (table as u64).saturating_add(1)
}

impl fmt::Display for ExplanationLines<'_> {
    fn fmt<W: fmt::Write>(&self, f: &mut fmt::Formatter<W>) -> fmt::Result {
        for explanation in &self.0.explanations {
            let loss = explanation.loss;
            let rows = rows_of(self.0, explanation.table);
            let number = number_of(explanation.table);
            writeln!(
                f,
                "explained by the loss of {loss}: {rows} rows, table {number}"
            )?;
        }
        Ok(())
    }
}

/// What so many sites are called.
fn site_word(count: u8) -> &'static str {
    if count == 1 { "site" } else { "sites" }
}

/// The verdict in words.
pub fn verdict_word(verdict: Verdict) -> &'static str {
    match verdict {
        Verdict::Sound => "sound",
        Verdict::OneTable => "one table",
        Verdict::Ambiguous => "ambiguous",
        Verdict::NotRecoverable => "not recoverable",
    }
}

/// The line of the verdict.
#[derive(Clone, Copy)]
pub struct VerdictLine<'a>(pub &'a Diagnosis);

/// Until how many changed sites one table is certain.
#[derive(Clone, Copy)]
struct Certainty {
    forced: u8,
    reach: Reach,
}

impl fmt::Display for Certainty {
    fn fmt<W: fmt::Write>(&self, f: &mut fmt::Formatter<W>) -> fmt::Result {
        let Some(changed) = self.reach.certain else {
            return f.write_str("not certain: more sites are bad than may fail");
        };
        match changed {
            0 => f.write_str("certain if no other site was changed")?,
            1 => f.write_str("certain if at most 1 other site was changed")?,
            _ => write!(f, "certain if at most {changed} other sites were changed")?,
        }
        let tried = self.reach.at_most;
        if tried > self.forced.saturating_add(changed) {
            let sites = site_word(tried);
            write!(f, "; losses of up to {tried} {sites} were tried")?;
        }
        Ok(())
    }
}

impl fmt::Display for VerdictLine<'_> {
    fn fmt<W: fmt::Write>(&self, f: &mut fmt::Formatter<W>) -> fmt::Result {
        let diagnosis = self.0;
        let word = verdict_word(diagnosis.verdict);
        match diagnosis.verdict {
            Verdict::OneTable => {
                let certainty = Certainty {
                    forced: diagnosis.forced.count(),
                    reach: diagnosis.reach,
                };
                writeln!(f, "verdict: {word} ({certainty})")
            }
            Verdict::NotRecoverable => {
                let tried = diagnosis.reach.at_most;
                let sites = site_word(tried);
                writeln!(f, "verdict: {word} by the loss of at most {tried} {sites}")
            }
            _ => writeln!(f, "verdict: {word}"),
        }
    }
}
