//! A case: a sample catalog, an edit of it, and what is read of the result.
use crate::description::describe;
use anyhow::{Result, anyhow};
use cs_catalog::{Explanation, explain, read_catalog};
use cs_schema::samples::{CITIES, SPLIT_COLUMNS, THREE_PROJECTIONS, TWO_ORDERS};
use std::alloc::{AllocError, Global};

/// The lines of a case so far.
#[derive(Drop)]
pub struct Case {
    /// The base and the title.
    head: String,
    /// The lines to remove.
    old: String,
    /// The lines to insert in their place.
    new: String,
}

/// Appends a line.
fn push_line(text: &mut String, line: &str) -> Result<(), AllocError> {
    text.push_str(line)?;
    text.push_str("\n")
}

/// A sample catalog by its name.
fn sample(name: &str) -> Option<&'static str> {
    match name {
        "nothing" => Some(""),
        "two_orders" => Some(TWO_ORDERS),
        "cities" => Some(CITIES),
        "three_projections" => Some(THREE_PROJECTIONS),
        "split_columns" => Some(SPLIT_COLUMNS),
        _ => None,
    }
}

/// What a catalog's text says, or the rule that it breaks.
fn read(alloc: Global, text: &str) -> Result<String> {
    match read_catalog(alloc, text.as_bytes()) {
        Ok(catalog) => {
            let said = describe(alloc, &catalog)?;
            Ok(format!(in alloc; "read\n{said}")?)
        }
        Err(fault) => Ok(format!(in alloc; "{fault}\n")?),
    }
}

/// The rule that a catalog's text breaks, with a description.
fn explained(alloc: Global, text: &str) -> Result<String> {
    let line = match explain(alloc, text.as_bytes())? {
        Some(found) => line_of(alloc, &found),
        None => "breaks no rule\n".to_string(alloc),
    };
    Ok(line?)
}

fn line_of(alloc: Global, found: &Explanation) -> Result<String, AllocError> {
    let (rule, words) = (found.rule, found.words.as_str());
    format!(in alloc; "{rule}: {words}\n")
}

impl Case {
    /// A case without lines.
    pub fn new(alloc: Global) -> Case {
        Case {
            head: String::new(alloc),
            old: String::new(alloc),
            new: String::new(alloc),
        }
    }

    /// Adds a line.
    pub fn read(&mut self, line: &str) -> Result<(), AllocError> {
        if let Some(old) = line.strip_prefix("-") {
            push_line(&mut self.old, old)
        } else if let Some(new) = line.strip_prefix("+") {
            push_line(&mut self.new, new)
        } else {
            self.head.push_str(line)
        }
    }

    /// The sample of this name, edited.
    fn edited(&self, alloc: Global, name: &str) -> Result<String> {
        let Some(sample) = sample(name) else {
            return Err(anyhow!("no such sample"));
        };
        let Some((before, after)) = sample.split_once(self.old.as_str()) else {
            return Err(anyhow!("the sample has no such lines"));
        };
        let new = self.new.as_str();
        Ok(format!(in alloc; "{before}{new}{after}")?)
    }

    /// The title, and the answer for the edited catalog.
    pub fn answer(&self, alloc: Global) -> Result<String> {
        let Some((base, title)) = self.head.as_str().split_once(": ") else {
            return Err(anyhow!("a case begins with its base"));
        };
        let said = match base.strip_prefix("explain ") {
            Some(name) => explained(alloc, self.edited(alloc, name)?.as_str())?,
            None => read(alloc, self.edited(alloc, base)?.as_str())?,
        };
        Ok(format!(in alloc; "{title}: {said}")?)
    }
}
