//! Reads catalogs and prints what each says, or why it is refused.
//!
//! Standard input has cases, each ended by a blank line: a line `BASE: TITLE`, then an edit of the sample catalog BASE.
//! A line `explain BASE: TITLE` asks for a description of how the edited catalog breaks a rule. Consecutive lines
//! `-LINE` are removed where they first occur in the sample, and lines `+LINE` are inserted in their place; without
//! lines `-` they are put in front of the sample. The base `nothing` is empty.
#![tactic(auto)]

mod case;
mod description;

use anyhow::Result;
use case::Case;

fn main(rt: HostRuntime) -> Result<()> {
    let mut case = Case::new(rt.alloc());
    for line in rt.lines(rt.alloc()) {
        let line = line?;
        if line.as_str().is_empty() {
            let answer = case.answer(rt.alloc())?;
            rt.print(answer.as_str())?;
            case = Case::new(rt.alloc());
        } else {
            case.read(line.as_str())?;
        }
    }
    Ok(())
}
