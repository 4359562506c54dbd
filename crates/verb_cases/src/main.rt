//! Runs pinepolo's verbs over stores and texts in memory, and prints what each says and its status.
//!
//! Standard input has lines: the words of a verb; or `rm STORE FILE..`, which removes files, `damage STORE FILE..`, which puts
//! other bytes in their place, `stop CALLS`, by which the next store that is taken stops after so many calls, and `list PATH`,
//! which prints what stands at a path, with its sizes in bytes. `designs CASE` prints a design of a worked catalog, `diagnoses`
//! what a diagnosis says of small stores that were changed, and `restores` what comes of restores that are stopped.
#![tactic(auto)]

mod changes;
mod design_catalogs;
mod design_growth;
mod designs;
mod diagnosed_stores;
mod diagnoses;
mod diagnosis_cases;
mod diagnosis_changes;
mod files;
mod names;
mod outputs;
mod places;
mod shelves;
mod small_stores;
mod standing;
mod stopped_restores;
mod stopped_undos;
mod stops;
mod sums;
mod tables;
mod undos;
mod verbs;

use anyhow::{Result, anyhow};
use changes::{change, list};
use cs_schema::samples::CITIES;
use cs_shelf::Stop;
use designs::answer;
use diagnosed_stores::tell_diagnoses;
use places::MemoryPlaces;
use std::alloc::Global;
use stops::tell_restores;
use sums::SUMS;
use verbs::answered;

/// The rows of the sample catalog of cities.
const TABLE: &str = "id,city,v\n3,la,3\n1,ny,7\n2,la,5\n";

/// A catalog of the same columns, all on one site.
const ONE: &str = r#"version = 1
table = "t"
key = "id"
sites = 1
[[column]]
name = "v"
kind = "int"
[[column]]
name = "id"
kind = "int"
[[column]]
name = "city"
kind = "text"
[[projection]]
name = "all"
columns = ["city", "v", "id"]
codes = [2, 4, 4]
sort = ["city", "v"]
cuts = []
sites = [1]
joins = []
"#;

/// The bytes of a damaged file.
const DAMAGE: &[u8] = b"damaged";

/// A stop after so many calls.
fn stop_of(after: &str) -> Result<Stop> {
    Ok(Stop {
        after: after.parse::<u64>()?,
        takes_effect: false,
    })
}

/// Places with two catalogs, a table and a manifest alone.
fn first_places(alloc: Global) -> Result<MemoryPlaces> {
    let mut places = MemoryPlaces::new(alloc)?;
    for (path, text) in [
        ("cities.toml", CITIES),
        ("one.toml", ONE),
        ("cities.csv", TABLE),
        ("cities.sha256", SUMS),
    ] {
        if places.put_text(path, text.as_bytes()).is_err() {
            return Err(anyhow!("out of memory"));
        }
    }
    Ok(places)
}

/// The design that a line asks for.
fn print_design<R: AllocGlobal + Print>(rt: &R, line: &str) -> Result<()> {
    let case = line.strip_prefix("designs ").unwrap_or(line);
    let answer = answer(rt.alloc(), case)?;
    rt.print(answer.as_str())?;
    Ok(())
}

fn main(rt: HostRuntime) -> Result<()> {
    let alloc = rt.alloc();
    let mut places = first_places(alloc)?;
    for line in rt.lines(alloc) {
        let line = line?;
        let words: Vec<&str> = line.split_whitespace().collect(alloc)?;
        println!(rt; "$ {line}")?;
        match words.as_slice() {
            ["rm", path, names @ ..] => change(&mut places, path, names, None)?,
            ["damage", path, names @ ..] => change(&mut places, path, names, Some(DAMAGE))?,
            ["stop", after] => places.stop = Some(stop_of(after)?),
            ["list", path] => list(&rt, &places, path)?,
            ["designs", ..] => print_design(&rt, line.as_str())?,
            ["diagnoses"] => tell_diagnoses(&rt)?,
            ["restores"] => tell_restores(&rt)?,
            verb => answered(&rt, &mut places, verb)?,
        }
    }
    Ok(())
}
