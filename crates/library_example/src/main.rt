//! Recovers two lost sites of the store in the folder `store` into a new folder `out`, with calls of the library alone.
#![tactic(auto)]

use anyhow::{Result, anyhow};
use cs_catalog::read_catalog;
use cs_folders::{FileLimits, OutputFolder, StoreFolder, read_catalog_file};
use cs_rebuild::rebuild;
use cs_schema::Loss;
use cs_store::{load, save};

/// The maximum number of threads of a round.
const WORKERS: u32 = 4;

/// The number of rows of a task.
const CUT: u32 = 65_536;

fn main(rt: HostRuntime) -> Result<()> {
    let alloc = rt.alloc();
    let text = read_catalog_file(alloc, &rt, "store").map_err(|_| anyhow!("store is not read"))?;
    let text = text.ok_or(anyhow!("there is no catalog.toml in store"))?;
    let catalog = read_catalog(alloc, text.as_slice())?;
    let lost = Loss::none().with(2).with(3);
    let mut store = StoreFolder::new(alloc, rt, "store", FileLimits::of(&catalog))?;
    let survivors = load(alloc, &catalog, lost, &mut store)?;
    let rebuilt = rebuild(&rt, alloc, &catalog, &survivors, lost, WORKERS, CUT)?;
    let mut out = OutputFolder::make(alloc, rt, "out").map_err(|_| anyhow!("out is not made"))?;
    save(&rebuilt, &mut out)?;
    for i in 0..rebuilt.len() {
        let (name, bytes) = rebuilt.at(i);
        let length = bytes.len();
        println!(rt; "{name} {length}")?;
    }
    Ok(())
}
