//! Records as files.
use crate::record::Record;
use cs_folders::read_bounded;
use cs_shelf::Untaken;
use cs_store::StoreFault;
use std::alloc::Global;
use std::io::Read;

/// How many bytes a record has, at most: a line for each file of a store.
pub const RECORD_LIMIT: u64 = 65_536;

/// The record that is read, if it is one.
pub fn read_record<F: Read>(alloc: Global, file: &mut F) -> Result<Record, Untaken> {
    let bytes = match read_bounded(alloc, file, RECORD_LIMIT) {
        Ok(bytes) => bytes,
        Err(StoreFault::Memory) => return Err(Untaken::Memory),
        Err(StoreFault::Device) => return Err(Untaken::Device),
    };
    record_of(alloc, bytes.as_slice())
}

/// The record that these bytes are, if they are one.
pub fn record_of(alloc: Global, bytes: &[u8]) -> Result<Record, Untaken> {
    let Ok(text) = std::str::from_utf8(bytes) else {
        return Err(Untaken::Damaged);
    };
    match Record::parse(alloc, text) {
        Ok(Some(record)) => Ok(record),
        Ok(None) => Err(Untaken::Damaged),
        Err(_) => Err(Untaken::Memory),
    }
}
