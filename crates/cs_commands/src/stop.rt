//! Why a command ends early, and the status that tells it.
ghost use Rattle.std.specs.Prelude.{◌≡◌, ◌⊎◌};
ghost use Rattle.cs_commands.specs.Status.{status_of};

use cs_catalog::CatalogFault;
use cs_store::Fault;
use std::io::Write;
use thiserror::Error;

/// The status of a command that did what it was asked for.
pub const DONE: u8 = 0;

/// The status where the store was refused.
const REFUSED: u8 = 1;

/// The status where the words ask for nothing.
const USAGE: u8 = 2;

/// The status for want of memory.
const MEMORY: u8 = 3;

/// The status where a file, a folder or a stream failed.
pub const DEVICE: u8 = 4;

/// Why a command ends early. Its text is what standard error gets.
#[derive(Debug, Drop, Error)]
pub enum Stop {
    /// The words ask for nothing.
    #[error("usage: cs_cli [check K STORE | recover [--workers N] [--cut R] STORE OUT SITE...]")]
    Usage,
    /// Want of memory.
    #[error("fault: want of memory")]
    Memory,
    /// The store was refused, or one of its files could not be read or written.
    #[error("fault: {0}")]
    Store(Fault),
    /// The catalog was refused.
    #[error("fault: {0}")]
    Catalog(CatalogFault),
    /// The catalog could not be read.
    #[error("fault: read catalog.toml")]
    ReadCatalog,
    /// The output could not be made.
    #[error("fault: write OUT")]
    MakeOutput,
}

/// Says on `err` why a command ended early, and gives its status.
///
/// The status is that of a device where `err` can't be written.
pub fn report<E: Write>(stop: &Stop, err: &mut E) -> u8
    ensures { (result ≡ status_of stop.now) ⊎ (result ≡ DEVICE) }
{
    match writeln!(err, "{stop}") {
        Ok(()) => status(stop),
        Err(_) => DEVICE,
    }
}

/// The status that tells why a command ended early.
fn status(stop: &Stop) -> u8
    ensures { result ≡ status_of stop.now }
{
    match stop {
        Stop::Usage => USAGE,
        Stop::Memory | Stop::Store(Fault::Memory) | Stop::Catalog(CatalogFault::Memory) => MEMORY,
        Stop::Store(Fault::Read(_) | Fault::Write(_)) => DEVICE,
        Stop::Store(_) | Stop::Catalog(_) => REFUSED,
        Stop::ReadCatalog | Stop::MakeOutput => DEVICE,
    }
}
