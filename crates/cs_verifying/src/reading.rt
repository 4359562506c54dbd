//! Manifests that are read.
ghost use Rattle.std.specs.Prelude.{◌≡◌, IfOk};
ghost use Rattle.cs_verifying.specs.Promises.{AreAllOf, ReadsManifest};

use cs_manifest::{Manifest, ManifestFault, read_manifest};
use cs_store::StoreFault;
use pinepolo_places::{Failure, Refusal, Tables, VerbError};
use std::alloc::Global;
use std::io;
use std::io::Read;

/// How many bytes a manifest has fewer than.
const LIMIT: u64 = 16_777_216;

/// All bytes of a stream; a fault of the device where they are too many.
fn all_bytes<I: Read + Drop>(alloc: Global, input: I) -> Result<Vec<u8>, StoreFault>
    ensures { IfOk result (λ bytes. AreAllOf (I.remaining input) bytes.items) }
{
    let mut bytes = Vec::new(alloc);
    match input.take(LIMIT).read_to_end(&mut bytes) {
        Ok(_) => {
            if (bytes.len() as u64) < LIMIT {
                Ok(bytes)
            } else {
                Err(StoreFault::Device)
            }
        }
        Err(error) => {
            if error.kind() == io::ErrorKind::OutOfMemory {
                Err(StoreFault::Memory)
            } else {
                Err(StoreFault::Device)
            }
        }
    }
}

/// The manifest at this path.
pub fn manifest_at<P: Tables>(
    alloc: Global,
    places: &mut P,
    path: &str,
) -> Result<Manifest, VerbError>
    ensures { IfOk result (λ manifest. ReadsManifest P.opens_table P.Input.remaining places.old path.now manifest places.new) }
{
    let bytes = match places.table(path) {
        Ok(input) => all_bytes(alloc, input),
        Err(fault) => Err(fault),
    };
    let bytes = match bytes {
        Ok(bytes) => bytes,
        Err(fault) => {
            return Err(VerbError::of_device(alloc, fault, Failure::ReadManifest, path));
        }
    };
    match read_manifest(alloc, bytes.as_slice()) {
        Ok(manifest) => Ok(manifest),
        Err(ManifestFault::Memory) => Err(VerbError::OutOfMemory),
        Err(fault) => Err(VerbError::refused_by(alloc, Refusal::NotManifest, path, &fault)),
    }
}
