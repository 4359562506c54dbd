//! Where the files of a store are written in parallel.
ghost use Rattle.std.specs.Prelude.{◌≡◌, Some, ◌≤◌, OnOk, IfErr, IsErrOf};
ghost use Rattle.cs_store.specs.Fault.{CountsFault};
ghost use Rattle.cs_store.specs.declared.fault.StoreFault.{StoreFault};

use cs_schema::FileName;
use cs_store::{Sink, StoreFault};
use std::marker::Sync;

/// Writes files, from many threads at once. Its contract says nothing of what is written.
pub trait FileWriter: Sync {
    /// Writes the whole file.
    fn write(&self, name: FileName, bytes: &[u8]) -> Result<(), StoreFault>;
}

/// A sink whose files can be written in parallel before they are put in order.
pub trait BatchSink: Sink {
    /// The type that writes the files.
    type Writer: FileWriter;

    /// What writes the files, if many threads can use it. Each file that it wrote is then put by `put_written`.
    fn writer(&self) -> Option<&Self::Writer>;

    /// Takes a file that was given to the writer, with the writer's answer.
    fn put_written(
        &mut self,
        name: FileName,
        bytes: &[u8],
        written: Result<(), StoreFault>,
    ) -> Result<(), StoreFault>
        ensures ok { OnOk result (Self.takes self.old name bytes.now self.new) }
        ensures err { IfErr result (λ fault. Self.refuses self.old (Some name) fault self.new) }
        ensures device { IsErrOf result StoreFault.Device
            → CountsFault (Self.fault_count self.old) (Self.fault_count self.new) }
        ensures counted { Self.fault_count self.old ≤ Self.fault_count self.new };
}

/// The writer type of a sink that has no writer.
#[derive(Drop)]
pub struct NoWriter;

impl FileWriter for NoWriter {
    fn write(&self, _name: FileName, _bytes: &[u8]) -> Result<(), StoreFault> {
        Err(StoreFault::Device)
    }
}
