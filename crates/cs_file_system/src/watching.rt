//! Who is told how far work on files has come.

/// What is done with a file.
#[derive(Clone, Copy, Debug, PartialEq, Eq)]
pub enum FileStep {
    /// It is read.
    Read,
    /// What stands under its name is kept.
    Keep,
    /// It is written, put in place and read back.
    Write,
}

/// Is told of each file that is begun, and of the bytes that were read or written. It changes no answer.
pub trait Watch {
    /// So many more bytes are to be read.
    fn expects(&self, bytes: u64);

    /// A step with a file of this site is begun; without one, the site is not known.
    fn begins(&self, step: FileStep, site: Option<u8>);

    /// So many more bytes were read or written.
    fn moves(&self, bytes: u64);
}
