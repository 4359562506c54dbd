//! What a restore does for each file.
ghost use Rattle.std.specs.Prelude.{◌≡◌, ◌≢◌};

use cs_schema::FileName;

/// What a restore does for the name of a rebuilt file.
#[derive(Clone, Copy, Debug, PartialEq, Eq)]
pub enum What {
    /// The name has no file yet.
    New,
    /// The name has other bytes, or something that cannot be read.
    Replaces,
    /// The name has the rebuilt bytes already.
    Same,
}

/// A rebuilt file, and what is done for its name.
#[derive(Clone, Copy, Debug, PartialEq, Eq)]
pub struct Step {
    pub name: FileName,
    pub what: What,
    /// The size of the rebuilt file, in bytes.
    pub bytes: u64,
}

/// What has to be done for a name that has the bytes `held` and is to have `bytes`.
pub fn what_of(held: &[u8], bytes: &[u8]) -> What
    ensures same { result ≡ What.Same → held.now ≡ bytes.now }
    ensures stays { held.now ≡ bytes.now → result ≡ What.Same }
    ensures stands { result ≢ What.New }
{
    if held == bytes {
        What::Same
    } else {
        What::Replaces
    }
}
