//! The values of arguments, one by one.
ghost use Rattle.std.specs.Prelude.{◌≡◌, IfOk};
ghost use Rattle.clap.specs.Words.{found_of, rows_of};
ghost use Rattle.pinepolo_args.specs.Meanings.{flag, number, path, text};

use clap::ArgMatches;

/// What is wrong with a number that clap took and that cannot be read.
const NO_NUMBER: &str = "error: a number cannot be read\n";

/// Whether a flag is given.
pub fn flag_of(found: &ArgMatches<'_>, id: &str) -> bool
    ensures { result ≡ flag (rows_of (found_of found.now)) id.now }
{
    found.get_one::<bool>(id).unwrap_or(false)
}

/// The text that an argument gives, if it is given.
pub fn text_of<'a>(found: &ArgMatches<'a>, id: &str) -> Option<&'a str>
    ensures { path result ≡ text (rows_of (found_of found.now)) id.now }
{
    found.get_str(id)
}

/// The number that an argument gives, if it is given.
pub fn number_of(found: &ArgMatches<'_>, id: &str) -> Result<Option<u32>, &'static str>
    ensures { IfOk result (λ n. n ≡ number (rows_of (found_of found.now)) id.now) }
{
    match found.try_get_one::<u32>(id) {
        Ok(number) => Ok(number),
        Err(_) => Err(NO_NUMBER),
    }
}

/// The number below 256 that an argument gives, if it is given.
pub fn small_number_of(found: &ArgMatches<'_>, id: &str) -> Result<Option<u8>, &'static str>
    ensures { IfOk result (λ n. n ≡ number (rows_of (found_of found.now)) id.now) }
{
    match found.try_get_one::<u8>(id) {
        Ok(number) => Ok(number),
        Err(_) => Err(NO_NUMBER),
    }
}
