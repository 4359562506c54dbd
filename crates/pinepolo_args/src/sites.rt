//! Sites by their numbers.
ghost use Rattle.std.specs.Prelude.{◌≡◌, IfSome};
ghost use Rattle.clap.specs.Words.{found_of, rows_of};
ghost use Rattle.pinepolo_args.specs.Meanings.{sites_in};

use clap::ArgMatches;
use cs_schema::Loss;

/// The sites that an argument gives; none if one is not from 1 to 16. A site may be given more than once.
pub fn sites_of(found: &ArgMatches<'_>, argument: &str) -> Option<Loss>
    ensures { IfSome result (λ sites. sites ≡ sites_in (rows_of (found_of found.now)) argument.now) }
{
    let mut loss = Loss::none();
    let Some(sites) = found.get_many::<u8>(argument) else {
        return Some(loss);
    };
    for site in sites {
        match site {
            Ok(site) if (1..=16).contains(&site) => loss = loss.with(site),
            _ => return None,
        }
    }
    Some(loss)
}
