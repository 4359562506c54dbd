//! Laws about the definitions. Each function does nothing; its contract is the law.
ghost use Rattle.cs_sites.specs.Laws.{FilesHaveSites, SharesAreOneStore};

use cs_parallel_io::SharedSource;

/// Each file of a catalog has a site of it, and a loss takes the file if and only if it takes the site.
pub fn files_have_sites()
    ensures { FilesHaveSites }
{}

/// If the source of each site answers for its own files what one store has, a read of all sources together gives what
/// that store has.
pub fn shares_are_one_store<S: SharedSource>()
    ensures { SharesAreOneStore S.answers }
{}
