//! Laws over the definitions: each function does nothing, and its contract is the law.
ghost use Rattle.cs_manifest.specs.RoundTrip.{LinesReadBack, ManifestsReadBack};

/// A line that was written reads back as its path and its digest, whatever lines follow.
pub fn lines_read_back()
    ensures { LinesReadBack }
{}

/// A manifest that was written reads back as the same digests, and no line of it is refused.
pub fn manifests_read_back()
    ensures { ManifestsReadBack }
{}
