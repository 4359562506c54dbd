//! Laws about the definitions. Each function does nothing; its contract is the law.
ghost use Rattle.cs_inspection.specs.Laws.{FilesHaveOneState, BadFilesAreUnsound, SoundFilesAreGood, BadFilesTellSoundOnes, BadSitesAreForced};

/// No file is both good and bad, and a bad one is bad for one reason.
pub fn files_have_one_state()
    ensures { FilesHaveOneState }
{}

/// A bad file is not sound.
pub fn bad_files_are_unsound()
    ensures { BadFilesAreUnsound }
{}

/// A sound file is good. So if every file is sound, none is bad.
pub fn sound_files_are_good()
    ensures { SoundFilesAreGood }
{}

/// The list of bad files determines, for each file, whether it is sound. This is the premise of the law that a store
/// accepts exactly the losses that contain a site of each conflict.
pub fn bad_files_tell_sound_ones()
    ensures { BadFilesTellSoundOnes }
{}

/// Every accepted loss contains the site of every bad file.
pub fn bad_sites_are_forced()
    ensures { BadSitesAreForced }
{}
