// What follows of a status.
ghost use Rattle.tree_status.specs.Changes.{NoOtherIsSame};
ghost use Rattle.tree_status.specs.KeepingFiles.{KeptFilesAreOne};
ghost use Rattle.tree_status.specs.Status.{CleanIsUnchanged, StatusIsComplete, StatusIsOne};

/// A status ends in one way, by the ground.
pub fn status_is_one()
    ensures { StatusIsOne }
{}

/// The status of a sound dataset is refused only for a limit, or for what a save can't keep.
pub fn status_is_complete()
    ensures { StatusIsComplete }
{}

/// Nothing is among the changes exactly where nothing has changed.
pub fn clean_is_unchanged()
    ensures { CleanIsUnchanged }
{}

/// Nothing is added or deleted exactly where the new snapshot is the old one.
pub fn no_other_is_same()
    ensures { NoOtherIsSame }
{}

/// Of one ground, files are kept in one way.
pub fn kept_files_are_one()
    ensures { KeptFilesAreOne }
{}
