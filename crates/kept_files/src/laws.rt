// What holds of how files are kept.
ghost use Rattle.kept_files.specs.Laws.{KeptIsOne};

/// A file is kept in one way.
pub fn kept_is_one()
    ensures { KeptIsOne }
{}
