// What the grammar says of all words.
ghost use Rattle.dl_words.specs.Laws.{AskOnce, EndsOnce, HaveMeaning};

/// Words ask for at most one thing.
pub fn one_meaning()
    ensures { AskOnce }
{}

/// Reading ends at most at one index.
pub fn ends_once()
    ensures { EndsOnce }
{}

/// All words ask for something, or reading ends at an index.
pub fn have_meaning()
    ensures { HaveMeaning }
{}
