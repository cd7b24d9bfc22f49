// What follows of a log.
ghost use Rattle.history.specs.Complete.{LogIsComplete, LogOfNameIsComplete};
ghost use Rattle.history.specs.Logs.{LogIsOne};

use git_objects::texts_have_one_reading;
use ref_store::resolves_once;

/// Of one ground a log ends in one way.
pub fn log_is_one()
    ensures { LogIsOne }
{
    resolves_once();
    texts_have_one_reading();
}

/// On a sound ground a log is refused for what the word asks for or for a limit, and for nothing that the program
/// itself has left there.
pub fn log_is_complete()
    ensures { LogIsComplete }
{}

/// On a sound ground the log of HEAD, or of a branch that stands, is refused for a limit alone. Of a branch whose name
/// is 40 hexadecimal digits it says nothing, since these are an id.
pub fn log_of_name_is_complete()
    ensures { LogOfNameIsComplete }
{}
