// What follows of the making of a dataset and of a save: laws of their definitions.
ghost use Rattle.recursive_save.specs.Laws.{CreateRefuses, CreateMakes, CreateKeeps};
ghost use Rattle.recursive_save.specs.Saved.{SaveIsComplete, SaveIsOne, SaveKeeps};
ghost use Rattle.recursive_save.specs.Soundness.{CreateKeepsSound, SaveKeepsSound};

use config_text::{Remote, Section, config_is_read};
use std::alloc::Global;

/// Where a fault refuses it, nothing is done.
pub fn create_refuses()
    ensures { CreateRefuses }
{}

/// Where none does, the new dataset stands, its line is said, and all of it is safe from a crash.
pub fn create_makes()
    ensures { CreateMakes }
{}

/// At every moment, and in what a crash leaves: HEAD comes with all the rest, and nothing is lost.
pub fn create_remains()
    ensures { CreateKeeps }
{}

/// On a sound ground and a settled disk: sound at every moment, and in what a crash leaves. It makes
/// two empty lists because the law of configurations that are read is over lists in memory.
pub fn create_keeps_sound(alloc: Global)
    ensures { CreateKeepsSound }
{
    let _remotes: Vec<Remote> = Vec::new(alloc);
    let _rest: Vec<Section> = Vec::new(alloc);
    config_is_read();
}

/// A save on a sound ground and a settled disk: sound at every moment, and in what a crash leaves.
pub fn save_keeps_sound()
    ensures { SaveKeepsSound }
{}

/// A save has one act, by the ground at which it starts.
pub fn save_is_one()
    ensures { SaveIsOne }
{}

/// At every moment of a save, and in what a crash leaves: nothing outside the repository has changed, the tip comes
/// with all the rest, and nothing is lost.
pub fn save_remains()
    ensures { SaveKeeps }
{}

/// A save of a sound dataset is refused only for what its user did, for a limit, or for two objects with one id.
pub fn save_is_complete()
    ensures { SaveIsComplete }
{}
