// What follows of the readings and settings of heads: laws of their definitions.
ghost use Rattle.ref_store.specs.Revisions.{ResolvesOnce};
ghost use Rattle.ref_store.specs.Laws.{ReadsAgree, SetHeadSets, SetTipKeeps, SetTipSets};

use git_objects::texts_have_one_reading;

/// The tip is read exactly where HEAD leads to a commit.
pub fn reads_agree()
    ensures { ReadsAgree }
{}

/// After a setting of the tip HEAD leads to the new commit, on the same branch.
pub fn set_tip_sets()
    ensures { SetTipSets }
{}

/// After a setting of HEAD it names what was set.
pub fn set_head_sets()
    ensures { SetHeadSets }
{}

/// At every moment, and in what a crash leaves, the head is the old one or the new one.
pub fn set_tip_keeps()
    ensures { SetTipKeeps }
{}

/// A revision word is read in one way, and leads to one commit or to one refusal.
pub fn resolves_once()
    ensures { ResolvesOnce }
{
    texts_have_one_reading();
}
