// What keeps a ground sound: each function is a law, and does nothing.
ghost use Rattle.dataset.specs.Laws.{WholeStays, WholeMeans, WalksServe, LooksNowhereElse, LessTmpIsSound};
ghost use Rattle.dataset.specs.Laws.{EmptyIsSound, ObjectsKeep, SomeAreIntact, TipKeeps, UnwatchedKeeps, OneFileKeeps};
ghost use Rattle.dataset.specs.Laws.{SameKeeps, RoundsKeep, MoreRounds};
ghost use Rattle.dataset.specs.Births.{BirthKeeps};
ghost use Rattle.dataset.specs.Contents.{ContentsKeep, LogsKeep};
ghost use Rattle.dataset.specs.Leads.{BranchKeeps, LeadKeeps};
ghost use Rattle.dataset.specs.Moments.{RestIsSettled, ActsStaySound};
ghost use Rattle.dataset.specs.Readable.{SoundIsReadable, WholeTellsPointers};
ghost use Rattle.dataset.specs.Steps.{BindKeeps, PutObjectsKeep, PutObjectsLeave, PutsKeep, PutsLeave, StillStepsKeep};
ghost use Rattle.dataset.specs.Refs.{SaveIsSound, SetHeadIsSound, SetTipIsSound};
ghost use Rattle.dataset.specs.Saves.{PutAreHeld, NoFaultIsFree, NewCommitIsWhole, SaveKeeps, FlatSaveIsSave};

/// What is whole stays whole.
pub fn whole_stays()
    ensures { WholeStays }
{}

/// What whole commits are.
pub fn whole_means()
    ensures { WholeMeans }
{}

/// Whole commits by walks.
pub fn walks_serve()
    ensures { WalksServe }
{}

/// Soundness, heads and held objects look at watched places alone.
pub fn looks_nowhere_else()
    ensures { LooksNowhereElse }
{}

/// Unfinished writes may go.
pub fn less_tmp_is_sound()
    ensures { LessTmpIsSound }
{}

/// What a sound dataset has is read, but for what is past a limit.
pub fn sound_is_readable()
    ensures { SoundIsReadable }
{}

/// The pointers in the snapshot of a whole commit are found.
pub fn whole_tells_pointers()
    ensures { WholeTellsPointers }
{}

/// The empty ground is sound.
pub fn empty_is_sound()
    ensures { EmptyIsSound }
{}

/// Putting objects keeps a ground sound.
pub fn objects_keep()
    ensures { ObjectsKeep }
{}

/// So does any part of it.
pub fn some_are_intact()
    ensures { SomeAreIntact }
{}

/// Setting a tip keeps a ground sound.
pub fn tip_keeps()
    ensures { TipKeeps }
{}

/// A file of any branch that gets a whole commit.
pub fn branch_keeps()
    ensures { BranchKeeps }
{}

/// HEAD that is led to a branch, or to a commit.
pub fn lead_keeps()
    ensures { LeadKeeps }
{}

/// Contents that are put keep a ground sound.
pub fn contents_keep()
    ensures { ContentsKeep }
{}

/// So do logs that are set.
pub fn logs_keep()
    ensures { LogsKeep }
{}

/// A round of unwatched places keeps a ground sound.
pub fn unwatched_keeps()
    ensures { UnwatchedKeeps }
{}

/// A round of one file.
pub fn one_file_keeps()
    ensures { OneFileKeeps }
{}

/// Two rounds that do the same at watched places.
pub fn same_keeps()
    ensures { SameKeeps }
{}

/// Rounds that keep a ground sound do so in a row.
pub fn rounds_keep()
    ensures { RoundsKeep }
{}

/// More rounds, and the last ground.
pub fn more_rounds()
    ensures { MoreRounds }
{}

/// Objects that were put are held.
pub fn put_are_held()
    ensures { PutAreHeld }
{}

/// Where the store finds no fault, nothing else stands.
pub fn no_fault_is_free()
    ensures { NoFaultIsFree }
{}

/// A new commit is whole.
pub fn new_commit_is_whole()
    ensures { NewCommitIsWhole }
{}

/// The rounds of a save keep a ground sound.
pub fn save_keeps()
    ensures { SaveKeeps }
{}

/// The objects of a flat save can be put, and its commit is whole then.
pub fn flat_save_is_save()
    ensures { FlatSaveIsSave }
{}

/// The rounds in which a dataset is made keep a ground sound.
pub fn birth_keeps()
    ensures { BirthKeeps }
{}

/// Acts whose rounds keep a ground sound do so at every moment, and in whatever a crash leaves.
pub fn acts_stay_sound<V>()
    ensures { ActsStaySound V }
{}

/// A disk at rest is settled.
pub fn rest_is_settled()
    ensures { RestIsSettled }
{}

/// Steps that change nothing.
pub fn still_steps_keep<V>()
    ensures { StillStepsKeep V }
{}

/// Two steps in a row.
pub fn bind_keeps<V, W>()
    ensures { BindKeeps V W }
{}

/// Files that are replaced, as an act.
pub fn puts_keep()
    ensures { PutsKeep }
{}

/// Objects that are put, as an act.
pub fn put_objects_keep()
    ensures { PutObjectsKeep }
{}

/// What replaced files leave.
pub fn puts_leave()
    ensures { PutsLeave }
{}

/// What put objects leave.
pub fn put_objects_leave()
    ensures { PutObjectsLeave }
{}

/// A tip that is set, as an act.
pub fn set_tip_is_sound()
    ensures { SetTipIsSound }
{}

/// HEAD that is set, as an act.
pub fn set_head_is_sound()
    ensures { SetHeadIsSound }
{}

/// A save, as an act.
pub fn save_is_sound()
    ensures { SaveIsSound }
{}
