// What flattening, building and pointers have to do with one another: each function is a law, and does nothing.
ghost use Rattle.snapshot.specs.Laws.{FlattenOfBuild, BuildOfFlatten, LeafInStanding, ArePathLists, HasOneEnd};
ghost use Rattle.snapshot.specs.Laws.{KeysAreOfLeaves, PointersHaveOneEnd};

/// The snapshot of a commit of a built tree is the one that the tree was built of.
pub fn flatten_of_build()
    ensures { FlattenOfBuild }
{}

/// What is built of a commit's snapshot has the id of its tree, where no directory in it is empty.
pub fn build_of_flatten()
    ensures { BuildOfFlatten }
{}

/// The leaf at a path is found one name and one tree at a time.
pub fn leaf_in_standing()
    ensures { LeafInStanding }
{}

/// The paths of a snapshot ascend in byte order and are valid, and none is above another.
pub fn path_lists()
    ensures { ArePathLists }
{}

/// The reading of a commit has one end: one list of paths, or one fault.
pub fn readings_have_one_end()
    ensures { HasOneEnd }
{}

/// The search for pointers has one end: one list of pointers, or one fault.
pub fn pointers_have_one_end()
    ensures { PointersHaveOneEnd }
{}

/// The key at a path of the pointers is the one with which the leaf there is annexed.
pub fn keys_are_of_leaves()
    ensures { KeysAreOfLeaves }
{}
