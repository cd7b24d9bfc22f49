// The objects that a repository holds.
ghost use Rattle.repository.specs.Held.{HeldAgrees};

/// What is held is the same as a function of the ground and as a fact about it.
pub fn held_agrees()
    ensures { HeldAgrees }
{}
