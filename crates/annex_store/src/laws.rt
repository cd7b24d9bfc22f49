// What follows of a keeping: a law of its definition.
ghost use Rattle.annex_store.specs.Honest.{KeepIsHonest};

/// At every moment of a keeping, and in what a crash leaves, the log doesn't say that the repository has a content
/// that doesn't stand, where it didn't before.
pub fn keep_is_honest()
    ensures { KeepIsHonest }
{}
