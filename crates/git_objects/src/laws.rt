// What reading and writing come to together.
ghost use Rattle.std.specs.Prelude.{◌≡◌, MatchResult};
ghost use Rattle.git_objects.specs.CommitTexts.{fields_of};
ghost use Rattle.git_objects.specs.Decodes.{RefusesTree, RefusesCommit};
ghost use Rattle.git_objects.specs.Laws.{HasOneReading};
ghost use Rattle.git_objects.specs.declared.errors.ObjErr.TheVariants.{NoMemory};

use crate::commits::Commit;
use crate::errors::ObjErr;
use crate::trees::Tree;
use std::alloc::Global;

/// Each text has at most one reading, and none where it stops being one.
pub fn texts_have_one_reading()
    ensures { HasOneReading }
{}

/// A tree, decoded from its own body: the same entries.
pub fn reread_tree(alloc: Global, tree: &Tree) -> Result<Tree, ObjErr>
    ensures { MatchResult result (λ read. read.entries.items ≡ tree.now.entries.items)
        (λ e. e ≡ NoMemory) }
{
    let body = tree.encode(alloc)?;
    Tree::decode(alloc, body.as_slice())
}

/// A tree's body, encoded again: the same bytes.
pub fn rewrite_tree(alloc: Global, body: &[u8]) -> Result<Vec<u8>, ObjErr>
    ensures { MatchResult result (λ written. written.items ≡ body.now) (RefusesTree body.now) }
{
    let tree = Tree::decode(alloc, body)?;
    tree.encode(alloc)
}

/// A commit, decoded from its own body: the same fields.
pub fn reread_commit(alloc: Global, commit: &Commit) -> Result<Commit, ObjErr>
    ensures { MatchResult result (λ read. fields_of read ≡ fields_of commit.now)
        (λ e. e ≡ NoMemory) }
{
    let body = commit.encode(alloc)?;
    Commit::decode(alloc, body.as_slice())
}

/// A commit's body, encoded again: the same bytes.
pub fn rewrite_commit(alloc: Global, body: &[u8]) -> Result<Vec<u8>, ObjErr>
    ensures { MatchResult result (λ written. written.items ≡ body.now) (RefusesCommit body.now) }
{
    let commit = Commit::decode(alloc, body)?;
    commit.encode(alloc)
}
