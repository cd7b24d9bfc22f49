// The commits to which revision words lead.
ghost use Rattle.std.specs.Prelude.{◌≡◌, IfOk};
ghost use Rattle.acts.specs.All.{Reads};
ghost use Rattle.faults.specs.declared.faults.Fault.TheVariants.{NoSuchRevision};
ghost use Rattle.ref_store.specs.Resolving.{ComesTo, HasGone, StopsBy};
ghost use Rattle.ref_store.specs.Revisions.{MayResolve, Resolves, Unresolves, WentBack};

use crate::bases::base_id;
use crate::revision_words::{WALK_LIMIT, revision_in};
use faults::{Fault, Trouble};
use file_store::{Files, Place};
use git_objects::Id;
use object_store::read_commit;
use places::Text;
use std::alloc::{AllocError, Global};

// The refusal of a word that leads to no commit.
fn no_such(alloc: Global, word: &str) -> Result<Fault, AllocError>
    ensures { IfOk result (λ fault. fault ≡ NoSuchRevision word.now) }
{
    let word = Text::new(String::from_str(alloc, word)?);
    Ok(Fault::NoSuchRevision { word })
}

// As many first parents back from a commit. Each on the way is read, and the last one too.
fn go_back<F: Files>(
    alloc: Global,
    files: &mut F,
    repo: &Place,
    word: &str,
    start: &Id,
    count: u32,
) -> Result<Id, Trouble>
    ensures reads { Reads (λ fault. MayResolve repo.now word.now fault) F.tells
        (λ g id. ComesTo repo.now start.now.0 count g id.0)
        (λ g fault. StopsBy repo.now word.now start.now.0 count g fault)
        (F.drive files.old) (F.drive files.new) result }
    ensures went { IfOk result (λ id. HasGone start.now.0 count id.0) }
{
    let mut id = *start;
    for passed in 0..count {
        let commit = read_commit(alloc, files, repo, &id)?;
        let Some(parent) = commit.parents.first() else {
            return Err(Trouble::Refused(no_such(alloc, word)?));
        };
        id = *parent;
    }
    read_commit(alloc, files, repo, &id)?;
    Ok(id)
}

/// The commit to which a revision word leads: a base, and any number of `^`, `~` and `~n` behind it, each a first
/// parent or the n-th first parent back. The base is `HEAD`; 40 hexadecimal digits of a held commit; a branch; or 4 to
/// 39 digits with which the id of one held commit begins.
///
/// Refuses NoSuchRevision and Ambiguous with the word, TooLong with the base's id where more than 100,000 first parents
/// are asked for, and as `tip` and `read_commit` do: the first that the reading meets.
pub fn resolve<F: Files>(
    alloc: Global,
    files: &mut F,
    repo: &Place,
    word: &str,
) -> Result<Id, Trouble>
    ensures reads { Reads (λ fault. MayResolve repo.now word.now fault) F.tells
        (λ g id. Resolves repo.now word.now g id.0) (λ g fault. Unresolves repo.now word.now g fault)
        (F.drive files.old) (F.drive files.new) result }
    ensures went { IfOk result (λ id. WentBack word.now id.0) }
{
    let Some((base, count)) = revision_in(word.as_bytes()) else {
        return Err(Trouble::Refused(no_such(alloc, word)?));
    };
    let Some(start) = base_id(alloc, files, repo, word, base)? else {
        return Err(Trouble::Refused(no_such(alloc, word)?));
    };
    if WALK_LIMIT < count {
        let commit = start.0;
        return Err(Trouble::Refused(Fault::TooLong { commit }));
    }
    go_back(alloc, files, repo, word, &start, count)
}
