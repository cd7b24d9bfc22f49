// Reading objects.
//
// A file's length is asked before it is read: no file that is too long for an object comes into memory.
ghost use Rattle.std.specs.Prelude.{◌≡◌, List, ℕ, Some, IfOk, IfSome, option_map};
ghost use Rattle.places.specs.All.{text_of};
ghost use Rattle.acts.specs.All.{Reads};
ghost use Rattle.repository.specs.All.{object_of};
ghost use Rattle.faults.specs.declared.faults.Fault.TheVariants.{TooLarge};
ghost use Rattle.git_objects.specs.All.{fields_of, oid, Object};
ghost use Rattle.object_store.specs.Files.{TextReads, IsTaken};
ghost use Rattle.object_store.specs.Reads.{get_fault, HeldIsRead, IsGot, MayGet, kind_fault, HasBody, MayGetBody};
ghost use Rattle.object_store.specs.Reads.{HasTree, IsTreeFault, MayReadTree, IsTreeWithId, HasCommit, IsCommitFault};
ghost use Rattle.object_store.specs.Reads.{MayReadCommit, IsCommitWithId};

use faults::{Fault, Trouble};
use file_store::{Files, Place, Text};
use git_objects::{Commit, Id, ObjErr, ObjKind, Tree, read_object};
use repository::{
    OBJECT_BODY_LIMIT, OBJECT_FILE_LIMIT, OBJECT_LIMIT, object_place, repo_too_large,
};
use sha1::Sha1;
use std::alloc::{AllocError, Global};

// The refusal of an object's file by a length.
fn large_file(alloc: Global, place: &Place, size: u64) -> Result<Fault, AllocError>
    ensures { IfOk result (λ fault. fault ≡ TooLarge (text_of place.now) size) }
{
    let path = Text::new(String::from_str(alloc, place.as_str())?);
    Ok(Fault::TooLarge { path, size })
}

// The file at an object's place.
fn read_text<F: Files>(
    alloc: Global,
    files: &mut F,
    place: &Place,
) -> Result<Option<Vec<u8>>, Trouble>
    ensures { TextReads F.tells place.now (F.drive files.old) (F.drive files.new) result }
{
    let Some(size) = files.size(alloc, place)? else {
        return Ok(None);
    };
    if OBJECT_FILE_LIMIT < size {
        return Err(Trouble::Refused(large_file(alloc, place, size)?));
    }
    Ok(files.read(alloc, place)?)
}

// The kind and the body of the object with this id whose text this is.
#[tactic(auto, unfolding(repository::specs::Held::object_of))]
fn object_of<'a>(id: &Id, text: &'a [u8]) -> Option<(ObjKind, &'a [u8])>
    ensures { option_map (λ part. let o : Object = record { kind = part.0; body = part.1.now } in o) result
        ≡ object_of id.now.0 (Some text.now) }
{
    if Sha1::digest(text) != id.0 {
        return None;
    }
    let Some((kind, start)) = read_object(text) else {
        return None;
    };
    let (_, body) = text.split_at(start);
    Some((kind, body))
}

// What the file at an object's place has.
fn take_object(
    alloc: Global,
    place: &Place,
    id: &Id,
    text: &[u8],
) -> Result<(ObjKind, Vec<u8>), Trouble>
    ensures { IsTaken place.now id.now.0 text.now result }
{
    let Some((kind, body)) = object_of(id, text) else {
        let place = place.try_clone(alloc)?;
        return Err(Trouble::Refused(Fault::Damaged { place }));
    };
    if OBJECT_BODY_LIMIT < body.len() {
        return Err(Trouble::Refused(large_file(alloc, place, body.len() as u64)?));
    }
    Ok((kind, Vec::from_slice(alloc, body)?))
}

/// The object with this id. None where no file stands at its place.
///
/// Refuses TooLarge of the repository's place, TooLarge of the file, Damaged, then TooLarge of the body.
pub fn get<F: Files>(
    alloc: Global,
    files: &mut F,
    repo: &Place,
    id: &Id,
) -> Result<Option<(ObjKind, Vec<u8>)>, Trouble>
    ensures reads { Reads (λ fault. MayGet repo.now id.now.0 fault) F.tells
        (λ g found. IsGot repo.now id.now.0 g found) (λ g fault. get_fault repo.now id.now.0 g ≡ Some fault)
        (F.drive files.old) (F.drive files.new) result }
    ensures named { IfOk result (λ found. IfSome found (λ object. oid object.0 object.1.items ≡ id.now.0)) }
{
    if OBJECT_LIMIT < repo.as_str().len() {
        return Err(Trouble::Refused(repo_too_large(alloc, repo)?));
    }
    let place = object_place(alloc, repo, id)?;
    let Some(text) = read_text(alloc, files, &place)? else {
        return Ok(None);
    };
    let found = take_object(alloc, &place, id, text.as_slice())?;
    Ok(Some(found))
}

// The body of the object with this id and kind.
fn get_body<F: Files>(
    alloc: Global,
    files: &mut F,
    repo: &Place,
    id: &Id,
    kind: ObjKind,
) -> Result<Vec<u8>, Trouble>
    ensures reads { Reads (λ fault. MayGetBody repo.now id.now.0 fault) F.tells
        (λ g body. HasBody repo.now id.now.0 kind g body) (λ g fault. kind_fault repo.now id.now.0 kind g ≡ Some fault)
        (F.drive files.old) (F.drive files.new) result }
    ensures named { IfOk result (λ body. oid kind body.items ≡ id.now.0) }
{
    let Some((found, body)) = get(alloc, files, repo, id)? else {
        return Err(Trouble::Refused(Fault::Missing { id: id.0 }));
    };
    if found != kind {
        return Err(Trouble::Refused(Fault::Missing { id: id.0 }));
    }
    Ok(body)
}

/// The tree with this id.
///
/// Refuses as `get` does, then Missing, then BadTree.
pub fn read_tree<F: Files>(
    alloc: Global,
    files: &mut F,
    repo: &Place,
    id: &Id,
) -> Result<Tree, Trouble>
    ensures reads { Reads (λ fault. MayReadTree repo.now id.now.0 fault) F.tells (λ g tree. HasTree repo.now id.now.0 g tree)
        (λ g fault. IsTreeFault repo.now id.now.0 g fault) (F.drive files.old) (F.drive files.new) result }
    ensures named { IfOk result (λ tree. IsTreeWithId id.now.0 tree.entries.items) }
{
    let body = get_body(alloc, files, repo, id, ObjKind::Tree)?;
    match Tree::decode(alloc, body.as_slice()) {
        Ok(tree) => Ok(tree),
        Err(ObjErr::BadTree { at }) => Err(Trouble::Refused(Fault::BadTree { id: id.0, at })),
        Err(ObjErr::NoMemory) => Err(Trouble::NoMemory),
        Err(ObjErr::BadCommit { .. }) => unreachable!(),
    }
}

/// The commit with this id.
///
/// Refuses as `get` does, then Missing, then BadCommit.
pub fn read_commit<F: Files>(
    alloc: Global,
    files: &mut F,
    repo: &Place,
    id: &Id,
) -> Result<Commit, Trouble>
    ensures reads { Reads (λ fault. MayReadCommit repo.now id.now.0 fault) F.tells
        (λ g commit. HasCommit repo.now id.now.0 g commit) (λ g fault. IsCommitFault repo.now id.now.0 g fault)
        (F.drive files.old) (F.drive files.new) result }
    ensures named { IfOk result (λ commit. IsCommitWithId id.now.0 (fields_of commit)) }
{
    let body = get_body(alloc, files, repo, id, ObjKind::Commit)?;
    match Commit::decode(alloc, body.as_slice()) {
        Ok(commit) => Ok(commit),
        Err(ObjErr::BadCommit { at }) => Err(Trouble::Refused(Fault::BadCommit { id: id.0, at })),
        Err(ObjErr::NoMemory) => Err(Trouble::NoMemory),
        Err(ObjErr::BadTree { .. }) => unreachable!(),
    }
}

/// What is held, and isn't past a limit, isn't refused where it is read.
pub fn held_is_read()
    ensures { HeldIsRead }
{}
