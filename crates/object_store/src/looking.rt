// What stands where objects are to be put.
ghost use Rattle.std.specs.Prelude.{◌≡◌, ◌≤◌, ◌&&◌, List, ℕ, length, bytes_eq, IfOk, OnOk};
ghost use Rattle.sha1.specs.Sha1.{sha1};
ghost use Rattle.git_objects.specs.All.{oid, is_object_text};
ghost use Rattle.places.specs.All.{Names, text_of};
ghost use Rattle.object_store.specs.Objects.{place_in};
ghost use Rattle.object_store.specs.Looks.{HaveIds, LookReads, MayAdd, MissingReads, AreFiles};
ghost use Rattle.object_store.specs.Puts.{found_fault};
ghost use Rattle.repository.specs.All.{object_limit};

use crate::objects::NewObject;
use faults::{Fault, Trouble};
use file_store::{Bytes, Files, Place, Replacement};
use git_objects::read_object;
use repository::{object_place, tmp_place};
use sha1::Sha1;
use std::alloc::{AllocError, Global};
use std::collections::BTreeSet;

fn has_id(bytes: &[u8], object: &NewObject) -> bool
    ensures { result ≡ bytes_eq (sha1 bytes.now) (oid object.now.kind object.now.body) }
{
    Sha1::digest(bytes) == object.id().0
}

// Another object's text under that id.
fn collides(found: &[u8], object: &NewObject) -> bool
    ensures { result ≡ (is_object_text found.now && bytes_eq (sha1 found.now) (oid object.now.kind object.now.body)) }
{
    read_object(found).is_some() && has_id(found, object)
}

// The refusal of bytes that stand at an object's place.
#[tactic(auto, unfolding(crate::specs::Puts::found_fault))]
fn refusal(
    alloc: Global,
    place: &Place,
    object: &NewObject,
    found: &[u8],
) -> Result<Option<Fault>, AllocError>
    ensures { (repo : Names) → place.now ≡ place_in repo object.now → IfOk result
        (λ fault. fault ≡ found_fault repo object.now found.now) }
{
    let text = object.text(alloc)?;
    if found == text.as_slice() {
        return Ok(None);
    }
    if collides(found, object) {
        let id = object.id().0;
        return Ok(Some(Fault::Collision { id }));
    }
    let place = place.try_clone(alloc)?;
    Ok(Some(Fault::Damaged { place }))
}

// Looks at an object's place. Where nothing stands, its file is added to the list and its id to the list's.
fn look_at<F: Files>(
    alloc: Global,
    files: &mut F,
    repo: &Place,
    object: &NewObject,
    list: &mut Vec<Replacement>,
    ids: &mut BTreeSet<[u8; 20]>,
) -> Result<(), Trouble>
    requires fits { length (text_of repo.now) ≤ object_limit }
    requires known { HaveIds repo.now list.old.items ids.old }
    ensures reads { LookReads F.tells repo.now object.now list.old.items list.new.items
        (F.drive files.old) (F.drive files.new) result }
    ensures adds { MayAdd repo.now object.now list.old.items list.new.items }
    ensures known { OnOk result (HaveIds repo.now list.new.items ids.new) }
{
    let id = object.id();
    let place = object_place(alloc, repo, &id)?;
    match files.read(alloc, &place)? {
        Some(found) => match refusal(alloc, &place, object, found.as_slice())? {
            None => Ok(()),
            Some(fault) => Err(Trouble::Refused(fault)),
        },
        None => {
            if !ids.insert(id.0)? {
                return Ok(());
            }
            let tmp = tmp_place(alloc, repo, list.len())?;
            let bytes = Bytes::new(object.text(alloc)?);
            list.push(Replacement { tmp, place, bytes })?;
            Ok(())
        }
    }
}

/// The files of the objects that are missing, with temporary places. Nothing is written.
pub(crate) fn missing<F: Files>(
    alloc: Global,
    files: &mut F,
    repo: &Place,
    objects: &[NewObject],
) -> Result<Vec<Replacement>, Trouble>
    requires { length (text_of repo.now) ≤ object_limit }
    ensures reads { MissingReads F.tells repo.now objects.now (F.drive files.old) (F.drive files.new) result }
    ensures files { IfOk result (λ list. AreFiles repo.now list.items) }
{
    let mut list = Vec::new(alloc);
    let mut ids = BTreeSet::new(alloc);
    for object in objects {
        look_at(alloc, files, repo, object, &mut list, &mut ids)?;
    }
    Ok(list)
}
