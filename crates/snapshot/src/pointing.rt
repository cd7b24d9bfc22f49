// Which leaves of a snapshot are annexed: the files whose blobs are pointers.
//
// The length of a blob's file is asked first: what is too long for a pointer's isn't read.
ghost use Rattle.std.specs.Prelude.{◌≡◌, Some, IfOk, IfSome};
ghost use Rattle.places.specs.All.{file_at};
ghost use Rattle.acts.specs.All.{Reads};
ghost use Rattle.object_store.specs.All.{MayGetBody};
ghost use Rattle.snapshot.specs.Pointers.{ArePointed, AreOfFiles, IsFile, IsPointed, IsSmallBlob};
ghost use Rattle.snapshot.specs.Pointers.{MayPoint, MayPointAt, annex_fault, is_long, pointer_fault};
ghost use Rattle.snapshot.specs.Pointers.{pointers_fault};

use crate::entries::{Entry, Leaf};
use crate::snapshots::Snapshot;
use annex_keys::{Key, KeyErr, read_pointer};
use faults::{Fault, Trouble};
use file_store::{Files, Place, Text};
use git_objects::{Id, ObjKind};
use object_store::get;
use repository::{OBJECT_LIMIT, object_place, repo_too_large};
use std::alloc::Global;

/// The longest file of a blob that may be a pointer: 8,192 bytes behind `blob 8192` and NUL.
const POINTER_FILE_LIMIT: u64 = 8202;

/// The path of an annexed leaf, and the key of its content.
#[derive(Debug, Drop)]
pub struct Pointer {
    pub path: Text,
    pub key: Key,
}

// Whether the file at a place is too long to be that of a pointer.
fn is_long<F: Files>(alloc: Global, files: &mut F, place: &Place) -> Result<bool, Trouble>
    ensures { Reads (λ _. ⊥) F.tells (λ g long. long ≡ is_long (file_at g place.now)) (λ _ _. ⊥)
        (F.drive files.old) (F.drive files.new) result }
{
    match files.size(alloc, place)? {
        Some(size) => Ok(POINTER_FILE_LIMIT < size),
        None => Ok(false),
    }
}

// The blob with this id, None where its file is too long to be that of a pointer.
fn small_blob<F: Files>(
    alloc: Global,
    files: &mut F,
    repo: &Place,
    id: &Id,
) -> Result<Option<Vec<u8>>, Trouble>
    ensures { Reads (λ fault. MayGetBody repo.now id.now.0 fault) F.tells
        (λ g blob. IsSmallBlob repo.now id.now.0 g blob)
        (λ g fault. pointer_fault repo.now id.now.0 g ≡ Some fault)
        (F.drive files.old) (F.drive files.new) result }
{
    if OBJECT_LIMIT < repo.as_str().len() {
        return Err(Trouble::Refused(repo_too_large(alloc, repo)?));
    }
    let place = object_place(alloc, repo, id)?;
    if is_long(alloc, files, &place)? {
        return Ok(None);
    }
    let Some((kind, body)) = get(alloc, files, repo, id)? else {
        return Err(Trouble::Refused(Fault::Missing { id: id.0 }));
    };
    if kind != ObjKind::Blob {
        return Err(Trouble::Refused(Fault::Missing { id: id.0 }));
    }
    Ok(Some(body))
}

// The key to which a leaf's blob points, None where the leaf isn't annexed.
fn annexed_key<F: Files>(
    alloc: Global,
    files: &mut F,
    repo: &Place,
    leaf: &Leaf,
) -> Result<Option<Key>, Trouble>
    ensures reads { Reads (λ fault. MayPointAt repo.now leaf.now fault) F.tells
        (λ g key. IsPointed repo.now leaf.now g key)
        (λ g fault. annex_fault repo.now leaf.now g ≡ Some fault)
        (F.drive files.old) (F.drive files.new) result }
    ensures file { IfOk result (λ key. IfSome key (λ _. IsFile leaf.now)) }
{
    let Leaf::Git { id, .. } = leaf else {
        return Ok(None);
    };
    let Some(blob) = small_blob(alloc, files, repo, id)? else {
        return Ok(None);
    };
    match read_pointer(alloc, blob.as_slice()) {
        Ok(key) => Ok(key),
        Err(_) => Err(Trouble::NoMemory),
    }
}

/// The annexed leaves of a snapshot, in the order of their paths, each with its key.
///
/// Refuses what reading a blob of at most 8,192 bytes, in the order of paths, meets first. Larger blobs are never
/// pointers and aren't read, nor are links and pins.
pub fn pointers<F: Files>(
    alloc: Global,
    files: &mut F,
    repo: &Place,
    snapshot: &Snapshot,
) -> Result<Vec<Pointer>, Trouble>
    ensures reads { Reads (λ fault. MayPoint repo.now snapshot.now fault) F.tells
        (λ g pointers. ArePointed repo.now snapshot.now g pointers.items)
        (λ g fault. pointers_fault repo.now snapshot.now g ≡ Some fault)
        (F.drive files.old) (F.drive files.new) result }
    ensures paths { IfOk result (λ pointers. AreOfFiles snapshot.now pointers.items) }
{
    let mut found = Vec::new(alloc);
    for entry in snapshot.entries() {
        if let Some(key) = annexed_key(alloc, files, repo, &entry.leaf)? {
            let path = Text::new(String::from_str(alloc, entry.path.as_str())?);
            found.push(Pointer { path, key })?;
        }
    }
    Ok(found)
}
