// The blobs that git gets of the files that a save adds: the bytes of those that git keeps, which are read again, so that
// what is put is what was found; and the texts of pointers.
ghost use Rattle.std.specs.Prelude.{◌≡◌, ◌≤◌, ◌+◌, ◌++◌, ◌==◌, ◌&&◌, false, length, bytes_eq, IfOk, IfSome, MatchOption};
ghost use Rattle.places.specs.All.{is_text, joined, names_of};
ghost use Rattle.faults.specs.declared.faults.Fault.TheVariants.{TooLarge, Dirty};
ghost use Rattle.git_objects.specs.All.{oid};
ghost use Rattle.git_objects.specs.declared.objects.ObjKind.TheVariants.{Blob};
ghost use Rattle.recursive_save.specs.Saving.{blobs_limit};
ghost use Rattle.tree_status.specs.All.{shown};
ghost use Rattle.recursive_save.specs.Blobs.{BlobReads, BlobsRead, NewBlobReads, PointerBlobs};

use crate::first::{new_object, text};
use faults::{Fault, Trouble};
use file_store::{Files, Place, PlaceErr};
use git_objects::{ObjKind, blob_id};
use kept_files::Kept;
use object_store::NewObject;
use std::alloc::{AllocError, Global};
use tree_status::WorkingFile;

/// How many bytes the new blobs of a save may have.
const BLOBS_LIMIT: u64 = 536_870_912;

/// The refusal of a file that isn't as it was found.
pub(crate) fn dirty(alloc: Global, file: &WorkingFile) -> Result<Fault, AllocError>
    ensures { IfOk result (λ fault. fault ≡ Dirty file.now.path) }
{
    let path = text(alloc, file.path.as_str())?;
    Ok(Fault::Dirty { path })
}

// The refusal of a file with which there are that many bytes.
fn too_many(alloc: Global, file: &WorkingFile, size: u64) -> Result<Fault, AllocError>
    ensures { IfOk result (λ fault. fault ≡ TooLarge file.now.path size) }
{
    let path = text(alloc, file.path.as_str())?;
    Ok(Fault::TooLarge { path, size })
}

/// Where a file stands, if its path has a place.
pub(crate) fn place_of(alloc: Global, root: &Place, path: &str) -> Result<Option<Place>, AllocError>
    ensures { IfOk result (λ found. MatchOption found (is_text (joined root.now path.now) ≡ false)
        (λ place. place ≡ root.now ++ names_of path.now)) }
{
    match root.join(alloc, path) {
        Ok(place) => Ok(Some(place)),
        Err(PlaceErr::Bad) => Ok(None),
        Err(PlaceErr::NoMemory) => Err(AllocError),
    }
}

// Whether these are the bytes that a file had, by their number and their blob.
fn are_same(bytes: &[u8], size: u64, file: &WorkingFile) -> bool
    ensures { result ≡ (length bytes.now == size && bytes_eq (oid Blob bytes.now) file.now.id.0) }
{
    if bytes.len() as u64 != size {
        return false;
    }
    blob_id(bytes) == file.id
}

// The bytes of a file, after so many bytes of others. Its size is asked first, so that no more is read than may be.
fn read_blob<F: Files>(
    alloc: Global,
    files: &mut F,
    root: &Place,
    file: &WorkingFile,
    before: u64,
) -> Result<Vec<u8>, Trouble>
    requires { before ≤ blobs_limit }
    ensures reads { BlobReads F.tells root.now file.now before (F.drive files.old) (F.drive files.new) result }
    ensures few { IfOk result (λ bytes. before + length bytes.items ≤ blobs_limit) }
{
    let Some(place) = place_of(alloc, root, file.path.as_str())? else {
        return Err(Trouble::Refused(dirty(alloc, file)?));
    };
    let Some(size) = files.size(alloc, &place)? else {
        return Err(Trouble::Refused(dirty(alloc, file)?));
    };
    let sum = before.saturating_add(size);
    if sum > BLOBS_LIMIT {
        return Err(Trouble::Refused(too_many(alloc, file, sum)?));
    }
    let Some(bytes) = files.read(alloc, &place)? else {
        return Err(Trouble::Refused(dirty(alloc, file)?));
    };
    if !are_same(bytes.as_slice(), size, file) {
        return Err(Trouble::Refused(dirty(alloc, file)?));
    }
    Ok(bytes)
}

// The text of a file's pointer, after so many bytes of others.
fn pointer_blob(
    alloc: Global,
    file: &WorkingFile,
    pointer: &str,
    before: u64,
) -> Result<Vec<u8>, Trouble>
    requires { before ≤ blobs_limit }
    ensures blob { PointerBlobs file.now pointer.now before result }
    ensures few { IfOk result (λ bytes. before + length bytes.items ≤ blobs_limit) }
{
    let bytes = Vec::from_slice(alloc, pointer.as_bytes())?;
    let sum = before.saturating_add(bytes.len() as u64);
    if sum > BLOBS_LIMIT {
        return Err(Trouble::Refused(too_many(alloc, file, sum)?));
    }
    Ok(bytes)
}

// The blob that git gets of a file, if any, after so many bytes of others.
fn new_blob<F: Files>(
    alloc: Global,
    files: &mut F,
    root: &Place,
    file: &WorkingFile,
    before: u64,
) -> Result<Option<Vec<u8>>, Trouble>
    requires { before ≤ blobs_limit }
    ensures reads { NewBlobReads F.tells root.now file.now before (F.drive files.old) (F.drive files.new) result }
    ensures few { IfOk result (λ found. IfSome found (λ bytes. before + length bytes.items ≤ blobs_limit)) }
{
    match &file.kept {
        Kept::Same { .. } => Ok(None),
        Kept::InGit => Ok(Some(read_blob(alloc, files, root, file, before)?)),
        Kept::Pointer { text } | Kept::Content { text, .. } => {
            let bytes = pointer_blob(alloc, file, text.as_str(), before)?;
            Ok(Some(bytes))
        }
    }
}

/// The blobs that git gets of these files, in order.
///
/// Refuses TooLarge of the first file with which there are too many bytes, and Dirty of one that git keeps and that isn't
/// as it was found.
pub(crate) fn read_blobs<F: Files>(
    alloc: Global,
    files: &mut F,
    root: &Place,
    list: &[&WorkingFile],
) -> Result<Vec<NewObject>, Trouble>
    ensures { BlobsRead F.tells root.now (shown list.now) (F.drive files.old) (F.drive files.new) result }
{
    let mut objects = Vec::new(alloc);
    let mut sum = 0;
    for file in list {
        if let Some(bytes) = new_blob(alloc, files, root, file, sum)? {
            sum += bytes.len() as u64;
            objects.push(new_object(ObjKind::Blob, bytes))?;
        }
    }
    Ok(objects)
}
