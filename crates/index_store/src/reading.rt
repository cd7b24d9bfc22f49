// Whether the index of a dataset is that of a snapshot.
//
// Its size is asked before it is read: what is too long for the index of a dataset doesn't come into memory. Nothing that
// stands there is a fault.
ghost use Rattle.std.specs.Prelude.{◌≡◌, ◌≤◌, ◌↔◌, IfOk, IsTrue, None, Some, length};
ghost use Rattle.places.specs.All.{Ground, file_at, longest, text_of};
ghost use Rattle.repository.specs.All.{index_place};
ghost use Rattle.acts.specs.All.{NoFault, Reads};
ghost use Rattle.index_file.specs.All.{IsIndexText};
ghost use Rattle.index_store.specs.Indexes.{HasIndex, index_entries, index_entry};
ghost use Rattle.index_store.specs.Reading.{IsBytes, IsNear, NeverRefuses};

use faults::Trouble;
use file_store::{Files, Place};
use index_file::{IndexEntry, IndexErr, decode};
use repository::PLACE_LIMIT;
use snapshot::{Entry, Snapshot};
use std::alloc::{AllocError, Global};

/// How many bytes an index may have that is kept.
const INDEX_LIMIT: u64 = 536_870_912;

// Where the index stands, None where that is longer than places are.
#[tactic(auto, unfolding(places::specs::Names::is_path, places::specs::Names::is_name))]
fn near_index_place(alloc: Global, root: &Place) -> Result<Option<Place>, AllocError>
    ensures { IfOk result (λ found. IsNear root.now found) }
{
    let text = root.joined(alloc, ".dlrepo/index")?;
    if PLACE_LIMIT < text.len() {
        return Ok(None);
    }
    Ok(Some(root.below(alloc, ".dlrepo/index")?))
}

// The bytes that stand at the index's place, None where they are too many.
fn index_bytes<F: Files>(
    alloc: Global,
    files: &mut F,
    root: &Place,
) -> Result<Option<Vec<u8>>, Trouble>
    ensures { Reads (λ fault. NoFault fault) F.tells (λ g found. IsBytes root.now g found)
        (λ g fault. NeverRefuses g fault) (F.drive files.old) (F.drive files.new) result }
{
    let Some(place) = near_index_place(alloc, root)? else {
        return Ok(None);
    };
    let Some(size) = files.size(alloc, &place)? else {
        return Ok(None);
    };
    if INDEX_LIMIT < size {
        return Ok(None);
    }
    let Some(bytes) = files.read(alloc, &place)? else {
        return Ok(None);
    };
    if INDEX_LIMIT < bytes.len() as u64 {
        return Ok(None);
    }
    Ok(Some(bytes))
}

fn is_entry(entry: &Entry, found: &IndexEntry) -> bool
    ensures { IsTrue result ↔ (found.now ≡ index_entry entry.now) }
{
    if entry.path.as_str() != found.path.as_str() {
        return false;
    }
    entry.leaf.mode() == found.mode && entry.leaf.id() == found.id
}

fn are_entries(entries: &[Entry], found: &[IndexEntry]) -> bool
    ensures { IsTrue result ↔ (found.now ≡ index_entries entries.now) }
{
    if entries.len() != found.len() {
        return false;
    }
    for at in 0..entries.len() {
        if !is_entry(&entries[at], &found[at]) {
            return false;
        }
    }
    true
}

// Whether these bytes are an index of the snapshot.
fn is_index_of(alloc: Global, bytes: &[u8], snapshot: &Snapshot) -> Result<bool, AllocError>
    ensures { IfOk result (λ is. IsTrue is ↔ IsIndexText bytes.now (index_entries snapshot.now)) }
{
    match decode(alloc, bytes) {
        Ok(list) => Ok(are_entries(snapshot.entries(), list.as_slice())),
        Err(IndexErr::BadIndex { .. }) => Ok(false),
        Err(IndexErr::NoMemory) => Err(AllocError),
    }
}

/// Whether the index of a dataset is that of a snapshot already. It isn't where no file stands at its place, or one of
/// more than 536,870,912 bytes, or one that is no index; and is never refused.
pub fn has_index<F: Files>(
    alloc: Global,
    files: &mut F,
    root: &Place,
    snapshot: &Snapshot,
) -> Result<bool, Trouble>
    ensures { Reads (λ fault. NoFault fault) F.tells (λ g is. HasIndex root.now snapshot.now g is)
        (λ g fault. NeverRefuses g fault) (F.drive files.old) (F.drive files.new) result }
{
    match index_bytes(alloc, files, root)? {
        Some(bytes) => Ok(is_index_of(alloc, bytes.as_slice(), snapshot)?),
        None => Ok(false),
    }
}
