// The text of a snapshot's index.
ghost use Rattle.std.specs.Prelude.{◌≡◌, ◌<◌, ◌^◌, IfOk, length};
ghost use Rattle.index_file.specs.All.{IsIndex, index_text};
ghost use Rattle.index_store.specs.Indexes.{index_entries, index_entry, snapshot_text};

use index_file::{IndexEntry, IndexErr, encode};
use places::Text;
use snapshot::{Entry, Snapshot};
use std::alloc::{AllocError, Global};

/// How many entries the head of an index can count.
const MOST_ENTRIES: usize = 0xFFFF_FFFF;

fn entry_of(alloc: Global, entry: &Entry) -> Result<IndexEntry, AllocError>
    ensures { IfOk result (λ made. made ≡ index_entry entry.now) }
{
    Ok(IndexEntry {
        path: Text::new(String::from_str(alloc, entry.path.as_str())?),
        mode: entry.leaf.mode(),
        id: entry.leaf.id(),
    })
}

fn entries_of(alloc: Global, entries: &[Entry]) -> Result<Vec<IndexEntry>, AllocError>
    ensures { IfOk result (λ list. list.items ≡ index_entries entries.now) }
{
    let mut list = Vec::new(alloc);
    for entry in entries {
        list.push(entry_of(alloc, entry)?)?;
    }
    Ok(list)
}

fn encoded(alloc: Global, list: &[IndexEntry]) -> Result<Vec<u8>, AllocError>
    requires { IsIndex list.now }
    ensures { IfOk result (λ text. text.items ≡ index_text list.now) }
{
    match encode(alloc, list) {
        Ok(text) => Ok(text),
        Err(IndexErr::NoMemory) => Err(AllocError),
        Err(_) => unreachable!(),
    }
}

/// The text of the index that has one entry for each path of a snapshot. One of more than 4,294,967,295 paths has no
/// room in memory.
pub fn snapshot_text(alloc: Global, snapshot: &Snapshot) -> Result<Vec<u8>, AllocError>
    ensures { IfOk result (λ text. text.items ≡ snapshot_text snapshot.now) }
{
    let entries = snapshot.entries();
    if entries.len() > MOST_ENTRIES {
        return Err(AllocError);
    }
    let list = entries_of(alloc, entries)?;
    encoded(alloc, list.as_slice())
}
