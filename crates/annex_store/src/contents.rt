// Contents: whether one stands, and its bytes.
//
// A file's size is asked before it is read: one that can't be the key's content doesn't come into memory.
ghost use Rattle.std.specs.Prelude.{IfOk};
ghost use Rattle.annex_store.specs.Contents.{ContentReads, FileReads, LookReads, MatchesFound};

use crate::layout::content_place;
use crate::limits::{CONTENT_LIMIT, large_file};
use annex_keys::{Key, matches};
use faults::Trouble;
use file_store::{Files, Kind, Place};
use std::alloc::Global;

/// Whether a file stands at the place of the key's content. It isn't read.
///
/// Refuses TooLarge of that place.
pub fn has<F: Files>(alloc: Global, files: &mut F, repo: &Place, key: &Key) -> Result<bool, Trouble>
    ensures { LookReads F.tells repo.now key.now (F.drive files.old) (F.drive files.new) result }
{
    let place = content_place(alloc, repo, key)?;
    match files.kind(alloc, &place)? {
        Kind::File => Ok(true),
        Kind::Absent | Kind::Dir | Kind::Other => Ok(false),
    }
}

/// The bytes of the file at this place, where they match the key.
pub(crate) fn read_file<F: Files>(
    alloc: Global,
    files: &mut F,
    place: &Place,
    key: &Key,
) -> Result<Option<Vec<u8>>, Trouble>
    ensures reads { FileReads F.tells place.now key.now (F.drive files.old) (F.drive files.new) result }
    ensures matching { IfOk result (λ found. MatchesFound key.now found) }
{
    let Some(size) = files.size(alloc, place)? else {
        return Ok(None);
    };
    if size != key.size() {
        return Ok(None);
    }
    if CONTENT_LIMIT < size {
        return Err(Trouble::Refused(large_file(alloc, place, size)?));
    }
    let Some(bytes) = files.read(alloc, place)? else {
        return Ok(None);
    };
    if !matches(key, bytes.as_slice()) {
        return Ok(None);
    }
    Ok(Some(bytes))
}

/// The content of the key: the bytes of its file, where they match the key, and else None. A file of another size
/// than the key's isn't read.
///
/// Refuses TooLarge of the file's place, and then of the file where it has the key's size.
pub fn content<F: Files>(
    alloc: Global,
    files: &mut F,
    repo: &Place,
    key: &Key,
) -> Result<Option<Vec<u8>>, Trouble>
    ensures reads { ContentReads F.tells repo.now key.now (F.drive files.old) (F.drive files.new) result }
    ensures matching { IfOk result (λ found. MatchesFound key.now found) }
{
    let place = content_place(alloc, repo, key)?;
    read_file(alloc, files, &place, key)
}
