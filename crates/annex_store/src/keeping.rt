// Keeping contents.
//
// The content first: a crash between leaves a claim too few, never one too many. All that may refuse but a file in
// the way is asked before anything is written.
ghost use Rattle.std.specs.Prelude.{IsTrue};
ghost use Rattle.annex_keys.specs.All.{Matches};
ghost use Rattle.repository.specs.All.{is_repo};
ghost use Rattle.acts.specs.All.{ActsQuietly};
ghost use Rattle.annex_store.specs.Setting.{MaySetLog};
ghost use Rattle.annex_store.specs.Keeping.{BytesRead, KeepEnds, NoteEnds, sets_content};

use crate::layout::{key_text, short_content_place};
use crate::logs::log_of;
use crate::setting::set_log;
use annex_keys::Key;
use faults::{Fault, Trouble};
use file_store::{Files, Place, replace};
use location_log::{LogErr, LogLine, note, present};
use repository::{REPO_LIMIT, repo_too_large, tmp_place};
use std::alloc::Global;
use uuid::Uuid;

// Whether the file at this place has these bytes. One of another size isn't read.
fn has_bytes<F: Files>(
    alloc: Global,
    files: &mut F,
    place: &Place,
    bytes: &[u8],
) -> Result<bool, Trouble>
    ensures { BytesRead F.tells place.now bytes.now (F.drive files.old) (F.drive files.new) result }
{
    let Some(size) = files.size(alloc, place)? else {
        return Ok(false);
    };
    if size != bytes.len() as u64 {
        return Ok(false);
    }
    match files.read(alloc, place)? {
        Some(found) => Ok(found.as_slice() == bytes),
        None => Ok(false),
    }
}

// Sets the content of a key. A file that has its bytes is left as it is.
fn set_content<F: Files>(
    alloc: Global,
    files: &mut F,
    repo: &Place,
    key: &Key,
    bytes: &[u8],
) -> Result<(), Trouble>
    ensures { IsTrue (is_repo repo.now) → ActsQuietly (λ fault. MaySetLog F.tells repo.now fault) F.tells
        (sets_content repo.now key.now bytes.now) (F.drive files.old) (F.drive files.new) result }
{
    if REPO_LIMIT < repo.as_str().len() {
        return Err(Trouble::Refused(repo_too_large(alloc, repo)?));
    }
    let tmp = tmp_place(alloc, repo, 0)?;
    let place = short_content_place(alloc, repo, key)?;
    if has_bytes(alloc, files, &place, bytes)? {
        return Ok(());
    }
    replace(alloc, files, &tmp, &place, bytes)?;
    Ok(())
}

/// The lines that say that the repository has the content, None where the log does.
pub(crate) fn noted(
    alloc: Global,
    key: &Key,
    lines: &[LogLine],
    uuid: &Uuid,
    moment: u64,
) -> Result<Option<Vec<LogLine>>, Trouble>
    ensures { NoteEnds key.now lines.now uuid.now moment result }
{
    if present(lines, uuid) {
        return Ok(None);
    }
    match note(alloc, lines, uuid, true, moment) {
        Ok(out) => Ok(Some(out)),
        Err(LogErr::TimeFull) => {
            let key = key_text(alloc, key)?;
            Err(Trouble::Refused(Fault::TimeFull { key }))
        }
        Err(LogErr::NoMemory) => Err(Trouble::NoMemory),
        Err(LogErr::BadLog { .. }) => unreachable!(),
    }
}

/// Keeps a content: its file gets the bytes where it has others, and then the log says that the repository with this
/// uuid has it, where it doesn't say so: at the moment, in seconds, or later than the line that counted.
///
/// Refuses as `log_of`, then TimeFull, then TooLarge of the repository's place, all before any write; then Blocked.
pub fn keep<F: Files>(
    alloc: Global,
    files: &mut F,
    repo: &Place,
    uuid: &Uuid,
    key: &Key,
    bytes: &[u8],
    moment: u64,
) -> Result<(), Trouble>
    requires { Matches key.now bytes.now }
    ensures { IsTrue (is_repo repo.now) → KeepEnds F.tells repo.now uuid.now key.now bytes.now moment
        (F.drive files.old) (F.drive files.new) result }
{
    let lines = log_of(alloc, files, repo, key)?;
    let note = noted(alloc, key, lines.as_slice(), uuid, moment)?;
    set_content(alloc, files, repo, key, bytes)?;
    match note {
        Some(lines) => set_log(alloc, files, repo, key, lines.as_slice()),
        None => Ok(()),
    }
}
