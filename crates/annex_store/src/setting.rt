// Setting a key's log.
//
// One file is put, by way of a temporary place: a crash leaves the old log or the new one.
ghost use Rattle.std.specs.Prelude.{◌≡◌, IfOk, IsTrue};
ghost use Rattle.repository.specs.All.{is_repo};
ghost use Rattle.location_log.specs.All.{log_text};
ghost use Rattle.acts.specs.All.{ActsQuietly};
ghost use Rattle.annex_store.specs.Setting.{MaySetLog, sets_log};

use crate::layout::short_log_place;
use annex_keys::Key;
use faults::Trouble;
use file_store::{Files, Place, replace};
use location_log::{LogLine, print};
use repository::{REPO_LIMIT, repo_too_large, tmp_place};
use std::alloc::{AllocError, Global};

/// The text of a log.
pub(crate) fn log_text(alloc: Global, lines: &[LogLine]) -> Result<Vec<u8>, AllocError>
    ensures { IfOk result (λ text. text.items ≡ log_text lines.now) }
{
    match print(alloc, lines) {
        Ok(text) => Ok(text),
        Err(_) => Err(AllocError),
    }
}

/// Sets the log of a key to these lines, each printed with its newline. The old log isn't read.
///
/// Refuses TooLarge of the repository's place, then Blocked.
pub fn set_log<F: Files>(
    alloc: Global,
    files: &mut F,
    repo: &Place,
    key: &Key,
    lines: &[LogLine],
) -> Result<(), Trouble>
    ensures { IsTrue (is_repo repo.now) → ActsQuietly (λ fault. MaySetLog F.tells repo.now fault) F.tells
        (sets_log repo.now key.now lines.now) (F.drive files.old) (F.drive files.new) result }
{
    if REPO_LIMIT < repo.as_str().len() {
        return Err(Trouble::Refused(repo_too_large(alloc, repo)?));
    }
    let text = log_text(alloc, lines)?;
    let tmp = tmp_place(alloc, repo, 0)?;
    let place = short_log_place(alloc, repo, key)?;
    replace(alloc, files, &tmp, &place, text.as_slice())?;
    Ok(())
}
