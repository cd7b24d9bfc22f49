// The notes of many contents: which logs are to be set.
ghost use Rattle.std.specs.Prelude.{◌≡◌, ◌≤◌, IfOk, IsTrue, length};
ghost use Rattle.places.specs.All.{text_of};
ghost use Rattle.repository.specs.All.{is_repo, repo_limit};
ghost use Rattle.acts.specs.All.{ActsQuietly};
ghost use Rattle.annex_store.specs.KeepingAll.{ArePlaced, NotesRead, OwnLogs, log_files, plain_notes, sets_notes};
ghost use Rattle.annex_store.specs.Members.{shown};
ghost use Rattle.annex_store.specs.Noting.{NoteReads};
ghost use Rattle.annex_store.specs.Places.{long_place};
ghost use Rattle.annex_store.specs.Layout.{log_place};
ghost use Rattle.annex_store.specs.Setting.{MaySetLog};

use crate::keeping::noted;
use crate::layout::{log_place, short_log_place};
use crate::logs::read_log;
use crate::members::NewContent;
use crate::setting::log_text;
use annex_keys::Key;
use faults::Trouble;
use file_store::{Bytes, Files, Place, Replacement, replace_all};
use location_log::LogLine;
use repository::tmp_place;
use std::alloc::{AllocError, Global};
use uuid::Uuid;

/// A log that is to be set, by its key.
#[derive(Drop)]
pub(crate) struct Note<'a> {
    key: &'a Key,
    lines: Vec<LogLine>,
}

// The lines by which the key's log says that the repository has the content, None where it says so.
fn note_of<F: Files>(
    alloc: Global,
    files: &mut F,
    repo: &Place,
    uuid: &Uuid,
    key: &Key,
    moment: u64,
) -> Result<Option<Vec<LogLine>>, Trouble>
    ensures reads { NoteReads F.tells repo.now uuid.now key.now moment (F.drive files.old) (F.drive files.new)
        result }
    ensures placed { IfOk result (λ _. long_place (log_place repo.now key.now) ≡ None) }
{
    let place = log_place(alloc, repo, key)?;
    let lines = read_log(alloc, files, &place)?;
    noted(alloc, key, lines.as_slice(), uuid, moment)
}

/// The notes of these contents, as far as their logs don't say that the repository has them.
///
/// Refuses as `log_of`, then TimeFull, of one after the other.
pub(crate) fn notes<'a, F: Files>(
    alloc: Global,
    files: &mut F,
    repo: &Place,
    uuid: &Uuid,
    list: &[&'a NewContent],
    moment: u64,
) -> Result<Vec<Note<'a>>, Trouble>
    ensures reads { NotesRead F.tells repo.now uuid.now (shown list.now) moment (F.drive files.old)
        (F.drive files.new) result }
    ensures placed { IfOk result (λ notes. ArePlaced repo.now (shown list.now) (plain_notes notes.items)) }
{
    let mut notes = Vec::new(alloc);
    for content in list {
        let key = &content.key;
        if let Some(lines) = note_of(alloc, files, repo, uuid, key, moment)? {
            notes.push(Note { key, lines })?;
        }
    }
    Ok(notes)
}

// The files of these logs.
fn note_files(alloc: Global, repo: &Place, notes: &[Note]) -> Result<Vec<Replacement>, AllocError>
    requires { length (text_of repo.now) ≤ repo_limit }
    ensures { IfOk result (λ list. list.items ≡ log_files repo.now 0 (plain_notes notes.now)) }
{
    let mut list = Vec::new(alloc);
    for note in notes {
        list.push(Replacement {
            tmp: tmp_place(alloc, repo, list.len())?,
            place: short_log_place(alloc, repo, note.key)?,
            bytes: Bytes::new(log_text(alloc, note.lines.as_slice())?),
        })?;
    }
    Ok(list)
}

/// Sets these logs in one round.
///
/// Refuses Blocked.
pub(crate) fn set_notes<F: Files>(
    alloc: Global,
    files: &mut F,
    repo: &Place,
    notes: &[Note],
) -> Result<(), Trouble>
    requires short { length (text_of repo.now) ≤ repo_limit }
    requires own { OwnLogs (plain_notes notes.now) }
    ensures { IsTrue (is_repo repo.now) → ActsQuietly (λ fault. MaySetLog F.tells repo.now fault) F.tells
        (sets_notes repo.now (plain_notes notes.now)) (F.drive files.old) (F.drive files.new) result }
{
    let list = note_files(alloc, repo, notes)?;
    if list.is_empty() {
        return Ok(());
    }
    replace_all(alloc, files, list.as_slice())?;
    Ok(())
}
