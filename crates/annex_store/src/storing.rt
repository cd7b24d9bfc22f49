// The files of many contents: which don't stand, and how they are stored.
//
// One content is in memory at a time: each is read from its source, written to its temporary place and forgotten; then
// all are moved.
ghost use Rattle.std.specs.Prelude.{◌≡◌, ◌≤◌, IfOk, IsTrue, None, [], length};
ghost use Rattle.places.specs.All.{Names, text_of};
ghost use Rattle.file_store.specs.All.{Counts, GoesAlong, IsNoTmp, only};
ghost use Rattle.repository.specs.All.{is_repo, repo_limit, tmp_place};
ghost use Rattle.acts.specs.All.{ActsQuietly, is_device};
ghost use Rattle.annex_store.specs.KeepingAll.{stores};
ghost use Rattle.annex_store.specs.Members.{AreOutside, HaveOwnKeys, IsPart, shown};
ghost use Rattle.annex_store.specs.Storing.{AreShort, MatchReads, MayStore, StagedAs, UnkeptRead};

use crate::contents::read_file;
use crate::layout::{near_content_place, short_content_place};
use crate::limits::CONTENT_LIMIT;
use crate::members::NewContent;
use annex_keys::Key;
use faults::{Fault, Trouble};
use file_store::{Files, Move, Place, move_all, stage};
use places::Text;
use repository::tmp_place;
use std::alloc::Global;

// The bytes of the file at this place, where they are the key's content. A file of another size isn't read.
fn matching<F: Files>(
    alloc: Global,
    files: &mut F,
    place: &Place,
    key: &Key,
) -> Result<Option<Vec<u8>>, Trouble>
    ensures { MatchReads F.tells place.now key.now (F.drive files.old) (F.drive files.new) result }
{
    if CONTENT_LIMIT < key.size() {
        return Ok(None);
    }
    read_file(alloc, files, place, key)
}

/// Those whose content doesn't stand at its place.
pub(crate) fn unkept<'a, F: Files>(
    alloc: Global,
    files: &mut F,
    repo: &Place,
    list: &[&'a NewContent],
) -> Result<Vec<&'a NewContent>, Trouble>
    requires { AreShort repo.now (shown list.now) }
    ensures reads { UnkeptRead F.tells repo.now (shown list.now) (F.drive files.old) (F.drive files.new) result }
    ensures part { IfOk result (λ found. IsPart (shown found.items) (shown list.now)) }
{
    let mut found = Vec::new(alloc);
    for content in list {
        let place = near_content_place(alloc, repo, &content.key)?;
        if matching(alloc, files, &place, &content.key)?.is_none() {
            found.push(*content)?;
        }
    }
    Ok(found)
}

// Stages the content of a member, by way of the temporary place of this number.
fn stage_content<F: Files>(
    alloc: Global,
    files: &mut F,
    repo: &Place,
    number: usize,
    content: &NewContent,
) -> Result<Move, Trouble>
    requires { length (text_of repo.now) ≤ repo_limit }
    ensures later { Counts (is_device result) (F.drive files.old).faults (F.drive files.new).faults }
    ensures ends { StagedAs F.tells repo.now number content.now (F.drive files.old) (F.drive files.new) result }

    // Nothing else changes.
    ensures crash { (place : Names) → IsTrue F.tells → GoesAlong (IsNoTmp (only (tmp_place repo.now number) place []))
        (λ g. []) (F.drive files.old) (F.drive files.new) }
{
    let Some(bytes) = matching(alloc, files, &content.source, &content.key)? else {
        let path = Text::new(String::from_str(alloc, content.path.as_str())?);
        return Err(Trouble::Refused(Fault::Dirty { path }));
    };
    let tmp = tmp_place(alloc, repo, number)?;
    let place = short_content_place(alloc, repo, &content.key)?;
    stage(alloc, files, &tmp, bytes.as_slice())?;
    Ok(Move { tmp, place })
}

/// Stores these contents in one round, each from its source.
///
/// Refuses Dirty of the first whose source doesn't have its content, and Blocked.
pub(crate) fn store<F: Files>(
    alloc: Global,
    files: &mut F,
    repo: &Place,
    list: &[&NewContent],
) -> Result<(), Trouble>
    requires short { length (text_of repo.now) ≤ repo_limit }
    requires own { HaveOwnKeys (shown list.now) }
    ensures { IsTrue (is_repo repo.now) → AreOutside repo.now (shown list.now) → ActsQuietly
        (λ fault. MayStore F.tells (shown list.now) fault) F.tells (stores repo.now (shown list.now))
        (F.drive files.old) (F.drive files.new) result }
{
    if list.is_empty() {
        return Ok(());
    }
    let mut moves = Vec::new(alloc);
    for content in list {
        let staged = stage_content(alloc, files, repo, moves.len(), content)?;
        moves.push(staged)?;
    }
    move_all(alloc, files, moves.as_slice())?;
    Ok(())
}
