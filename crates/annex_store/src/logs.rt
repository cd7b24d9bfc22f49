// Logs of who has a content.
//
// A file's size is asked before it is read: no file that is too long for a log comes into memory.
ghost use Rattle.annex_store.specs.Logs.{IsTaken, LogFileReads, LogReads, TextReads};

use crate::layout::log_place;
use crate::limits::{LOG_LIMIT, large_file};
use annex_keys::Key;
use faults::{Fault, Trouble};
use file_store::{Files, Place};
use location_log::{LogErr, LogLine, read};
use std::alloc::Global;

// The text of a log's file, None where no file stands.
fn read_text<F: Files>(
    alloc: Global,
    files: &mut F,
    place: &Place,
) -> Result<Option<Vec<u8>>, Trouble>
    ensures { TextReads F.tells place.now (F.drive files.old) (F.drive files.new) result }
{
    let Some(size) = files.size(alloc, place)? else {
        return Ok(None);
    };
    if LOG_LIMIT < size {
        return Err(Trouble::Refused(large_file(alloc, place, size)?));
    }
    Ok(files.read(alloc, place)?)
}

// The lines of a log's text, whose file stands at this place.
fn take_lines(alloc: Global, place: &Place, text: &[u8]) -> Result<Vec<LogLine>, Trouble>
    ensures { IsTaken place.now text.now result }
{
    match read(alloc, text) {
        Ok(lines) => Ok(lines),
        Err(LogErr::BadLog { line }) => {
            let place = place.try_clone(alloc)?;
            Err(Trouble::Refused(Fault::BadLog { place, line }))
        }
        Err(LogErr::NoMemory) => Err(Trouble::NoMemory),
        Err(LogErr::TimeFull) => unreachable!(),
    }
}

/// The lines of the log at this place.
pub(crate) fn read_log<F: Files>(
    alloc: Global,
    files: &mut F,
    place: &Place,
) -> Result<Vec<LogLine>, Trouble>
    ensures { LogFileReads F.tells place.now (F.drive files.old) (F.drive files.new) result }
{
    let Some(text) = read_text(alloc, files, place)? else {
        return Ok(Vec::new(alloc));
    };
    take_lines(alloc, place, text.as_slice())
}

/// The lines of the key's log, none where no file stands.
///
/// Refuses TooLarge of the log's place, TooLarge of its file, then BadLog with the first line that is out of form,
/// from 1.
pub fn log_of<F: Files>(
    alloc: Global,
    files: &mut F,
    repo: &Place,
    key: &Key,
) -> Result<Vec<LogLine>, Trouble>
    ensures { LogReads F.tells repo.now key.now (F.drive files.old) (F.drive files.new) result }
{
    let place = log_place(alloc, repo, key)?;
    read_log(alloc, files, &place)
}
