// The message of a commit: the words' own, or that of a file.
ghost use Rattle.std.specs.Prelude.{◌≡◌, ◌≤◌, IfOk, Err, Ok, Some, length};
ghost use Rattle.places.specs.All.{file_at, text_of};
ghost use Rattle.faults.specs.declared.faults.Fault.TheVariants.{PathUnknown, TooLarge};
ghost use Rattle.acts.specs.All.{Reads};
ghost use Rattle.datalad_cli.specs.Messages.{InFile, MayLack, MayLackAt, message_at, message_in, message_limit};
ghost use Rattle.datalad_cli.specs.Messages.{source_by};
ghost use Rattle.datalad_cli.specs.Words.{place_by};

use crate::finding::bad_path;
use crate::words::{message_by, message_of, place_by};
use dl_words::Word;
use faults::{Fault, Trouble};
use file_store::{Bytes, Files, Place};
use places::Text;
use std::alloc::{AllocError, Global};

/// How many bytes the file of a message may have.
const MESSAGE_LIMIT: u64 = 1_048_576;

// The refusal of a file that isn't there.
fn absent(alloc: Global, place: &Place) -> Result<Fault, AllocError>
    ensures { IfOk result (λ fault. fault ≡ PathUnknown (text_of place.now)) }
{
    let path = Text::new(String::from_str(alloc, place.as_str())?);
    Ok(Fault::PathUnknown { path })
}

// The refusal of a file of that many bytes.
fn too_large(alloc: Global, place: &Place, size: u64) -> Result<Fault, AllocError>
    ensures { IfOk result (λ fault. fault ≡ TooLarge (text_of place.now) size) }
{
    let path = Text::new(String::from_str(alloc, place.as_str())?);
    Ok(Fault::TooLarge { path, size })
}

// The text in a file. Its size is asked first, so that no more is read than it may have.
fn text_in<F: Files>(alloc: Global, files: &mut F, place: &Place) -> Result<Vec<u8>, Trouble>
    ensures { Reads (λ fault. MayLackAt place.now fault) F.tells
        (λ g text. (file_at g place.now ≡ Some text.items) × (length text.items ≤ message_limit))
        (λ g fault. message_at place.now (file_at g place.now) ≡ Err fault) (F.drive files.old) (F.drive files.new)
        result }
{
    let Some(size) = files.size(alloc, place)? else {
        return Err(Trouble::Refused(absent(alloc, place)?));
    };
    if size > MESSAGE_LIMIT {
        return Err(Trouble::Refused(too_large(alloc, place, size)?));
    }
    let Some(text) = files.read(alloc, place)? else {
        return Err(Trouble::Refused(absent(alloc, place)?));
    };
    let size = text.len() as u64;
    if size > MESSAGE_LIMIT {
        return Err(Trouble::Refused(too_large(alloc, place, size)?));
    }
    Ok(text)
}

// The message in the file that a word names.
fn message_within<F: Files>(
    alloc: Global,
    files: &mut F,
    cwd: &Place,
    word: &Word,
) -> Result<Bytes, Trouble>
    ensures { let source = InFile (place_by cwd.now word.now.text) word.now.index in
        Reads (λ fault. MayLack source fault) F.tells (λ g message. message_in source g ≡ Ok message)
        (λ g fault. message_in source g ≡ Err fault) (F.drive files.old) (F.drive files.new) result }
{
    let Some(place) = place_by(alloc, cwd, word.text.as_str())? else {
        return Err(Trouble::Refused(bad_path(word)));
    };
    let text = text_in(alloc, files, &place)?;
    Ok(message_of(text)?)
}

/// The message of a commit, by the word that may give it and the word that may name its file; of the two there is one
/// at most.
///
/// Refuses BadPath of a file's word that leads to no place, PathUnknown where no file stands there, and TooLarge of one
/// of more than 1 MiB.
pub(crate) fn find_message<F: Files>(
    alloc: Global,
    files: &mut F,
    cwd: &Place,
    word: &Option<Word>,
    file: &Option<Word>,
) -> Result<Bytes, Trouble>
    ensures { let source = source_by cwd.now word.now file.now in
        Reads (λ fault. MayLack source fault) F.tells (λ g message. message_in source g ≡ Ok message)
        (λ g fault. message_in source g ≡ Err fault) (F.drive files.old) (F.drive files.new) result }
{
    match file {
        None => Ok(message_by(alloc, word)?),
        Some(file) => message_within(alloc, files, cwd, file),
    }
}
