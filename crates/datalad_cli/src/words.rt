// What the words of a call lead to: the place of a new dataset, the message of a commit, a revision.
ghost use Rattle.std.specs.Prelude.{◌≡◌, IfOk, MatchResult};
ghost use Rattle.places.specs.All.{has_name};
ghost use Rattle.repository.specs.All.{dlrepo};
ghost use Rattle.datalad_cli.specs.Words.{default_message, leads, message_by, message_of, place_by, revision_by};

use dl_words::Word;
use file_store::{Bytes, Place, PlaceErr};
use std::alloc::{AllocError, Global};

/// The message of a commit, by the bytes of its text.
#[tactic(auto, unfolding(crate::specs::Words::message_of))]
pub(crate) fn message_of(text: Vec<u8>) -> Result<Bytes, AllocError>
    ensures { IfOk result (λ message. message ≡ message_of text.items) }
{
    let mut bytes = text;
    if !bytes.as_slice().ends_with(b"\n") {
        bytes.push(b'\n')?;
    }
    Ok(Bytes::new(bytes))
}

#[tactic(auto, unfolding(crate::specs::Words::default_message))]
fn default_text() -> &'static [u8]
    ensures { result.now ≡ default_message }
{
    b"[DATALAD] Recorded changes\n"
}

fn default_message(alloc: Global) -> Result<Bytes, AllocError>
    ensures { IfOk result (λ message. message ≡ default_message) }
{
    Ok(Bytes::new(Vec::from_slice(alloc, default_text())?))
}

/// The message of a commit, by the word that may give one.
pub(crate) fn message_by(alloc: Global, word: &Option<Word>) -> Result<Bytes, AllocError>
    ensures { IfOk result (λ message. message ≡ message_by word.now) }
{
    match word {
        None => default_message(alloc),
        Some(word) => message_of(Vec::from_slice(alloc, word.text.as_str().as_bytes())?),
    }
}

/// The revision by the word that may give one.
pub(crate) fn revision_by(word: &Option<Word>) -> &str
    ensures { result.now ≡ revision_by word.now }
{
    match word {
        None => "HEAD",
        Some(word) => word.text.as_str(),
    }
}

// Whether a component of the place is `.dlrepo`.
fn is_in_repository(place: &Place) -> bool
    ensures { result ≡ has_name dlrepo place.now }
{
    place.has_name(".dlrepo")
}

/// The place to which a word leads from a working directory. None where it is no place.
pub(crate) fn place_by(alloc: Global, cwd: &Place, word: &str) -> Result<Option<Place>, AllocError>
    ensures { MatchResult result (λ place. place_by cwd.now word.now ≡ place) (λ _. Unit {0}) }
{
    match Place::from_word(alloc, cwd, word) {
        Err(PlaceErr::NoMemory) => Err(AllocError),
        Err(PlaceErr::Bad) => Ok(None),
        Ok(place) => Ok(Some(place)),
    }
}

/// Where a word leads from a working directory. None where a dataset can't be made there: it is no place, or a place
/// with a component `.dlrepo`.
pub(crate) fn root_of(alloc: Global, cwd: &Place, word: &str) -> Result<Option<Place>, AllocError>
    ensures { MatchResult result (λ root. leads cwd.now word.now ≡ root) (λ _. Unit {0}) }
{
    match Place::from_word(alloc, cwd, word) {
        Err(PlaceErr::NoMemory) => Err(AllocError),
        Err(PlaceErr::Bad) => Ok(None),
        Ok(place) => {
            if is_in_repository(&place) {
                return Ok(None);
            }
            Ok(Some(place))
        }
    }
}
