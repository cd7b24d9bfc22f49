// Where the content and the log of a key stand.
ghost use Rattle.std.specs.Prelude.{◌≡◌, ◌≤◌, ◌++◌, IsTrue, IfOk, None, OnOk, length, string_bytes};
ghost use Rattle.places.specs.All.{is_path, pieces, text_of};
ghost use Rattle.annex_keys.specs.All.{IsKey, hash_dir, key_text};
ghost use Rattle.repository.specs.All.{repo_limit};
ghost use Rattle.annex_store.specs.Layout.{content_place, log_place};
ghost use Rattle.annex_store.specs.Places.{IsPlaced, content_path, log_path, long_place};

use annex_keys::{Key, hash_dir, to_text};
use faults::Trouble;
use places::{Place, Text};
use repository::{PLACE_LIMIT, too_large};
use std::alloc::{AllocError, Global};

// The place at a path, refused where it is longer than places are.
fn place_at(alloc: Global, repo: &Place, path: &str) -> Result<Place, Trouble>
    requires { IsTrue (is_path path.now) }
    ensures { IsPlaced (repo.now ++ pieces path.now) result }
{
    let text = repo.joined(alloc, path)?;
    if PLACE_LIMIT < text.len() {
        return Err(Trouble::Refused(too_large(text)));
    }
    Ok(repo.below(alloc, path)?)
}

// The directories of a key.
fn directories(alloc: Global, key: &Key) -> Result<Text, AllocError>
    ensures { IfOk result (λ text. text ≡ hash_dir key.now) }
{
    match hash_dir(alloc, key) {
        Ok(text) => Ok(text),
        Err(_) => Err(AllocError),
    }
}

/// The text of a key.
pub(crate) fn key_text(alloc: Global, key: &Key) -> Result<Text, AllocError>
    ensures text { IfOk result (λ text. text ≡ key_text key.now) }
    ensures stored { OnOk result (IsKey key.now) }
{
    match to_text(alloc, key) {
        Ok(text) => Ok(text),
        Err(_) => Err(AllocError),
    }
}

// `annex/objects/aaa/bbb/KEY`
fn content_path(alloc: Global, key: &Key) -> Result<String, AllocError>
    ensures text { IfOk result (λ path. string_bytes path ≡ content_path key.now) }
    ensures stored { OnOk result (IsKey key.now) }
{
    let directories = directories(alloc, key)?;
    let text = key_text(alloc, key)?;
    let directories = directories.as_str();
    let text = text.as_str();
    format!(in alloc; "annex/objects/{directories}/{text}")
}

// `annex/logs/aaa/bbb/KEY.log`
fn log_path(alloc: Global, key: &Key) -> Result<String, AllocError>
    ensures text { IfOk result (λ path. string_bytes path ≡ log_path key.now) }
    ensures stored { OnOk result (IsKey key.now) }
{
    let directories = directories(alloc, key)?;
    let text = key_text(alloc, key)?;
    let directories = directories.as_str();
    let text = text.as_str();
    format!(in alloc; "annex/logs/{directories}/{text}.log")
}

/// Where the content of a key stands.
pub(crate) fn content_place(alloc: Global, repo: &Place, key: &Key) -> Result<Place, Trouble>
    ensures { IsPlaced (content_place repo.now key.now) result }
{
    let path = content_path(alloc, key)?;
    place_at(alloc, repo, path.as_str())
}

/// Where the log of a key stands.
pub(crate) fn log_place(alloc: Global, repo: &Place, key: &Key) -> Result<Place, Trouble>
    ensures { IsPlaced (log_place repo.now key.now) result }
{
    let path = log_path(alloc, key)?;
    place_at(alloc, repo, path.as_str())
}

/// The same in a repository in which something may be written.
pub(crate) fn short_log_place(alloc: Global, repo: &Place, key: &Key) -> Result<Place, AllocError>
    requires { length (text_of repo.now) ≤ repo_limit }
    ensures { IfOk result (λ place. place ≡ log_place repo.now key.now) }
{
    let path = log_path(alloc, key)?;
    repo.below(alloc, path.as_str())
}

/// Where the content of a key stands in a repository in which something may be written.
pub(crate) fn short_content_place(
    alloc: Global,
    repo: &Place,
    key: &Key,
) -> Result<Place, AllocError>
    requires { length (text_of repo.now) ≤ repo_limit }
    ensures { IfOk result (λ place. place ≡ content_place repo.now key.now) }
{
    let path = content_path(alloc, key)?;
    repo.below(alloc, path.as_str())
}

/// Where the content of a key stands whose log has a place: its place is shorter by a byte.
pub(crate) fn near_content_place(
    alloc: Global,
    repo: &Place,
    key: &Key,
) -> Result<Place, AllocError>
    requires { long_place (log_place repo.now key.now) ≡ None }
    ensures { IfOk result (λ place. place ≡ content_place repo.now key.now) }
{
    let path = content_path(alloc, key)?;
    repo.below(alloc, path.as_str())
}
