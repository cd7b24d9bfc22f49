// How a working file is kept, by its old leaf, its path and its bytes.
ghost use Rattle.std.specs.Prelude.{◌≡◌, ◌↔◌, Bool, IfOk, IsTrue, MatchOption, None, Option, Some, option_copied};
ghost use Rattle.annex_keys.specs.All.{IsPointer, Matches, key_of, pointer_text};
ghost use Rattle.annex_keys.specs.All.{PlainKey};
ghost use Rattle.git_objects.specs.declared.ids.Id.{Id};
ghost use Rattle.kept_files.specs.declared.kept.Kept.TheVariants.{Content, Pointer};
ghost use Rattle.kept_files.specs.Kept.{IsKept, Stays};
ghost use Rattle.kept_files.specs.Paths.{last_name};

use crate::kept::Kept;
use crate::limits::is_annexed;
use crate::paths::last_name;
use annex_keys::{Key, key_of, pointer_text, read_pointer};
use git_objects::{Id, blob_id};
use places::Text;
use std::alloc::{AllocError, Global};

// The key that the bytes get under this path.
fn content_key(alloc: Global, path: &str, bytes: &[u8]) -> Result<Key, AllocError>
    ensures { IfOk result (λ key. key ≡ key_of bytes.now (last_name path.now)) }
{
    match key_of(alloc, bytes, last_name(path)) {
        Ok(key) => Ok(key),
        Err(_) => Err(AllocError),
    }
}

// The pointer to a key, with its newline.
fn pointer_to(alloc: Global, key: &Key) -> Result<Text, AllocError>
    ensures { IfOk result (λ text. text ≡ pointer_text key.now) }
{
    match pointer_text(alloc, key) {
        Ok(text) => Ok(text),
        Err(_) => Err(AllocError),
    }
}

// The key to which the bytes point.
fn pointed(alloc: Global, bytes: &[u8]) -> Result<Option<Key>, AllocError>
    ensures { IfOk result (λ found. MatchOption found
        ((key : PlainKey) → IsPointer bytes.now key → ⊥) (IsPointer bytes.now)) }
{
    match read_pointer(alloc, bytes) {
        Ok(found) => Ok(found),
        Err(_) => Err(AllocError),
    }
}

// Whether two keys are those of one content.
fn have_one_content(one: &Key, other: &Key) -> bool
    ensures { IsTrue result ↔ ((one.now.size ≡ other.now.size) × (one.now.digest ≡ other.now.digest)) }
{
    one.size() == other.size() && *one.digest() == *other.digest()
}

fn are_same(one: &Key, other: &Key) -> bool
    ensures { IsTrue result ↔ (one.now ≡ other.now) }
{
    one.backend() == other.backend() && have_one_content(one, other) && one.ext() == other.ext()
}

// A file whose bytes are a content, under its key.
fn as_content(alloc: Global, key: Key) -> Result<Kept, AllocError>
    ensures { IfOk result (λ kept. kept ≡ Content (pointer_text key) key) }
{
    let text = pointer_to(alloc, &key)?;
    Ok(Kept::Content { text, key })
}

// A file whose bytes point to this key.
fn as_pointer(alloc: Global, key: &Key) -> Result<Kept, AllocError>
    ensures { IfOk result (λ kept. kept ≡ Pointer (pointer_text key.now)) }
{
    let text = pointer_to(alloc, key)?;
    Ok(Kept::Pointer { text })
}

// A file whose old leaf is annexed. Its bytes are digested once, for their own key, which tells too whether they are
// the content of the old one.
fn annexed_before(alloc: Global, key: &Key, path: &str, bytes: &[u8]) -> Result<Kept, AllocError>
    ensures { IfOk result (λ kept. (blob : Option Id) (to_git : Bool)
        → IsKept blob (Some key.now) path.now to_git bytes.now kept) }
{
    let own = content_key(alloc, path, bytes)?;
    if have_one_content(key, &own) {
        return Ok(Kept::Same { is_content: true });
    }
    let Some(found) = pointed(alloc, bytes)? else {
        return as_content(alloc, own);
    };
    if are_same(key, &found) {
        return Ok(Kept::Same { is_content: false });
    }
    as_pointer(alloc, &found)
}

// Whether the bytes are those of a blob that git has.
fn is_blob(blob: Option<Id>, bytes: &[u8]) -> bool
    ensures { IsTrue result ↔ Stays blob None bytes.now }
{
    match blob {
        Some(id) => id == blob_id(bytes),
        None => false,
    }
}

// A file whose old leaf is kept in git, or a new one.
fn not_annexed_before(
    alloc: Global,
    blob: Option<Id>,
    path: &str,
    bytes: &[u8],
    to_git: bool,
) -> Result<Kept, AllocError>
    ensures { IfOk result (λ kept. IsKept blob None path.now to_git bytes.now kept) }
{
    if is_blob(blob, bytes) {
        return Ok(Kept::Same { is_content: false });
    }
    if let Some(found) = pointed(alloc, bytes)? {
        return as_pointer(alloc, &found);
    }
    if !is_annexed(blob, None, path, to_git) {
        return Ok(Kept::InGit);
    }
    let key = content_key(alloc, path, bytes)?;
    as_content(alloc, key)
}

/// How a file with these bytes is kept.
///
/// `blob` is the id of the blob of the path's old leaf, and `key` its key where that leaf is annexed. Both are None
/// where the path has no old leaf, or that of a link or a subdataset. `to_git` asks for new files to be kept in git.
/// Fails only for want of memory.
pub fn how_kept(
    alloc: Global,
    blob: Option<Id>,
    key: Option<&Key>,
    path: &str,
    bytes: &[u8],
    to_git: bool,
) -> Result<Kept, AllocError>
    ensures { IfOk result (λ kept.
        IsKept blob (option_copied key.entry) path.now to_git bytes.now kept) }
{
    match key {
        Some(key) => annexed_before(alloc, key, path, bytes),
        None => not_annexed_before(alloc, blob, path, bytes, to_git),
    }
}
