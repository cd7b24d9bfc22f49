// Lists of contents that are to be kept.
ghost use Rattle.std.specs.Prelude.{◌≡◌, IfOk};
ghost use Rattle.annex_store.specs.Members.{firsts, has_key, same_key, shown};

use annex_keys::Key;
use places::{Place, Text};
use std::alloc::{AllocError, Global};

/// A content that is to be kept: its key, the path by which it is told, and where its bytes stand.
#[derive(Drop)]
pub struct NewContent {
    pub key: Key,
    pub path: Text,
    pub source: Place,
}

// Whether two keys are the same.
fn is_same(one: &Key, other: &Key) -> bool
    ensures { result ≡ same_key one.now other.now }
{
    let backends = one.backend() == other.backend();
    let sizes = one.size() == other.size();
    let digests = one.digest() == other.digest();
    let exts = one.ext() == other.ext();
    if backends && sizes && digests {
        return exts;
    }
    false
}

// Whether one of these has the key.
fn has_key(list: &[&NewContent], key: &Key) -> bool
    ensures { result ≡ has_key (shown list.now) key.now }
{
    for content in list {
        if is_same(&content.key, key) {
            return true;
        }
    }
    false
}

/// Of those with one key the first.
pub(crate) fn firsts<'a>(
    alloc: Global,
    list: &'a [NewContent],
) -> Result<Vec<&'a NewContent>, AllocError>
    ensures { IfOk result (λ found. shown found.items ≡ firsts list.now) }
{
    let mut found = Vec::new(alloc);
    for content in list {
        if !has_key(found.as_slice(), &content.key) {
            found.push(content)?;
        }
    }
    Ok(found)
}
