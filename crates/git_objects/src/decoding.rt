// Reading a tree's body.
ghost use Rattle.std.specs.Prelude.{◌≡◌, ℕ, true, List, [], ◌∷◌, ◌++◌, ◌<◌, length};
ghost use Rattle.std.specs.Prelude.{IfOk, MatchOption};
ghost use Rattle.git_objects.specs.Decodes.{DecodeEnds};
ghost use Rattle.git_objects.specs.Decoding.{IsEntryText, NoMode, NoEntry};
ghost use Rattle.git_objects.specs.Entries.{mode_text, is_tree};
ghost use Rattle.git_objects.specs.Sorted.{IsAscending, is_twin};

use crate::cuts::{cut_at, without_front};
use crate::entries::{Mode, TreeEntry};
use crate::errors::ObjErr;
use crate::ids::Id;
use crate::trees::{Tree, has_key};
use places::Text;
use std::alloc::{AllocError, Global};

// What follows the mode's digits and a blank.
fn after_mode(text: &[u8], mode: Mode) -> Option<&[u8]>
    ensures { MatchOption result ((after : List ℕ) → text.now ≡ mode_text mode ++ 32 ∷ after → ⊥)
        (λ rest. text.now ≡ mode_text mode ++ 32 ∷ rest.now) }
{
    let rest = without_front(text, mode.digits().as_bytes())?;
    without_front(rest, b" ")
}

// The mode at the front of an entry's text, and what follows it.
fn read_mode(text: &[u8]) -> Option<(Mode, &[u8])>
    ensures { MatchOption result (NoMode text.now)
        (λ read. text.now ≡ mode_text read.0 ++ 32 ∷ read.1.now) }
{
    let modes = [Mode::File, Mode::Exec, Mode::Link, Mode::Dir, Mode::Pin];
    for mode in modes {
        if let Some(rest) = after_mode(text, mode) {
            return Some((mode, rest));
        }
    }
    None
}

// The id at the front, and what follows it.
fn read_id(text: &[u8]) -> Option<(Id, &[u8])>
    ensures { MatchOption result (length text.now < 20)
        (λ read. (length read.0.0 ≡ 20) × (text.now ≡ read.0.0 ++ read.1.now)) }
{
    let (id, rest) = text.split_first_chunk::<20>()?;
    Some((Id(*id), rest))
}

// The entry at the front, and what follows it.
fn read_entry(alloc: Global, text: &[u8]) -> Result<Option<(TreeEntry, &[u8])>, AllocError>
    ensures { IfOk result (λ found. MatchOption found (NoEntry text.now)
        (λ read. IsEntryText text.now read.0 read.1.now)) }
{
    let Some((mode, rest)) = read_mode(text) else {
        return Ok(None);
    };
    let Some((name, rest)) = cut_at(rest, b'\0') else {
        return Ok(None);
    };
    let Ok(name) = str::from_utf8(name) else {
        return Ok(None);
    };
    let Some((id, rest)) = read_id(rest) else {
        return Ok(None);
    };
    let name = Text::new(String::from_str(alloc, name)?);
    Ok(Some((TreeEntry { mode, name, id }, rest)))
}

// Whether it is a directory with the name of a file among the entries.
fn is_twin(entries: &[TreeEntry], entry: &TreeEntry) -> bool
    requires { IsAscending entries.now }
    ensures { result ≡ is_twin entries.now entry.now }
{
    entry.mode.is_dir() && has_key(entries, entry.name.as_str().as_bytes())
}

// Whether the entry may follow those of a tree.
fn may_follow(entries: &[TreeEntry], entry: &TreeEntry) -> bool
    requires { is_tree entries.now ≡ true }
    ensures { result ≡ is_tree (entries.now ++ entry.now ∷ []) }
{
    if !entry.is_entry() {
        return false;
    }
    let Some(last) = entries.last() else {
        return true;
    };
    if !last.sorts_below(entry) {
        return false;
    }
    !is_twin(entries, entry)
}

impl Tree {
    /// The tree with this body.
    pub fn decode(alloc: Global, body: &[u8]) -> Result<Tree, ObjErr>
        ensures { DecodeEnds body.now result }
    {
        let mut entries: Vec<TreeEntry> = Vec::new(alloc);
        let mut rest = body;
        while !rest.is_empty() {
            let at = (body.len() - rest.len()) as u64;
            let Some((entry, after)) = read_entry(alloc, rest)? else {
                return Err(ObjErr::BadTree { at });
            };
            if !may_follow(entries.as_slice(), &entry) {
                return Err(ObjErr::BadTree { at });
            }
            entries.push(entry)?;
            rest = after;
        }
        Ok(Tree { entries })
    }
}
