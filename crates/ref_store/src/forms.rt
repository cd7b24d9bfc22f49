// The texts of HEAD and of branches' files.
ghost use Rattle.std.specs.Prelude.{◌≡◌, ◌++◌, ℕ, List, take, bytes_eq, IfOk, MatchOption, option_map};
ghost use Rattle.repository.specs.All.{id_text, ref_text, id_in, branch_in};
ghost use Rattle.ref_store.specs.Forms.{head_text, head_given};

use crate::heads::Head;
use crate::names::is_branch;
use git_objects::Id;
use hex::FromHex;
use places::Text;
use std::alloc::{AllocError, Global};

/// The 40 digits of an id, and a newline.
pub(crate) fn id_text(alloc: Global, id: &Id) -> Result<Vec<u8>, AllocError>
    ensures { IfOk result (λ text. text.items ≡ id_text id.now.0) }
{
    let mut text = Vec::from_slice(alloc, &id.to_hex())?;
    text.push(b'\n')?;
    Ok(text)
}

// `ref: refs/heads/`, a branch's name and a newline.
fn ref_text(alloc: Global, name: &Text) -> Result<Vec<u8>, AllocError>
    ensures { IfOk result (λ text. text.items ≡ ref_text name.now) }
{
    let mut text = Vec::from_slice(alloc, b"ref: refs/heads/")?;
    text.extend_from_slice(name.as_str().as_bytes())?;
    text.push(b'\n')?;
    Ok(text)
}

/// The text of HEAD.
pub(crate) fn head_text(alloc: Global, head: &Head) -> Result<Vec<u8>, AllocError>
    ensures { IfOk result (λ text. text.items ≡ head_text head.now) }
{
    match head {
        Head::Branch(name) => ref_text(alloc, name),
        Head::Detached(id) => id_text(alloc, id),
    }
}

fn without_front<'a>(text: &'a [u8], front: &[u8]) -> Option<&'a [u8]>
    ensures { MatchOption result ((rest : List ℕ) → text.now ≡ front.now ++ rest → ⊥)
        (λ rest. text.now ≡ front.now ++ rest.now) }
{
    text.strip_prefix(front)
}

fn without_end<'a>(text: &'a [u8], end: &[u8]) -> Option<&'a [u8]>
    ensures { MatchOption result ((rest : List ℕ) → text.now ≡ rest ++ end.now → ⊥)
        (λ rest. text.now ≡ rest.now ++ end.now) }
{
    text.strip_suffix(end)
}

// The first 40 bytes, or all where there are fewer.
fn front(text: &[u8]) -> &[u8]
    ensures { result.now ≡ take 40 text.now }
{
    if text.len() < 40 {
        return text;
    }
    &text[..40]
}

// Whether the text is exactly that of the id.
fn is_text_of(text: &[u8], id: &Id) -> bool
    ensures { result ≡ bytes_eq text.now (id_text id.now.0) }
{
    match without_end(text, b"\n") {
        Some(digits) => digits == id.to_hex().as_slice(),
        None => false,
    }
}

/// The id that a text names, which is 40 lower-case digits and a newline.
#[tactic(auto, unfolding(repository::specs::Heads::id_in))]
pub(crate) fn id_in(text: &[u8]) -> Option<Id>
    ensures { option_map (λ id. id.0) result ≡ id_in text.now }
{
    match <[u8; 20] as FromHex>::from_hex(front(text)) {
        Ok(bytes) => {
            let id = Id(bytes);
            if is_text_of(text, &id) {
                Some(id)
            } else {
                None
            }
        }
        Err(_) => None,
    }
}

// The name of the branch that a text of HEAD names.
fn branch_in(text: &[u8]) -> Option<&[u8]>
    ensures { option_map (λ name. name.now) result ≡ branch_in text.now }
{
    let Some(rest) = without_front(text, b"ref: refs/heads/") else {
        return None;
    };
    let Some(name) = without_end(rest, b"\n") else {
        return None;
    };
    if is_branch(name) { Some(name) } else { None }
}

/// The head that a text of HEAD gives, None where it has neither form.
pub(crate) fn head_given(alloc: Global, text: &[u8]) -> Result<Option<Head>, AllocError>
    ensures { IfOk result (λ head. head ≡ head_given text.now) }
{
    if let Some(id) = id_in(text) {
        return Ok(Some(Head::Detached(id)));
    }
    match branch_in(text) {
        Some(name) => {
            let name = String::from_utf8(Vec::from_slice(alloc, name)?).unwrap();
            Ok(Some(Head::Branch(Text::new(name))))
        }
        None => Ok(None),
    }
}
