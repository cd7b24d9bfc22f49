// The commits to which the bases of revision words lead.
ghost use Rattle.std.specs.Prelude.{◌≡◌, ◌||◌, IsTrue, IfOk, IfSome, None, bytes_eq, codes, is_some, string_bytes};
ghost use Rattle.std.specs.Char.{is_ascii_hexdigit};
ghost use Rattle.std.specs.List.{Contains, list_all};
ghost use Rattle.faults.specs.declared.faults.Fault.TheVariants.{Ambiguous};
ghost use Rattle.git_objects.specs.All.{IsId, lowered};
ghost use Rattle.repository.specs.All.{is_branch as is_branch_name};
ghost use Rattle.acts.specs.All.{NoFault, Reads};
ghost use Rattle.object_store.specs.All.{MayGet, begins_with};
ghost use Rattle.ref_store.specs.Revisions.{Fails, IsBase, IsDigitsBase, IsNamedBase, MayLead, MayLeadBy};
ghost use Rattle.ref_store.specs.Revisions.{has_branch, held_base, is_hex, only_commit};
ghost use Rattle.ref_store.specs.Resolving.{BaseReads, leads_where};

use crate::making::has_branch;
use crate::names::is_branch;
use crate::reading::{branch_tip, tip};
use faults::{Fault, Trouble};
use file_store::{Files, Place};
use git_objects::{Id, ObjKind};
use object_store::{get, ids_with_prefix};
use places::Text;
use std::alloc::{AllocError, Global};

// Whether a commit is held under the id.
fn holds_commit<F: Files>(
    alloc: Global,
    files: &mut F,
    repo: &Place,
    id: Id,
) -> Result<bool, Trouble>
    ensures reads { Reads (λ fault. MayGet repo.now id.0 fault) F.tells
        (λ g holds. held_base repo.now id.0 g ≡ leads_where id.0 holds)
        (λ g fault. held_base repo.now id.0 g ≡ Fails fault) (F.drive files.old) (F.drive files.new) result }
    ensures own { IsId id.0 }
{
    match get(alloc, files, repo, &id)? {
        Some((kind, _)) => Ok(kind == ObjKind::Commit),
        None => Ok(false),
    }
}

// The refusal of a word that leads to more than one commit.
fn ambiguous(alloc: Global, word: &str, first: &Id, second: &Id) -> Result<Fault, AllocError>
    ensures { IfOk result (λ fault. fault ≡ Ambiguous word.now first.now.0 second.now.0) }
{
    let word = Text::new(String::from_str(alloc, word)?);
    Ok(Fault::Ambiguous {
        word,
        first: first.0,
        second: second.0,
    })
}

// The one commit among these ids. Reading stops at the second.
fn only_commit<F: Files>(
    alloc: Global,
    files: &mut F,
    repo: &Place,
    word: &str,
    ids: &[Id],
) -> Result<Option<Id>, Trouble>
    ensures reads { BaseReads repo.now word.now (λ g base. base ≡ only_commit repo.now word.now g None ids.now) F.tells
        (F.drive files.old) (F.drive files.new) result }
    ensures among { IfOk result (λ found. IfSome found (Contains ids.now)) }
{
    let mut found = None;
    for id in ids {
        if !holds_commit(alloc, files, repo, *id)? {
            continue;
        }
        if let Some(first) = found {
            return Err(Trouble::Refused(ambiguous(alloc, word, &first, id)?));
        }
        found = Some(*id);
    }
    Ok(found)
}

// Whether these are 4 to 39 hexadecimal digits.
fn is_beginning(text: &[u8]) -> bool
    ensures { result ≡ is_hex 4 39 text.now }
{
    if text.len() < 4 {
        return false;
    }
    if text.len() > 39 {
        return false;
    }
    text.iter().all(|byte| byte.is_ascii_hexdigit())
}

// The digits with small letters.
fn lowered(alloc: Global, digits: &[u8]) -> Result<String, AllocError>
    requires { IsTrue (list_all is_ascii_hexdigit digits.now) }
    ensures { IfOk result (λ text. string_bytes text ≡ lowered digits.now) }
{
    let mut text = String::from_utf8(Vec::from_slice(alloc, digits)?).unwrap();
    text.make_ascii_lowercase();
    Ok(text)
}

// The one commit whose id begins with a base's digits.
fn begun_id<F: Files>(
    alloc: Global,
    files: &mut F,
    repo: &Place,
    word: &str,
    base: &[u8],
) -> Result<Option<Id>, Trouble>
    ensures reads { BaseReads repo.now word.now
        (λ g found. IsDigitsBase repo.now word.now base.now g (is_hex 4 39 base.now) found) F.tells
        (F.drive files.old) (F.drive files.new) result }
    ensures begins { IfOk result (λ found. IfSome found (λ id. IsTrue (begins_with (lowered base.now) id.0))) }
{
    if !is_beginning(base) {
        return Ok(None);
    }
    let digits = lowered(alloc, base)?;
    let ids = ids_with_prefix(alloc, files, repo, digits.as_str())?;
    only_commit(alloc, files, repo, word, ids.as_slice())
}

fn name_text(alloc: Global, name: &[u8]) -> Result<Text, AllocError>
    requires { IsTrue (is_branch_name name.now) }
    ensures { IfOk result (λ text. text ≡ name.now) }
{
    let name = String::from_utf8(Vec::from_slice(alloc, name)?).unwrap();
    Ok(Text::new(name))
}

// The name of a branch, where one of that name stands.
fn standing_branch<F: Files>(
    alloc: Global,
    files: &mut F,
    repo: &Place,
    name: &[u8],
) -> Result<Option<Text>, Trouble>
    ensures reads { Reads (λ fault. NoFault fault) F.tells (λ g found. is_some found ≡ has_branch repo.now name.now g)
        (λ g fault. ⊥) (F.drive files.old) (F.drive files.new) result }
    ensures named { IfOk result (λ found. IfSome found (λ text. (text ≡ name.now) × IsTrue (is_branch_name name.now))) }
{
    if !is_branch(name) {
        return Ok(None);
    }
    let name = name_text(alloc, name)?;
    if !has_branch(alloc, files, repo, &name)? {
        return Ok(None);
    }
    Ok(Some(name))
}

// What isn't HEAD and no id: a branch, or the digits of one commit.
fn named_id<F: Files>(
    alloc: Global,
    files: &mut F,
    repo: &Place,
    word: &str,
    base: &[u8],
) -> Result<Option<Id>, Trouble>
    ensures reads { BaseReads repo.now word.now
        (λ g found. IsNamedBase repo.now word.now base.now g (has_branch repo.now base.now g) found) F.tells
        (F.drive files.old) (F.drive files.new) result }
    ensures may { IfOk result (λ found. IfSome found
        (λ id. MayLeadBy base.now id.0 (is_branch_name base.now || bytes_eq base.now (codes "HEAD")))) }
{
    let Some(name) = standing_branch(alloc, files, repo, base)? else {
        return begun_id(alloc, files, repo, word, base);
    };
    let id = branch_tip(alloc, files, repo, &name)?;
    Ok(Some(id))
}

/// The commit to which the base of a revision word leads, None where no rule finds one.
pub(crate) fn base_id<F: Files>(
    alloc: Global,
    files: &mut F,
    repo: &Place,
    word: &str,
    base: &[u8],
) -> Result<Option<Id>, Trouble>
    ensures reads { BaseReads repo.now word.now (λ g found. IsBase repo.now word.now base.now g found) F.tells
        (F.drive files.old) (F.drive files.new) result }
    ensures may { IfOk result (λ found. IfSome found (λ id. MayLead base.now id.0)) }
{
    if base == b"HEAD".as_slice() {
        let id = tip(alloc, files, repo)?;
        return Ok(Some(id));
    }
    let Some(id) = Id::from_hex(base) else {
        return named_id(alloc, files, repo, word, base);
    };
    if holds_commit(alloc, files, repo, id)? {
        Ok(Some(id))
    } else {
        Ok(None)
    }
}
