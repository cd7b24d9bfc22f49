// Searching for objects by the first digits of their ids.
//
// The first two digits of an id are the name of a directory, and the other 38 that of the object's file in it.
ghost use Rattle.std.specs.Prelude.{◌≡◌, ◌≤◌, ◌++◌, ◌||◌, ◌∷◌, [], List, ℕ, length, map, codes, string_bytes};
ghost use Rattle.std.specs.Prelude.{Some, IfOk, OnOk, MatchOption, nat_eq};
ghost use Rattle.std.specs.BTreeSet.{IsOrdered};
ghost use Rattle.std.specs.Cmp.Lexicographic.{slice_cmp};
ghost use Rattle.std.specs.List.{All, starts_with};
ghost use Rattle.std.specs.Ordering.{nat_cmp};
ghost use Rattle.acts.specs.All.{NoFault, Reads};
ghost use Rattle.git_objects.specs.All.{IsId, hex_of};
ghost use Rattle.places.specs.All.{text_of};
ghost use Rattle.repository.specs.All.{object_limit};
ghost use Rattle.object_store.specs.Prefixes.{AreIdsWith, BeginWith, MaySearch, long_objects};
ghost use Rattle.object_store.specs.Prefixes.{Adds, AllBegin, HaveIdsWith, is_item_with, stands_under};

use faults::Trouble;
use file_store::{Files, Item, Kind, Place};
use git_objects::Id;
use repository::{OBJECT_LIMIT, repo_too_large};
use std::alloc::{AllocError, Global};
use std::collections::BTreeSet;

// The two digits of a byte.
fn pair_of(first: u8) -> [u8; 2]
    ensures { result ≡ hex_of (first ∷ []) }
{
    let mut pair = [0u8; 2];
    hex::encode_to_slice(&[first], &mut pair).unwrap();
    pair
}

// Whether one of the two texts begins with the other.
fn agree(pair: &[u8], digits: &[u8]) -> bool
    ensures { result ≡ (starts_with nat_eq pair.now digits.now || starts_with nat_eq digits.now pair.now) }
{
    pair.starts_with(digits) || digits.starts_with(pair)
}

// `objects/aa`
fn directory_path(alloc: Global, first: u8) -> Result<String, AllocError>
    ensures { IfOk result (λ path. string_bytes path ≡ codes "objects/" ++ hex_of (first ∷ [])) }
{
    let mut path = Vec::from_slice(alloc, b"objects/")?;
    path.extend_from_slice(&pair_of(first))?;
    Ok(String::from_utf8(path).unwrap())
}

// The directory of the objects whose ids have this first byte.
fn directory(alloc: Global, repo: &Place, first: u8) -> Result<Place, AllocError>
    requires { length (text_of repo.now) ≤ object_limit }
    ensures { IfOk result (λ place. place ≡ repo.now ++ codes "objects" ∷ hex_of (first ∷ []) ∷ []) }
{
    let path = directory_path(alloc, first)?;
    repo.below(alloc, path.as_str())
}

// The id with these digits, None where they are no id's in lower case.
fn id_with(digits: &[u8]) -> Option<Id>
    ensures { MatchOption result ((id : List ℕ) → IsId id → hex_of id ≡ digits.now → ⊥)
        (λ id. hex_of id.0 ≡ digits.now) }
{
    let Some(id) = Id::from_hex(digits) else {
        return None;
    };
    if id.to_hex().as_slice() != digits {
        return None;
    }
    Some(id)
}

// Adds the id of the object whose file the item is, in the directory under two digits.
fn add(
    alloc: Global,
    digits: &str,
    pair: &[u8],
    item: &Item,
    ids: &mut BTreeSet<[u8; 20]>,
) -> Result<(), AllocError>
    requires { AllBegin digits.now ids.old }
    ensures adds { OnOk result (Adds (is_item_with digits.now pair.now (item.now ∷ [])) ids.old ids.new) }
    ensures begin { OnOk result (AllBegin digits.now ids.new) }
{
    let Kind::File = item.kind else {
        return Ok(());
    };
    let mut whole = Vec::from_slice(alloc, pair)?;
    whole.extend_from_slice(item.name.as_str().as_bytes())?;
    let Some(id) = id_with(whole.as_slice()) else {
        return Ok(());
    };
    if !whole.starts_with(digits.as_bytes()) {
        return Ok(());
    }
    ids.insert(id.0)?;
    Ok(())
}

// Adds the ids with this first byte.
fn add_first<F: Files>(
    alloc: Global,
    files: &mut F,
    repo: &Place,
    digits: &str,
    first: u8,
    ids: &mut BTreeSet<[u8; 20]>,
) -> Result<(), Trouble>
    requires fits { length (text_of repo.now) ≤ object_limit }
    requires begin { AllBegin digits.now ids.old }
    ensures reads { Reads (λ fault. NoFault fault) F.tells
        (λ g _. Adds (stands_under repo.now digits.now first g) ids.old ids.new) (λ g fault. ⊥)
        (F.drive files.old) (F.drive files.new) result }
    ensures begin { OnOk result (AllBegin digits.now ids.new) }
{
    let pair = pair_of(first);
    if !agree(&pair, digits.as_bytes()) {
        return Ok(());
    }
    let place = directory(alloc, repo, first)?;
    let items = files.list(alloc, &place)?;
    for item in &items {
        add(alloc, digits, &pair, item, ids)?;
    }
    Ok(())
}

// The ids that begin so, directory by directory.
fn gathered<F: Files>(
    alloc: Global,
    files: &mut F,
    repo: &Place,
    digits: &str,
) -> Result<BTreeSet<[u8; 20]>, Trouble>
    requires { length (text_of repo.now) ≤ object_limit }
    ensures reads { Reads (λ fault. NoFault fault) F.tells (λ g ids. HaveIdsWith repo.now digits.now g ids)
        (λ g fault. ⊥) (F.drive files.old) (F.drive files.new) result }
    ensures begin { IfOk result (λ ids. AllBegin digits.now ids) }
{
    let mut ids = BTreeSet::new(alloc);
    for first in 0..=255u8 {
        add_first(alloc, files, repo, digits, first, &mut ids)?;
    }
    Ok(ids)
}

// The id of these bytes.
fn id_of(bytes: [u8; 20]) -> Id
    ensures bytes { result.0 ≡ bytes }
    ensures own { IsId result.0 }
{
    Id(bytes)
}

// The ids of a set, ascending.
fn as_list(alloc: Global, ids: BTreeSet<[u8; 20]>) -> Result<Vec<Id>, AllocError>
    ensures items { IfOk result (λ list. map (λ id. id.0) list.items ≡ ids.keys) }
    ensures ordered { IfOk result (λ _. IsOrdered (slice_cmp nat_cmp) ids) }
    ensures own { IfOk result (λ list. All (λ id. IsId id.0) list.items) }
{
    let mut list = Vec::new(alloc);
    for id in ids {
        list.push(id_of(id))?;
    }
    Ok(list)
}

/// The ids of the objects' files that begin with these lower-case digits, ascending.
///
/// Refuses TooLarge of the repository's place. Of two digits and more one directory is listed; what stands at a place is
/// not read.
pub fn ids_with_prefix<F: Files>(
    alloc: Global,
    files: &mut F,
    repo: &Place,
    digits: &str,
) -> Result<Vec<Id>, Trouble>
    ensures reads { Reads (λ fault. MaySearch repo.now fault) F.tells
        (λ g ids. AreIdsWith repo.now digits.now g ids.items) (λ g fault. long_objects repo.now ≡ Some fault)
        (F.drive files.old) (F.drive files.new) result }
    ensures form { IfOk result (λ ids. BeginWith digits.now ids.items) }
{
    if OBJECT_LIMIT < repo.as_str().len() {
        return Err(Trouble::Refused(repo_too_large(alloc, repo)?));
    }
    let ids = gathered(alloc, files, repo, digits)?;
    Ok(as_list(alloc, ids)?)
}
