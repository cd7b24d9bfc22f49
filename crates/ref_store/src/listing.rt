// All branches of a repository.
//
// A directory below `refs/heads` is entered where names of branches can go on after its path. Names are short, so at
// most a hundred directories are entered one in the other. Whole names don't ascend in the order of such a walk: `a` is
// listed before `a.b`, but `a.b` comes before `a/c`. So they go through a set.
ghost use Rattle.std.specs.Prelude.{◌≡◌, ◌≤◌, ◌++◌, ◌∷◌, [], List, ℕ, map, length, string_bytes};
ghost use Rattle.std.specs.Prelude.{IfErr, IfOk, OnOk, MatchOption, IsTrue, None, Some};
ghost use Rattle.std.specs.BTreeSet.{IsOrdered};
ghost use Rattle.std.specs.String.{string_cmp};
ghost use Rattle.acts.specs.All.{NoFault, Reads};
ghost use Rattle.faults.specs.declared.faults.Fault.{Fault};
ghost use Rattle.faults.specs.declared.faults.Trouble.TheVariants.{NoMemory};
ghost use Rattle.file_store.specs.All.{is_item_name, kind_at};
ghost use Rattle.places.specs.All.{Ground, Names, is_path, pieces};
ghost use Rattle.ref_store.specs.Branches.{AreBranches, AreNames};
ghost use Rattle.ref_store.specs.Layout.{branch_path};
ghost use Rattle.ref_store.specs.Listing.{AddsNames, AllBranches, IsBelow, begins_branch, can_hold, heads_at};
ghost use Rattle.ref_store.specs.Listing.{is_branch_at, is_under};
ghost use Rattle.ref_store.specs.Reading.{long_place};

use crate::layout::place_at;
use crate::names::{has_components, is_branch};
use faults::Trouble;
use file_store::{Files, Item, Kind, Place};
use places::Text;
use std::alloc::{AllocError, Global};
use std::collections::BTreeSet;

// Whether names of branches can go on after this path and a slash.
fn can_hold(path: &str) -> bool
    ensures { result ≡ can_hold path.now }
{
    path.len() < 199 && has_components(path.as_bytes())
}

// The place of a path below `refs/heads`, None where places aren't so long.
fn place_of(alloc: Global, repo: &Place, path: &str) -> Result<Option<Place>, Trouble>
    requires { IsTrue (is_path (branch_path path.now)) }
    ensures found { IfOk result (λ found. MatchOption found
        ((fault : Fault) × (long_place (heads_at repo.now (pieces path.now)) ≡ Some fault))
        (λ place. (long_place place ≡ None) × (place ≡ heads_at repo.now (pieces path.now)))) }
    ensures halts { IfErr result (λ trouble. trouble ≡ NoMemory) }
{
    let mut whole = String::from_str(alloc, "refs/heads/")?;
    whole.push_str(path)?;
    match place_at(alloc, repo, whole.as_str()) {
        Ok(place) => Ok(Some(place)),
        Err(Trouble::Refused(_)) => Ok(None),
        Err(trouble) => Err(trouble),
    }
}

// Adds the name of a branch, where a file stands at its path.
fn add(
    alloc: Global,
    repo: &Place,
    name: String,
    kind: Kind,
    names: &mut BTreeSet<String>,
) -> Result<(), Trouble>
    requires { AllBranches names.old }
    ensures adds { OnOk result ((g : Ground) → kind ≡ kind_at g (heads_at repo.now (pieces (string_bytes name)))
        → AddsNames (is_branch_at repo.now (string_bytes name) g) names.old names.new) }
    ensures named { OnOk result (AllBranches names.new) }
    ensures halts { IfErr result (λ trouble. trouble ≡ NoMemory) }
{
    let Kind::File = kind else {
        return Ok(());
    };
    if !is_branch(name.as_bytes()) {
        return Ok(());
    }
    let Some(_) = place_of(alloc, repo, name.as_str())? else {
        return Ok(());
    };
    names.insert(name)?;
    Ok(())
}

// Takes one item of the directory in which the names of branches begin so.
#[cycle(listing)]
fn take_item<F: Files>(
    alloc: Global,
    files: &mut F,
    repo: &Place,
    front: &str,
    item: &Item,
    names: &mut BTreeSet<String>,
) -> Result<(), Trouble>
    requires name { IsTrue (is_item_name item.now.name) }
    requires short { length front.now ≤ 200 }
    requires named { AllBranches names.old }
    ensures reads { Reads (λ fault. NoFault fault) F.tells (λ g _. (place : Names) → IsBelow repo.now place front.now
        → item.now.kind ≡ kind_at g (place ++ item.now.name ∷ [])
        → AddsNames (is_under repo.now front.now g (item.now ∷ [])) names.old names.new) (λ g fault. ⊥)
        (F.drive files.old) (F.drive files.new) result }
    ensures named { OnOk result (AllBranches names.new) }
{
    let mut path = String::from_str(alloc, front)?;
    path.push_str(item.name.as_str())?;
    let Kind::Dir = item.kind else {
        return add(alloc, repo, path, item.kind, names);
    };
    if !can_hold(path.as_str()) {
        return Ok(());
    }
    let Some(place) = place_of(alloc, repo, path.as_str())? else {
        return Ok(());
    };
    path.push_str("/")?;
    walk(alloc, files, repo, &place, path.as_str(), names)
}

// Adds the names of the branches in a directory, which begin so.
#[cycle(listing)]
fn walk<F: Files>(
    alloc: Global,
    files: &mut F,
    repo: &Place,
    place: &Place,
    front: &str,
    names: &mut BTreeSet<String>,
) -> Result<(), Trouble>
    requires below { IsBelow repo.now place.now front.now }
    requires short { length front.now ≤ 200 }
    requires named { AllBranches names.old }
    ensures reads { Reads (λ fault. NoFault fault) F.tells
        (λ g _. AddsNames (begins_branch repo.now front.now g) names.old names.new) (λ g fault. ⊥)
        (F.drive files.old) (F.drive files.new) result }
    ensures named { OnOk result (AllBranches names.new) }
{
    let items = files.list(alloc, place)?;
    for item in &items {
        take_item(alloc, files, repo, front, item, names)?;
    }
    Ok(())
}

// The names of a set, in byte order.
fn as_list(alloc: Global, names: BTreeSet<String>) -> Result<Vec<Text>, AllocError>
    ensures items { IfOk result (λ list. list.items ≡ map (λ name. string_bytes name) names.keys) }
    ensures ordered { IfOk result (λ _. IsOrdered string_cmp names) }
{
    let mut list = Vec::new(alloc);
    for name in names {
        list.push(Text::new(name))?;
    }
    Ok(list)
}

/// The names of all branches, in byte order. Files below `refs/heads` whose paths there are no names of branches are
/// passed over. Refuses nothing.
pub fn branches<F: Files>(alloc: Global, files: &mut F, repo: &Place) -> Result<Vec<Text>, Trouble>
    ensures reads { Reads (λ fault. NoFault fault) F.tells (λ g names. AreBranches repo.now g names.items)
        (λ g fault. ⊥) (F.drive files.old) (F.drive files.new) result }
    ensures form { IfOk result (λ names. AreNames names.items) }
{
    let heads = match place_at(alloc, repo, "refs/heads") {
        Ok(place) => place,
        Err(Trouble::Refused(_)) => return Ok(Vec::new(alloc)),
        Err(trouble) => return Err(trouble),
    };
    let mut names = BTreeSet::new(alloc);
    walk(alloc, files, repo, &heads, "", &mut names)?;
    Ok(as_list(alloc, names)?)
}
