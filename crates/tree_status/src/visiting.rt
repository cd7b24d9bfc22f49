// One item of a walk.
ghost use Rattle.std.specs.Prelude.{◌≡◌, ◌≤◌, ◌++◌, ◌∷◌, [], true, false, List, ℕ, length, codes};
ghost use Rattle.std.specs.Prelude.{IfOk, MatchOption, Some};
ghost use Rattle.places.specs.All.{IsPlace, is_text, joined, names_of, file_at};
ghost use Rattle.file_store.specs.All.{kind_at};
ghost use Rattle.acts.specs.All.{Reads};
ghost use Rattle.faults.specs.declared.faults.Fault.TheVariants.{OddKind, TooLarge, Dirty};
ghost use Rattle.tree_status.specs.Keeping.{limit_by};
ghost use Rattle.tree_status.specs.Working.{directory_of, is_nested, item_at, fault_along};
ghost use Rattle.tree_status.specs.Walks.{MayMeet, MayFile, MayNest, MayTake, Went, one_of};
ghost use Rattle.tree_status.specs.Walks.{AddsFile, Takes, IsWorkingPath, RefusesItem, file_fault};

use crate::found::Found;
use crate::keeping::Keeping;
use faults::{Fault, Trouble};
use file_store::{Files, Kind, Place, PlaceErr};
use places::Text;
use repository::ITEM_LIMIT;
use std::alloc::{AllocError, Global};

/// A copy of a text.
pub(crate) fn text(alloc: Global, text: &str) -> Result<Text, AllocError>
    ensures { IfOk result (λ copy. copy ≡ text.now) }
{
    Ok(Text::new(String::from_str(alloc, text)?))
}

// The path of the directory in which a path lies.
fn directory_of(path: &str) -> &str
    ensures { result.now ≡ directory_of path.now }
{
    match path.rfind('/') {
        None => ".",
        Some(at) => &path[..at],
    }
}

fn too_many(alloc: Global) -> Result<Fault, AllocError>
    ensures { IfOk result (λ fault. fault ≡ TooLarge (codes ".") 100001) }
{
    let path = text(alloc, ".")?;
    let size = ITEM_LIMIT + 1;
    Ok(Fault::TooLarge { path, size })
}

// The refusal of a path whose place would be none.
fn too_long(alloc: Global, root: &Place, path: &str) -> Result<Fault, AllocError>
    ensures fault { IfOk result (λ fault. fault ≡ TooLarge (directory_of path.now) (length (joined root.now path.now))) }
    ensures place { IfOk result (λ _. IsPlace root.now) }
{
    let size = root.joined(alloc, path)?.len() as u64;
    let path = text(alloc, directory_of(path))?;
    Ok(Fault::TooLarge { path, size })
}

fn too_large(alloc: Global, path: &str, size: u64) -> Result<Fault, AllocError>
    ensures { IfOk result (λ fault. fault ≡ TooLarge path.now size) }
{
    let path = text(alloc, path)?;
    Ok(Fault::TooLarge { path, size })
}

fn odd_kind(alloc: Global, path: &str) -> Result<Fault, AllocError>
    ensures { IfOk result (λ fault. fault ≡ OddKind path.now) }
{
    let path = text(alloc, path)?;
    Ok(Fault::OddKind { path })
}

/// The refusal of a file that is gone.
pub(crate) fn gone(alloc: Global, path: &str) -> Result<Fault, AllocError>
    ensures { IfOk result (λ fault. fault ≡ Dirty path.now) }
{
    let path = text(alloc, path)?;
    Ok(Fault::Dirty { path })
}

/// The place at a path below a root, where there is one.
pub(crate) fn place_below(
    alloc: Global,
    root: &Place,
    path: &str,
) -> Result<Option<Place>, AllocError>
    ensures { IfOk result (λ found. MatchOption found (is_text (joined root.now path.now) ≡ false)
        (λ place. (is_text (joined root.now path.now) ≡ true) × (place ≡ root.now ++ names_of path.now))) }
{
    match root.join(alloc, path) {
        Ok(place) => Ok(Some(place)),
        Err(PlaceErr::Bad) => Ok(None),
        Err(PlaceErr::NoMemory) => Err(AllocError),
    }
}

// Adds a working file, whose size is asked.
fn add_file<F: Files>(
    alloc: Global,
    files: &mut F,
    place: &Place,
    path: &str,
    by: &Keeping,
    found: &mut Found,
) -> Result<(), Trouble>
    ensures { Reads (λ fault. MayFile path.now fault) F.tells
        (λ g _. AddsFile (limit_by by.now) path.now (file_at g place.now) found.old found.new)
        (λ g fault. file_fault (limit_by by.now) path.now (file_at g place.now) ≡ Some fault)
        (F.drive files.old) (F.drive files.new) result }
{
    let Some(size) = files.size(alloc, place)? else {
        return Err(Trouble::Refused(gone(alloc, path)?));
    };
    if size > by.limit(path) {
        return Err(Trouble::Refused(too_large(alloc, path, size)?));
    }
    found.paths.push(text(alloc, path)?)?;
    Ok(())
}

// Refuses a directory that is a dataset of its own.
fn check_directory<F: Files>(
    alloc: Global,
    files: &mut F,
    place: &Place,
    path: &str,
) -> Result<(), Trouble>
    ensures { Reads (λ fault. MayNest path.now fault) F.tells (λ g _. is_nested g place.now ≡ false)
        (λ g fault. (is_nested g place.now ≡ true) × (fault ≡ OddKind path.now))
        (F.drive files.old) (F.drive files.new) result }
{
    let Some(head) = place_below(alloc, place, ".dlrepo/HEAD")? else {
        return Ok(());
    };
    let Kind::File = files.kind(alloc, &head)? else {
        return Ok(());
    };
    Err(Trouble::Refused(odd_kind(alloc, path)?))
}

// Takes what stands at a place, of this kind by its directory's listing.
fn take<F: Files>(
    alloc: Global,
    files: &mut F,
    place: &Place,
    path: &str,
    kind: Kind,
    by: &Keeping,
    found: &mut Found,
) -> Result<(), Trouble>
    ensures { Reads (λ fault. MayTake path.now fault) F.tells
        (λ g _. kind ≡ kind_at g place.now → Takes (limit_by by.now) path.now (item_at g place.now) found.old found.new)
        (λ g fault. kind ≡ kind_at g place.now → RefusesItem (limit_by by.now) path.now (item_at g place.now) fault)
        (F.drive files.old) (F.drive files.new) result }
{
    match kind {
        Kind::File => add_file(alloc, files, place, path, by, found),
        Kind::Dir => check_directory(alloc, files, place, path),
        Kind::Absent | Kind::Other => Err(Trouble::Refused(odd_kind(alloc, path)?)),
    }
}

/// Takes the item at a path, of this kind by its directory's listing: counts it, and adds its path where it is a file.
pub(crate) fn visit<F: Files>(
    alloc: Global,
    files: &mut F,
    root: &Place,
    path: &str,
    kind: Kind,
    by: &Keeping,
    found: &mut Found,
) -> Result<(), Trouble>
    requires { IsWorkingPath path.now }
    ensures { Reads (λ fault. MayMeet root.now fault) F.tells
        (λ g _. kind ≡ kind_at g (root.now ++ names_of path.now) → Went (limit_by by.now) root.now
        (one_of path.now (item_at g (root.now ++ names_of path.now))) found.old found.new)
        (λ g fault. kind ≡ kind_at g (root.now ++ names_of path.now) → fault_along (limit_by by.now) root.now found.old.count
        (one_of path.now (item_at g (root.now ++ names_of path.now))) ≡ Some fault)
        (F.drive files.old) (F.drive files.new) result }
{
    if let Kind::Absent = kind {
        return Ok(());
    }
    if found.count >= ITEM_LIMIT {
        return Err(Trouble::Refused(too_many(alloc)?));
    }
    let Some(place) = place_below(alloc, root, path)? else {
        return Err(Trouble::Refused(too_long(alloc, root, path)?));
    };
    found.count += 1;
    take(alloc, files, &place, path, kind, by, found)
}
