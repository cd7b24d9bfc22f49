// The names directly below a place, in byte order.
ghost use Rattle.std.specs.Prelude.{◌≡◌, ◌==◌, ◌<◌, List, ℕ, string_bytes, IfOk, OnOk, MatchOption};
ghost use Rattle.std.specs.List.{AllByRecursion, before_first};
ghost use Rattle.std.specs.String.{string_cmp};
ghost use Rattle.std.specs.BTreeMap.{keys, IsOrdered, get_by_text};
ghost use Rattle.places.specs.All.{slash, IsPlace, IsPathBelow, IsAtOrAbove};
ghost use Rattle.file_store.specs.Named.{seen, seen_among, as_items, kind_of_path};

use crate::kinds::{Item, Kind};
use places::{Place, Text};
use std::alloc::{AllocError, Global};
use std::collections::BTreeMap;

// For each name below the root, what stands there. Of two places that share it the later one counts.
pub(crate) fn kinds_below(
    alloc: Global,
    files: &BTreeMap<Place, Vec<u8>>,
    root: &Place,
) -> Result<BTreeMap<String, Kind>, AllocError>
    ensures kinds { IfOk result (λ kinds. (name : List ℕ) → get_by_text kinds name ≡ seen_among
        root.now name (keys files.now)) }
    ensures places { IfOk result (λ _. AllByRecursion IsPlace (keys files.now)) }
{
    let mut kinds = BTreeMap::new(alloc);
    for place in files.keys() {
        note(alloc, &mut kinds, root, place)?;
    }
    Ok(kinds)
}

// Notes the first name of a place below the root.
fn note(
    alloc: Global,
    kinds: &mut BTreeMap<String, Kind>,
    root: &Place,
    place: &Place,
) -> Result<(), AllocError>
    ensures place { IsPlace place.now }
    ensures noted { OnOk result ((name : List ℕ) → get_by_text kinds.new name ≡ seen root.now name
        (get_by_text kinds.old name) place.now) }
{
    let _text = place.as_str();
    if !root.is_above(place) {
        return Ok(());
    }
    let Some(path) = path_below(alloc, root, place)? else {
        return Ok(());
    };
    let (name, kind) = first_name(path.as_str());
    kinds.insert(String::from_str(alloc, name)?, kind)?;
    Ok(())
}

fn path_below(alloc: Global, root: &Place, place: &Place) -> Result<Option<String>, AllocError>
    ensures { IfOk result (λ found. MatchOption found (¬ (IsAtOrAbove root.now place.now))
        (λ path. IsPathBelow root.now place.now (string_bytes path))) }
{
    place.path_below(alloc, root).map_err(|_| AllocError)
}

// The first name of a path, and what stands there.
fn first_name(path: &str) -> (&str, Kind)
    ensures name { result.0.now ≡ before_first (λ b. b == slash) path.now }
    ensures kind { result.1 ≡ kind_of_path path.now }
{
    match path.split_once('/') {
        Some((name, _)) => (name, Kind::Dir),
        None => (path, Kind::File),
    }
}

// The names as items, in the map's order.
pub(crate) fn items_of(
    alloc: Global,
    kinds: BTreeMap<String, Kind>,
) -> Result<Vec<Item>, AllocError>
    ensures items { IfOk result (λ items. items.items ≡ as_items kinds.entries) }
    ensures ordered { IfOk result (λ _. IsOrdered string_cmp kinds) }
{
    let mut items = Vec::new(alloc);
    for (name, kind) in kinds {
        items.push(Item {
            name: Text::new(name),
            kind,
        })?;
    }
    Ok(items)
}
