// The names directly below a path of the host.
ghost use Rattle.std.specs.Prelude.{◌≡◌, IfOk, IsTrue};
ghost use Rattle.std.specs.List.{list_all};
ghost use Rattle.std.specs.BTreeMap.{IsOrdered};
ghost use Rattle.std.specs.String.{string_cmp};
ghost use Rattle.file_store.specs.All.{AreListed, AreThere, is_item_name as is_item_name_of, names_in, as_items};

use crate::paths::kind_of;
use file_store::{Item, Kind, Text};
use std::alloc::{AllocError, Global};
use std::collections::BTreeMap;
use std::fs;
use std::io::{self, Error, ErrorKind};

/// The most names that a listing gives.
const MOST_NAMES: usize = 1_000_000;

// What stands under each name, nothing where no directory is. A name that is gone meanwhile is left
// out.
fn kinds_below<R: std::rt::Files + AllocGlobal + Clone + Drop>(
    rt: &R,
    alloc: Global,
    path: &str,
) -> io::Result<BTreeMap<String, Kind>> {
    let mut kinds = BTreeMap::new(alloc);
    if kind_of(rt, path)? != Kind::Dir {
        return Ok(kinds);
    }
    for entry in fs::read_dir(rt, path)? {
        let entry = entry?;
        let name = String::from_str(alloc, entry.file_name())?;
        let below = format!(in alloc; "{path}/{name}")?;
        let kind = kind_of(rt, below.as_str())?;
        if kind != Kind::Absent {
            kinds.insert(name, kind)?;
        }
        if kinds.len() > MOST_NAMES {
            return Err(Error::from(ErrorKind::InvalidData));
        }
    }
    Ok(kinds)
}

/// What stands directly below a path, in byte order of the names.
pub(crate) fn items_below<R: std::rt::Files + AllocGlobal + Clone + Drop>(
    rt: &R,
    alloc: Global,
    path: &str,
) -> io::Result<Vec<Item>>
    ensures { IfOk result (λ items. AreListed items.items) }
{
    let kinds = kinds_below(rt, alloc, path)?;
    let items = items_of(alloc, kinds)?;
    Ok(items)
}

// The names of a map as items. A name that can't stand in a listing, or where nothing stands, is an
// error.
fn items_of(alloc: Global, kinds: BTreeMap<String, Kind>) -> io::Result<Vec<Item>>
    ensures items { IfOk result (λ items. items.items ≡ as_items kinds.entries) }
    ensures names { IfOk result (λ items. IsTrue (list_all is_item_name_of
        (names_in items.items))) }
    ensures there { IfOk result (λ items. AreThere items.items) }
    ensures ordered { IfOk result (λ _. IsOrdered string_cmp kinds) }
{
    let mut items = Vec::new(alloc);
    for (name, kind) in kinds {
        if !is_item_name(name.as_str()) {
            return Err(Error::from(ErrorKind::InvalidData));
        }
        if kind == Kind::Absent {
            return Err(Error::from(ErrorKind::InvalidData));
        }
        items.push(Item {
            name: Text::new(name),
            kind,
        })?;
    }
    Ok(items)
}

// Whether a name can stand in a listing.
fn is_item_name(name: &str) -> bool
    ensures { result ≡ is_item_name_of name.now }
{
    let name = name.as_bytes();
    !name.is_empty()
        && name != b".".as_slice()
        && name != b"..".as_slice()
        && !name.contains(&0)
        && !name.contains(&b'/')
}
