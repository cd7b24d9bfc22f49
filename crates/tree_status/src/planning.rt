// The tasks of a walk in one directory, in the order of its paths.
//
// A listing ascends by names, and paths don't: `a.b` comes between `a` and `a/c`. So what lies in a directory is a task
// of its own, under the directory's name with a slash.
ghost use Rattle.std.specs.Prelude.{◌≡◌, ◌∷◌, List, ℕ, string_bytes, IfOk, OnOk};
ghost use Rattle.std.specs.BTreeMap.{IsOrdered, get_by_text};
ghost use Rattle.std.specs.String.{string_cmp};
ghost use Rattle.file_store.specs.All.{as_items};
ghost use Rattle.tree_status.specs.Working.{is_own};
ghost use Rattle.tree_status.specs.Tasks.{with_task, ArePlanned};

use file_store::{Item, Kind};
use places::Text;
use std::alloc::{AllocError, Global};
use std::collections::BTreeMap;

/// The tasks of a directory with these items.
pub(crate) fn planned(alloc: Global, items: &[Item]) -> Result<Vec<Item>, AllocError>
    ensures { IfOk result (λ tasks. ArePlanned items.now tasks.items) }
{
    let mut tasks = BTreeMap::new(alloc);
    for item in items {
        plan(alloc, &mut tasks, item)?;
    }
    as_list(alloc, tasks)
}

fn is_own(name: &str) -> bool
    ensures { result ≡ is_own name.now }
{
    name == ".dlrepo" || name == ".git"
}

// Adds the tasks of one item.
fn plan(alloc: Global, tasks: &mut BTreeMap<String, Kind>, item: &Item) -> Result<(), AllocError>
    ensures { OnOk result ((key : List ℕ) → get_by_text tasks.new key ≡ with_task key
        (get_by_text tasks.old key) item.now) }
{
    let name = item.name.as_str();
    if is_own(name) {
        return Ok(());
    }
    tasks.insert(String::from_str(alloc, name)?, item.kind)?;
    let Kind::Dir = item.kind else {
        return Ok(());
    };
    let mut inside = String::from_str(alloc, name)?;
    inside.push_str("/")?;
    tasks.insert(inside, Kind::Dir)?;
    Ok(())
}

// The tasks as a list, in the order of their keys.
fn as_list(alloc: Global, tasks: BTreeMap<String, Kind>) -> Result<Vec<Item>, AllocError>
    ensures items { IfOk result (λ list. list.items ≡ as_items tasks.entries) }
    ensures ordered { IfOk result (λ _. IsOrdered string_cmp tasks) }
{
    let mut list = Vec::new(alloc);
    for (key, kind) in tasks {
        list.push(Item {
            name: Text::new(key),
            kind,
        })?;
    }
    Ok(list)
}
