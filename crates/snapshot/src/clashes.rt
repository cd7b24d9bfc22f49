// Paths that are also above another one.
ghost use Rattle.std.specs.Prelude.{◌≡◌, ◌↔◌, ◌++◌, [], ◌∷◌, IsTrue, IfOk, MatchOption};
ghost use Rattle.std.specs.Cmp.Lexicographic.{slice_cmp};
ghost use Rattle.std.specs.Ordering.{nat_cmp, is_lt};
ghost use Rattle.places.specs.All.{slash};
ghost use Rattle.snapshot.specs.Order.{IsSorted, HasBelow, HasNoClash, IsLeastClash};

use crate::building::below_name;
use crate::entries::Entry;
use file_store::Text;
use std::alloc::{AllocError, Global};

// Whether the entry comes before all that lies below a path.
fn is_before_dir(entry: &Entry, path: &str) -> bool
    ensures { result ≡ is_lt (slice_cmp nat_cmp entry.now.path (path.now ++ slash ∷ [])) }
{
    let own = entry.path.as_str().as_bytes().iter();
    own.cmp(path.as_bytes().iter().chain(b"/".iter())).is_lt()
}

// Whether a path of the list lies below this one.
fn has_below(entries: &[Entry], path: &str) -> bool
    requires { IsSorted entries.now }
    ensures { IsTrue result ↔ HasBelow entries.now path.now }
{
    let at = entries.partition_point(|entry| is_before_dir(entry, path));
    if at == entries.len() {
        return false;
    }
    below_name(entries[at].path.as_str(), path).is_some()
}

/// The least path that is also above another one.
pub(crate) fn least_clash(alloc: Global, entries: &[Entry]) -> Result<Option<Text>, AllocError>
    requires { IsSorted entries.now }
    ensures { IfOk result (λ found. MatchOption found (HasNoClash entries.now) (IsLeastClash entries.now)) }
{
    for entry in entries {
        if has_below(entries, entry.path.as_str()) {
            let path = String::from_str(alloc, entry.path.as_str())?;
            return Ok(Some(Text::new(path)));
        }
    }
    Ok(None)
}
