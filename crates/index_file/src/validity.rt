// Which lists have an index.
ghost use Rattle.std.specs.Prelude.{◌↔◌, IsTrue};
ghost use Rattle.index_file.specs.Entries.{MayFollow};
ghost use Rattle.index_file.specs.Index.{IsIndex};

use crate::entries::IndexEntry;
use crate::paths::is_above;
use git_objects::Mode;

// Whether an entry may stand behind the last path.
fn may_follow(entry: &IndexEntry, last: &[u8]) -> bool
    ensures { IsTrue result ↔ MayFollow last.now entry.now }
{
    if matches!(entry.mode, Mode::Dir) {
        return false;
    }
    let path = entry.path.as_str().as_bytes();
    if !is_above(path, last) {
        return false;
    }
    !path.contains(&0)
}

/// Whether a list has an index: its paths ascend in byte order, none is empty or has a NUL, nothing
/// is a directory, and there are at most 4,294,967,295 entries.
pub fn is_index(list: &[IndexEntry]) -> bool
    ensures { IsTrue result ↔ IsIndex list.now }
{
    if list.len() > 0xFFFF_FFFF {
        return false;
    }
    let mut last: &[u8] = b"";
    for entry in list {
        if !may_follow(entry, last) {
            return false;
        }
        last = entry.path.as_str().as_bytes();
    }
    true
}
