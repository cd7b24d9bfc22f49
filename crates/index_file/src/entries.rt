// The entries of an index, and the numbers of their modes.
ghost use Rattle.std.specs.Prelude.{◌≡◌};
ghost use Rattle.index_file.specs.Entries.{number_of};

use git_objects::{Id, Mode};
use places::Text;

/// A path below the dataset's root, with what stands there: the id of a blob, or of the commit of a
/// pin.
#[derive(Debug, Drop)]
pub struct IndexEntry {
    pub path: Text,
    pub mode: Mode,
    pub id: Id,
}

// The number of a mode. A directory, which no entry is, has none of its own.
pub(crate) fn number_of(mode: Mode) -> u32
    ensures { result ≡ number_of mode }
{
    match mode {
        Mode::File => 0x81A4,
        Mode::Exec => 0x81ED,
        Mode::Link => 0xA000,
        Mode::Pin => 0xE000,
        Mode::Dir => 0,
    }
}
