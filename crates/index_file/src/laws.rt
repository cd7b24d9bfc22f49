// What writing and reading come to together.
ghost use Rattle.std.specs.Prelude.{◌≡◌, MatchResult};
ghost use Rattle.index_file.specs.Index.{IsIndex};
ghost use Rattle.index_file.specs.Laws.{HaveOneReading};
ghost use Rattle.index_file.specs.declared.errors.IndexErr.TheVariants.{NoMemory};

use crate::decoding::decode;
use crate::encoding::encode;
use crate::entries::IndexEntry;
use crate::errors::IndexErr;
use std::alloc::Global;

/// Bytes are the index of one list at most, and stop at one place where they are of none.
pub fn have_one_reading()
    ensures { HaveOneReading }
{}

/// A list, read from its own index: the same list.
pub fn reread(alloc: Global, list: &[IndexEntry]) -> Result<Vec<IndexEntry>, IndexErr>
    requires { IsIndex list.now }
    ensures { MatchResult result (λ read. read.items ≡ list.now) (λ e. e ≡ NoMemory) }
{
    let text = encode(alloc, list)?;
    decode(alloc, text.as_slice())
}
