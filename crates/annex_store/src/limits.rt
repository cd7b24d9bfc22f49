// How large the files are that are read.
ghost use Rattle.std.specs.Prelude.{◌≡◌, IfOk};
ghost use Rattle.places.specs.All.{text_of};
ghost use Rattle.faults.specs.declared.faults.Fault.TheVariants.{TooLarge};

use faults::Fault;
use places::{Place, Text};
use std::alloc::{AllocError, Global};

/// The most bytes of a content that is read.
pub const CONTENT_LIMIT: u64 = 67_108_864;

/// The most bytes of a log that is read.
pub const LOG_LIMIT: u64 = 1_048_576;

/// The refusal of a file by its place and its size.
pub(crate) fn large_file(alloc: Global, place: &Place, size: u64) -> Result<Fault, AllocError>
    ensures { IfOk result (λ fault. fault ≡ TooLarge (text_of place.now) size) }
{
    let path = Text::new(String::from_str(alloc, place.as_str())?);
    Ok(Fault::TooLarge { path, size })
}
