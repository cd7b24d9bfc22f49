// How long the texts of places may be, how large an object that is read, and how many items a dataset may have.
ghost use Rattle.std.specs.Prelude.{◌≡◌, length, string_bytes, IfOk};
ghost use Rattle.places.specs.All.{text_of};
ghost use Rattle.faults.specs.declared.faults.Fault.TheVariants.{TooLarge};

use faults::Fault;
use places::{Place, Text};
use std::alloc::{AllocError, Global};

/// The longest text of a place, in bytes.
pub const PLACE_LIMIT: usize = 4096;

/// The longest text of a repository's place in which anything is written, in bytes.
pub const REPO_LIMIT: usize = 3584;

/// The longest one below which an object has a place.
pub const OBJECT_LIMIT: usize = 4046;

/// The most bytes of the body of an object that is read.
pub const OBJECT_BODY_LIMIT: usize = 67_108_864;

/// The most bytes of an object's file that is read: such a body behind its longest header.
pub const OBJECT_FILE_LIMIT: u64 = 67_108_880;

/// How many leaves and directories a commit's tree may have, and how many items a walk over files may meet.
pub const ITEM_LIMIT: u64 = 100_000;

/// The refusal of a repository whose place has this text, too long to write in.
pub fn too_large(text: String) -> Fault
    ensures { result ≡ TooLarge (string_bytes text) (length (string_bytes text)) }
{
    let size = text.len() as u64;
    Fault::TooLarge {
        path: Text::new(text),
        size,
    }
}

/// The same, of a place.
pub fn repo_too_large(alloc: Global, repo: &Place) -> Result<Fault, AllocError>
    ensures { IfOk result (λ fault. fault ≡ TooLarge (text_of repo.now) (length (text_of repo.now))) }
{
    Ok(too_large(String::from_str(alloc, repo.as_str())?))
}
