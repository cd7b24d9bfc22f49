//! Calls that act: the rounds in which each changes the ground, the lines that it says, and how it ends.
#![tactic(auto)]

ghost use Rattle.file_store.specs.All.{kind_at, only};
ghost use Rattle.acts.specs.Acts.{asks};
ghost use Rattle.acts.specs.Ends.{ActsQuietly, NoFault};
ghost use Rattle.acts.specs.Files.{puts, removes, CanReplace, MayBlock};

use faults::Trouble;
use file_store::{Files, Kind, Place, Replacement, replace, replace_all};
use std::alloc::Global;

/// What stands at a place.
pub fn kind_of<F: Files>(alloc: Global, files: &mut F, place: &Place) -> Result<Kind, Trouble>
    ensures { ActsQuietly (λ fault. NoFault fault) F.tells (asks (λ g. kind_at g place.now))
        (F.drive files.old) (F.drive files.new) result }
{
    Ok(files.kind(alloc, place)?)
}

/// Puts a file, by way of a place of unfinished writes.
pub fn put_file<F: Files>(
    alloc: Global,
    files: &mut F,
    tmp: &Place,
    place: &Place,
    bytes: &[u8],
) -> Result<(), Trouble>
    requires { CanReplace (only tmp.now place.now bytes.now) }
    ensures { ActsQuietly (λ fault. MayBlock F.tells fault) F.tells (puts (only tmp.now place.now bytes.now))
        (F.drive files.old) (F.drive files.new) result }
{
    replace(alloc, files, tmp, place, bytes)?;
    Ok(())
}

/// Puts all files of a list in one round.
pub fn put_files<F: Files>(
    alloc: Global,
    files: &mut F,
    list: &[Replacement],
) -> Result<(), Trouble>
    requires { CanReplace list.now }
    ensures { ActsQuietly (λ fault. MayBlock F.tells fault) F.tells (puts list.now) (F.drive files.old)
        (F.drive files.new) result }
{
    replace_all(alloc, files, list)?;
    Ok(())
}

/// Removes a file, and tells whether one stood there.
pub fn remove_file<F: Files>(alloc: Global, files: &mut F, place: &Place) -> Result<bool, Trouble>
    ensures { ActsQuietly (λ fault. NoFault fault) F.tells (removes place.now) (F.drive files.old)
        (F.drive files.new) result }
{
    if files.remove(alloc, place)? {
        files.barrier(alloc)?;
        return Ok(true);
    }
    Ok(false)
}
