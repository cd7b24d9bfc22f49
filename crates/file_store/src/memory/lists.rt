// A list of files, put where they stand.
ghost use Rattle.file_store.specs.Memory.Lists.{AddEnds, GatherEnds};

use crate::memory::contents::Contents;
use crate::memory::errors::MemErr;
use places::Place;
use std::alloc::Global;

/// The files of the list, unless one clashes with an earlier one.
pub(crate) fn contents_of(alloc: Global, list: &[(Place, Vec<u8>)]) -> Result<Contents, MemErr>
    ensures { GatherEnds list.now result }
{
    let mut contents = Contents::new(alloc);
    for file in list {
        add(alloc, &mut contents, &file.0, file.1.as_slice())?;
    }
    Ok(contents)
}

// Adds a file, unless it clashes with those that stand.
fn add(alloc: Global, contents: &mut Contents, place: &Place, bytes: &[u8]) -> Result<(), MemErr>
    ensures { AddEnds place.now bytes.now contents.old contents.new result }
{
    if contents.clashes(place) {
        return Err(MemErr::Clash {
            place: place.try_clone(alloc)?,
        });
    }
    contents.insert(place.try_clone(alloc)?, bytes.to_vec(alloc)?)?;
    Ok(())
}
