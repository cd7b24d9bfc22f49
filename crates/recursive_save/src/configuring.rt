// The configuration of a dataset that is saved: its person is the author of the commit.
ghost use Rattle.std.specs.Prelude.{◌≡◌, IfOk};
ghost use Rattle.places.specs.All.{text_of};
ghost use Rattle.faults.specs.declared.faults.Fault.TheVariants.{BadLine, TooLarge};
ghost use Rattle.repository.specs.All.{settings_place};
ghost use Rattle.ref_store.specs.All.{IsPlaced};
ghost use Rattle.recursive_save.specs.Configured.{ConfigReads, HasPerson, TextReads};

use crate::first::text;
use config_text::{ConfErr, RepoConfig};
use faults::{Fault, Trouble};
use file_store::{Files, Place};
use repository::{PLACE_LIMIT, too_large};
use std::alloc::{AllocError, Global};

/// How many bytes a configuration may have.
const SETTINGS_LIMIT: u64 = 1_048_576;

// Where the configuration stands, refused where that is longer than places are.
#[tactic(auto, unfolding(places::specs::Names::is_path, places::specs::Names::is_name))]
fn settings_place(alloc: Global, root: &Place) -> Result<Place, Trouble>
    ensures { IsPlaced (settings_place root.now) result }
{
    let text = root.joined(alloc, ".dlrepo/config")?;
    if PLACE_LIMIT < text.len() {
        return Err(Trouble::Refused(too_large(text)));
    }
    Ok(root.below(alloc, ".dlrepo/config")?)
}

// The refusal of a configuration that isn't there.
fn absent(alloc: Global, place: &Place) -> Result<Fault, AllocError>
    ensures { IfOk result (λ fault. fault ≡ BadLine place.now 0) }
{
    let place = place.try_clone(alloc)?;
    Ok(Fault::BadLine { place, line: 0 })
}

// The refusal of a configuration of that many bytes.
fn too_long(alloc: Global, place: &Place, size: u64) -> Result<Fault, AllocError>
    ensures { IfOk result (λ fault. fault ≡ TooLarge (text_of place.now) size) }
{
    let path = text(alloc, place.as_str())?;
    Ok(Fault::TooLarge { path, size })
}

// The text of a configuration. Its size is asked first, so that no more is read than it may have.
fn settings_text<F: Files>(alloc: Global, files: &mut F, place: &Place) -> Result<Vec<u8>, Trouble>
    ensures { TextReads F.tells place.now (F.drive files.old) (F.drive files.new) result }
{
    let Some(size) = files.size(alloc, place)? else {
        return Err(Trouble::Refused(absent(alloc, place)?));
    };
    if size > SETTINGS_LIMIT {
        return Err(Trouble::Refused(too_long(alloc, place, size)?));
    }
    let Some(text) = files.read(alloc, place)? else {
        return Err(Trouble::Refused(absent(alloc, place)?));
    };
    let size = text.len() as u64;
    if size > SETTINGS_LIMIT {
        return Err(Trouble::Refused(too_long(alloc, place, size)?));
    }
    Ok(text)
}

/// The configuration of a dataset.
///
/// Refuses BadLine at line 0 where its file is absent, TooLarge beyond 1 MiB, and BadLine where it isn't in form.
pub(crate) fn read_settings<F: Files>(
    alloc: Global,
    files: &mut F,
    root: &Place,
) -> Result<RepoConfig, Trouble>
    ensures reads { ConfigReads F.tells root.now (F.drive files.old) (F.drive files.new) result }
    ensures person { IfOk result (λ config. HasPerson config) }
{
    let place = settings_place(alloc, root)?;
    let text = settings_text(alloc, files, &place)?;
    match RepoConfig::read(alloc, text.as_slice()) {
        Ok(config) => Ok(config),
        Err(ConfErr::BadLine { line }) => Err(Trouble::Refused(Fault::BadLine { place, line })),
        Err(ConfErr::NoMemory) => Err(Trouble::NoMemory),
    }
}
