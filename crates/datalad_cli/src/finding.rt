// The dataset in which a command works.
ghost use Rattle.std.specs.Prelude.{◌≡◌, ◌++◌, ◌∷◌, [], ℕ, List, IfOk, IfSome, IsTrue, MatchOption, Some, None};
ghost use Rattle.places.specs.All.{IsAtOrAbove};
ghost use Rattle.acts.specs.All.{NoFault, Reads};
ghost use Rattle.repository.specs.All.{repo_of};
ghost use Rattle.faults.specs.declared.faults.Fault.TheVariants.{BadPath, NotADataset};
ghost use Rattle.datalad_cli.specs.Finding.{At, HasRoom, IsRootOf, head_within, is_root, location_by, no_root, root_at};
ghost use Rattle.datalad_cli.specs.Finding.{root_in};
ghost use Rattle.datalad_cli.specs.Words.{place_by};

use crate::words::place_by;
use dl_words::Word;
use faults::{Fault, Trouble};
use file_store::{Files, Place};
use std::alloc::{AllocError, Global};

// The longest text of a place, in bytes.
const PLACE_LIMIT: usize = 4096;

// Where HEAD would stand, None where that is longer than places are.
#[tactic(auto, unfolding(places::specs::Names::is_path, places::specs::Names::is_name))]
fn head_within(alloc: Global, root: &Place) -> Result<Option<Place>, AllocError>
    ensures place { IfOk result (λ found. found ≡ head_within root.now) }
    ensures room { IfOk result (λ found. IfSome found (λ _. HasRoom root.now)) }
{
    let head = root.joined(alloc, ".dlrepo/HEAD")?;
    if PLACE_LIMIT < head.len() {
        return Ok(None);
    }
    Ok(Some(root.below(alloc, ".dlrepo/HEAD")?))
}

// Whether a dataset has its root there.
fn is_root<F: Files>(alloc: Global, files: &mut F, place: &Place) -> Result<bool, Trouble>
    ensures reads { Reads NoFault F.tells (λ g answer. answer ≡ is_root g place.now) (λ g fault. NoFault fault)
        (F.drive files.old) (F.drive files.new) result }
    ensures room { IfOk result (λ answer. IsTrue answer → HasRoom place.now) }
{
    match head_within(alloc, place)? {
        None => Ok(false),
        Some(head) => Ok(files.size(alloc, &head)?.is_some()),
    }
}

// The place above.
fn above(alloc: Global, place: &Place) -> Result<Option<Place>, AllocError>
    ensures { IfOk result (λ up. MatchOption up (place.now ≡ [])
        (λ above. (name : List ℕ) × (place.now ≡ above ++ name ∷ []))) }
{
    match place.parent(alloc) {
        Ok(up) => Ok(up),
        Err(_) => Err(AllocError),
    }
}

// The nearest root at or above a place.
fn root_from<F: Files>(alloc: Global, files: &mut F, place: Place) -> Result<Option<Place>, Trouble>
    ensures reads { Reads NoFault F.tells (λ g root. root ≡ root_at place g) (λ g fault. NoFault fault)
        (F.drive files.old) (F.drive files.new) result }
    ensures above { IfOk result (λ found. MatchOption found (Unit {0}) (λ root. IsAtOrAbove root place)) }
    ensures room { IfOk result (λ found. IfSome found (λ root. HasRoom root)) }
{
    if is_root(alloc, files, &place)? {
        return Ok(Some(place));
    }
    match above(alloc, &place)? {
        None => Ok(None),
        Some(up) => root_from(alloc, files, up),
    }
}

/// The repository of a root in which HEAD has a place.
#[tactic(auto, unfolding(places::specs::Names::is_path, places::specs::Names::is_name))]
pub(crate) fn repo_within(alloc: Global, root: &Place) -> Result<Place, AllocError>
    requires { HasRoom root.now }
    ensures { IfOk result (λ repo. repo ≡ repo_of root.now) }
{
    root.below(alloc, ".dlrepo")
}

// The root of the dataset in which a place lies, refused where there is none.
fn nearest_root<F: Files>(alloc: Global, files: &mut F, cwd: &Place) -> Result<Place, Trouble>
    ensures reads { Reads (λ fault. fault ≡ NotADataset cwd.now) F.tells (λ g root. root_at cwd.now g ≡ Some root)
        (λ g fault. (root_at cwd.now g ≡ None) × (fault ≡ NotADataset cwd.now)) (F.drive files.old)
        (F.drive files.new) result }
    ensures above { IfOk result (λ root. IsAtOrAbove root cwd.now) }
    ensures room { IfOk result (λ root. HasRoom root) }
{
    let start = cwd.try_clone(alloc)?;
    let place = cwd.try_clone(alloc)?;
    match root_from(alloc, files, start)? {
        Some(root) => Ok(root),
        None => Err(Trouble::Refused(Fault::NotADataset { place })),
    }
}

/// The refusal of a word that leads to no place, or to none where a dataset may be made.
pub(crate) fn bad_path(word: &Word) -> Fault
    ensures { result ≡ BadPath word.now.index }
{
    Fault::BadPath { at: word.index }
}

// The root that a word names, refused where no dataset has it.
fn named_root<F: Files>(
    alloc: Global,
    files: &mut F,
    cwd: &Place,
    word: &Word,
) -> Result<Place, Trouble>
    ensures reads { let at = At (place_by cwd.now word.now.text) word.now.index in
        Reads (λ fault. fault ≡ no_root at) F.tells (λ g root. root_in at g ≡ Some root)
        (λ g fault. (root_in at g ≡ None) × (fault ≡ no_root at)) (F.drive files.old) (F.drive files.new) result }
    ensures named { IfOk result (λ root. place_by cwd.now word.now.text ≡ Some root) }
    ensures room { IfOk result (λ root. HasRoom root) }
{
    let Some(place) = place_by(alloc, cwd, word.text.as_str())? else {
        return Err(Trouble::Refused(bad_path(word)));
    };
    if is_root(alloc, files, &place)? {
        return Ok(place);
    }
    Err(Trouble::Refused(Fault::NotADataset { place }))
}

/// The root of the dataset in which a command works: the one that a word names, or without a word the nearest place, at
/// or above the working directory, at whose `.dlrepo/HEAD` a file stands.
///
/// Refuses BadPath of a word that leads to no place, and NotADataset where no dataset is there.
pub(crate) fn find_root<F: Files>(
    alloc: Global,
    files: &mut F,
    cwd: &Place,
    dataset: &Option<Word>,
) -> Result<Place, Trouble>
    ensures reads { let at = location_by cwd.now dataset.now in
        Reads (λ fault. fault ≡ no_root at) F.tells (λ g root. root_in at g ≡ Some root)
        (λ g fault. (root_in at g ≡ None) × (fault ≡ no_root at)) (F.drive files.old) (F.drive files.new) result }
    ensures above { IfOk result (λ root. IsRootOf (location_by cwd.now dataset.now) root) }
    ensures room { IfOk result (λ root. HasRoom root) }
{
    match dataset {
        None => nearest_root(alloc, files, cwd),
        Some(word) => named_root(alloc, files, cwd, word),
    }
}
