// What a crash may leave of a disk, by a choice for each place at which it has one.
ghost use Rattle.std.specs.Prelude.{◌≡◌, ◌&&◌, get_or, IfOk};
ghost use Rattle.std.specs.List.{filter, list_any};
ghost use Rattle.std.specs.BTreeSet.{IsOrdered};
ghost use Rattle.std.specs.List.Sorted.{IsStrictlySortedBy};
ghost use Rattle.places.specs.All.{place_cmp, stands, is_shut};
ghost use Rattle.file_store.specs.Disk.{is_open};
ghost use Rattle.file_store.specs.Memory.Images.{AreOpen, IsChosen};
ghost use Rattle.file_store.specs.Memory.Moment.{disk_of};

use crate::memory::contents::Contents;
use crate::memory::moment::Moment;
use places::Place;
use std::alloc::{AllocError, Global};
use std::collections::BTreeSet;

/// The places at which a crash has a choice, in byte order.
pub(crate) fn open_places(alloc: Global, moment: &Moment) -> Result<Vec<Place>, AllocError>
    ensures { IfOk result (λ places. AreOpen (disk_of moment.now) places.items) }
{
    let mut named = BTreeSet::new(alloc);
    moment.note_places(alloc, &mut named)?;
    open_among(alloc, moment, &named)
}

// Those of the places that are open.
fn open_among(
    alloc: Global,
    moment: &Moment,
    named: &BTreeSet<Place>,
) -> Result<Vec<Place>, AllocError>
    ensures places { IfOk result (λ places. places.items ≡ filter (is_open (disk_of moment.now)) named.now.keys) }
    ensures ordered { IfOk result (λ _. IsOrdered place_cmp named.now) }
{
    let mut open = Vec::new(alloc);
    for place in named {
        if moment.is_open(place) {
            open.push(place.try_clone(alloc)?)?;
        }
    }
    Ok(open)
}

/// What the choices leave at these places, and at every other what stands there now.
pub(crate) fn chosen(
    alloc: Global,
    moment: &Moment,
    places: &[Place],
    choices: &[u8],
) -> Result<Contents, AllocError>
    requires { IsStrictlySortedBy place_cmp places.now }
    ensures { IfOk result (λ left. IsChosen (disk_of moment.now) places.now choices.now left) }
{
    let mut left = moment.present(alloc)?;
    for (i, place) in places.iter().enumerate() {
        let file = moment.left_by(alloc, choice_at(choices, i), place)?;
        left.set(alloc, place, file)?;
    }
    Ok(left)
}

// A missing choice counts as 0.
fn choice_at(choices: &[u8], i: usize) -> u8
    ensures { result ≡ get_or choices.now i 0 }
{
    if i < choices.len() {
        return choices[i];
    }
    0
}

/// Whether a file at one of the places stands above or below another.
pub(crate) fn any_clash(left: &Contents, places: &[Place]) -> bool
    ensures { result ≡ list_any (λ p. stands left.now p && is_shut left.now p) places.now }
{
    places.iter().any(|p| left.stands(p) && left.is_shut(p))
}
