// The files that stand at one moment.
ghost use Rattle.std.specs.Prelude.{◌≡◌, ◌||◌, not, List, ℕ, IfOk, OnOk, OnErr, option_copied, option_map};
ghost use Rattle.std.specs.FinMap.{empty, insert, remove};
ghost use Rattle.std.specs.List.{list_any};
ghost use Rattle.std.specs.BTreeMap.{keys, is_at, IsOrdered};
ghost use Rattle.std.specs.BTreeSet.{contains};
ghost use Rattle.places.specs.All.{Names, is_above, place_cmp, file_at, stands, is_shut, stands_below, IsGround};
ghost use Rattle.file_store.specs.Course.{with_file};
ghost use Rattle.file_store.specs.Disk.{same_file};
ghost use Rattle.file_store.specs.Kinds.{AreListed, IsListing};
ghost use Rattle.file_store.specs.Memory.Lists.{plain, ground_of, IsListOf};

use crate::kinds::Item;
use crate::memory::names::{items_of, kinds_below};
use places::Place;
use std::alloc::{AllocError, Global};
use std::collections::{BTreeMap, BTreeSet};
use std::marker::Model;

#[derive(Drop)]
pub(crate) struct Contents {
    files: BTreeMap<Place, Vec<u8>>,
}

impl Model for Contents {
    ghost use Rattle.places.specs.All.{Ground, ground_code};
    ghost use Rattle.file_store.specs.Memory.Lists.{ground_of};

    ghost Value = { Ground };

    ghost coded = { ground_code };

    ghost view = { λ c. ground_of c.files.entries };
}

impl Contents {
    pub(crate) fn new(alloc: Global) -> Self
        ensures { result ≡ empty }
    {
        Contents {
            files: BTreeMap::new(alloc),
        }
    }

    pub(crate) fn get(&self, place: &Place) -> Option<&Vec<u8>>
        ensures { option_map (λ bytes. bytes.items) (option_copied result) ≡ file_at self.now place.now }
    {
        self.files.get(place)
    }

    // Whether a file stands there.
    pub(crate) fn stands(&self, place: &Place) -> bool
        ensures { result ≡ stands self.now place.now }
    {
        self.get(place).is_some()
    }

    // Whether a file stands there, above the place or below it.
    pub(crate) fn clashes(&self, place: &Place) -> bool
        ensures { result ≡ (stands self.now place.now || is_shut self.now place.now) }
    {
        self.stands(place) || self.is_shut(place)
    }

    // Puts a file at the place. After an error nothing has changed.
    pub(crate) fn insert(&mut self, place: Place, bytes: Vec<u8>) -> Result<(), AllocError>
        ensures ok { OnOk result (self.new ≡ insert self.old place bytes.items) }
        ensures err { OnErr result (self.new ≡ self.old) }
    {
        self.files.insert(place, bytes)?;
        Ok(())
    }

    pub(crate) fn remove(&mut self, place: &Place)
        ensures { self.new ≡ remove self.old place.now }
    {
        let _ = self.files.remove(place);
    }

    // Puts a file at the place, or removes it.
    pub(crate) fn set(
        &mut self,
        alloc: Global,
        place: &Place,
        file: Option<Vec<u8>>,
    ) -> Result<(), AllocError>
        ensures { OnOk result (self.new ≡ with_file place.now (option_map (λ bytes. bytes.items)
            file) self.old) }
    {
        match file {
            Some(bytes) => self.insert(place.try_clone(alloc)?, bytes),
            None => {
                self.remove(place);
                Ok(())
            }
        }
    }

    pub(crate) fn try_clone(&self, alloc: Global) -> Result<Contents, AllocError>
        ensures { IfOk result (λ copy. copy ≡ self.now) }
    {
        cloned(alloc, &self.files)
    }

    // Whether the other files have something else at the place.
    pub(crate) fn differs(&self, others: &Contents, place: &Place) -> bool
        ensures { result ≡ not (same_file (file_at self.now place.now) (file_at others.now place.now)) }
    {
        !is_same(self.get(place), others.get(place))
    }

    // Adds the places of the files to the set.
    pub(crate) fn note_places(
        &self,
        alloc: Global,
        named: &mut BTreeSet<Place>,
    ) -> Result<(), AllocError>
        ensures { OnOk result ((q : Names) → contains place_cmp named.new q ≡
            (contains place_cmp named.old q || stands self.now q)) }
    {
        note_keys(alloc, &self.files, named)
    }

    // Whether a file stands above or below the place.
    pub(crate) fn is_shut(&self, place: &Place) -> bool
        ensures { result ≡ is_shut self.now place.now }
    {
        any_beside(&self.files, place)
    }

    // Whether a file stands below the place.
    pub(crate) fn has_below(&self, place: &Place) -> bool
        ensures { result ≡ stands_below self.now place.now }
    {
        any_below(&self.files, place)
    }

    // The files in byte order of their places.
    pub(crate) fn to_list(&self, alloc: Global) -> Result<Vec<(Place, Vec<u8>)>, AllocError>
        ensures { IfOk result (λ list. IsListOf self.now list.items) }
    {
        copied(alloc, &self.files)
    }

    // The names directly below a place, each with what stands there.
    pub(crate) fn list(&self, alloc: Global, place: &Place) -> Result<Vec<Item>, AllocError>
        requires { IsGround self.now }
        ensures { IfOk result (λ items. AreListed items.items × IsListing self.now place.now items.items) }
    {
        items_of(alloc, kinds_below(alloc, &self.files, place)?)
    }
}

fn any_beside(files: &BTreeMap<Place, Vec<u8>>, place: &Place) -> bool
    ensures { result ≡ list_any (λ q. is_above q place.now || is_above place.now q) (keys files.now) }
{
    files.keys().any(|q| q.is_above(place) || place.is_above(q))
}

fn any_below(files: &BTreeMap<Place, Vec<u8>>, place: &Place) -> bool
    ensures { result ≡ list_any (is_above place.now) (keys files.now) }
{
    files.keys().any(|q| place.is_above(q))
}

fn copied(
    alloc: Global,
    files: &BTreeMap<Place, Vec<u8>>,
) -> Result<Vec<(Place, Vec<u8>)>, AllocError>
    ensures files { IfOk result (λ list. plain list.items ≡ plain files.now.entries) }
    ensures ordered { IfOk result (λ _. IsOrdered place_cmp files.now) }
{
    let mut list = Vec::new(alloc);
    for (place, bytes) in files {
        list.push((place.try_clone(alloc)?, bytes.as_slice().to_vec(alloc)?))?;
    }
    Ok(list)
}

fn cloned(alloc: Global, files: &BTreeMap<Place, Vec<u8>>) -> Result<Contents, AllocError>
    ensures { IfOk result (λ copy. copy ≡ ground_of files.now.entries) }
{
    let mut copy = Contents::new(alloc);
    for (place, bytes) in files {
        copy.insert(place.try_clone(alloc)?, bytes.as_slice().to_vec(alloc)?)?;
    }
    Ok(copy)
}

fn note_keys(
    alloc: Global,
    files: &BTreeMap<Place, Vec<u8>>,
    named: &mut BTreeSet<Place>,
) -> Result<(), AllocError>
    ensures { OnOk result ((q : Names) → contains place_cmp named.new q ≡
        (contains place_cmp named.old q || list_any (is_at (place_cmp q)) (keys files.now))) }
{
    for place in files.keys() {
        named.insert(place.try_clone(alloc)?)?;
    }
    Ok(())
}

// Whether both are the same file, or both are absent.
fn is_same(one: Option<&Vec<u8>>, other: Option<&Vec<u8>>) -> bool
    ensures { result ≡ same_file (option_map (λ bytes. bytes.items) (option_copied one.entry))
        (option_map (λ bytes. bytes.items) (option_copied other.entry)) }
{
    match (one, other) {
        (Some(one), Some(other)) => one.as_slice() == other.as_slice(),
        (None, None) => true,
        _ => false,
    }
}
