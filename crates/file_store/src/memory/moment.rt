// A disk at one moment, with what of it is safe and the places that are torn.
ghost use Rattle.std.specs.Prelude.{◌≡◌, ◌&&◌, ◌||◌, List, ℕ, IfOk, OnOk, option_map};
ghost use Rattle.std.specs.BTreeSet.{contains};
ghost use Rattle.places.specs.All.{Names, place_cmp, place_eq, stands};
ghost use Rattle.file_store.specs.Disk.{at_rest, wrote, appended, renamed, synced, is_open};
ghost use Rattle.file_store.specs.Memory.Calls.{after_call};
ghost use Rattle.file_store.specs.Memory.Images.{torn_by, left_by};
ghost use Rattle.file_store.specs.Memory.Moment.{disk_of, tears};

use crate::memory::contents::Contents;
use crate::memory::disk::Call;
use crate::memory::parts::{copied, file_copied};
use places::Place;
use std::alloc::{AllocError, Global};
use std::collections::BTreeSet;

#[derive(Drop)]
pub(crate) struct Moment {
    current: Contents,
    safe: Contents,
    torn: BTreeSet<Place>,
}

impl Moment {
    // These files, all of them safe.
    pub(crate) fn at_rest(alloc: Global, first: &Contents) -> Result<Moment, AllocError>
        ensures { IfOk result (λ moment. disk_of moment ≡ at_rest first.now) }
    {
        Ok(Moment {
            current: first.try_clone(alloc)?,
            safe: first.try_clone(alloc)?,
            torn: BTreeSet::new(alloc),
        })
    }

    // GoesAlong on by one call.
    pub(crate) fn make(&mut self, alloc: Global, call: &Call) -> Result<(), AllocError>
        ensures { OnOk result (disk_of self.new ≡ after_call call.now (disk_of self.old)) }
    {
        match call {
            Call::Write { place, bytes } => {
                self.write(alloc, place, bytes.as_slice().to_vec(alloc)?)
            }
            Call::Append { place, bytes } => self.append(alloc, place, bytes.as_slice()),
            Call::Rename { from, to } => self.rename(alloc, from, to),
            Call::Remove { place } => {
                self.current.remove(place);
                Ok(())
            }
            Call::Barrier => self.sync(alloc),
        }
    }

    fn write(&mut self, alloc: Global, place: &Place, bytes: Vec<u8>) -> Result<(), AllocError>
        ensures { OnOk result (disk_of self.new ≡ wrote place.now bytes.items (disk_of self.old)) }
    {
        self.torn.insert(place.try_clone(alloc)?)?;
        self.current.insert(place.try_clone(alloc)?, bytes)?;
        Ok(())
    }

    fn append(&mut self, alloc: Global, place: &Place, bytes: &[u8]) -> Result<(), AllocError>
        ensures { OnOk result (disk_of self.new ≡ appended place.now bytes.now (disk_of self.old)) }
    {
        let mut whole = copied(alloc, self.current.get(place))?;
        whole.extend_from_slice(bytes)?;
        self.write(alloc, place, whole)
    }

    // Nothing changes where no file stands at `from`.
    fn rename(&mut self, alloc: Global, from: &Place, to: &Place) -> Result<(), AllocError>
        ensures { OnOk result (disk_of self.new ≡ renamed from.now to.now (disk_of self.old)) }
    {
        let Some(bytes) = self.current.get(from) else {
            return Ok(());
        };
        let moved = bytes.as_slice().to_vec(alloc)?;
        self.tear(alloc, from, to)?;
        self.current.remove(from);
        self.current.insert(to.try_clone(alloc)?, moved)?;
        Ok(())
    }

    // Makes the target of a rename torn, where it has to be.
    fn tear(&mut self, alloc: Global, from: &Place, to: &Place) -> Result<(), AllocError>
        ensures files { (self.new.current ≡ self.old.current) × (self.new.safe ≡ self.old.safe) }
        ensures torn { OnOk result ((q : Names) → contains place_cmp self.new.torn q ≡
            ((place_eq q to.now && tears (disk_of self.old) from.now to.now)
            || contains place_cmp self.old.torn q)) }
    {
        if !self.tears(from, to) {
            return Ok(());
        }
        self.torn.insert(to.try_clone(alloc)?)?;
        Ok(())
    }

    fn tears(&self, from: &Place, to: &Place) -> bool
        ensures { result ≡ tears (disk_of self.now) from.now to.now }
    {
        self.torn.contains(from) || self.current.differs(&self.safe, to)
    }

    fn sync(&mut self, alloc: Global) -> Result<(), AllocError>
        ensures { OnOk result (disk_of self.new ≡ synced (disk_of self.old)) }
    {
        self.safe = self.current.try_clone(alloc)?;
        self.torn = BTreeSet::new(alloc);
        Ok(())
    }

    // Whether a crash may leave something else than what stands there.
    pub(crate) fn is_open(&self, place: &Place) -> bool
        ensures { result ≡ is_open (disk_of self.now) place.now }
    {
        self.torn.contains(place) || self.current.differs(&self.safe, place)
    }

    // What stands now.
    pub(crate) fn present(&self, alloc: Global) -> Result<Contents, AllocError>
        ensures { IfOk result (λ present. present ≡ (disk_of self.now).now) }
    {
        self.current.try_clone(alloc)
    }

    // What a choice leaves at the place.
    pub(crate) fn left_by(
        &self,
        alloc: Global,
        choice: u8,
        place: &Place,
    ) -> Result<Option<Vec<u8>>, AllocError>
        ensures { IfOk result (λ left. option_map (λ bytes. bytes.items) left ≡ left_by choice
            (disk_of self.now) place.now) }
    {
        if choice == 0 {
            return file_copied(alloc, self.safe.get(place));
        }
        if !self.torn.contains(place) {
            return file_copied(alloc, self.current.get(place));
        }
        match self.current.get(place) {
            Some(bytes) => Ok(Some(torn_by(alloc, choice, bytes.as_slice())?)),
            None => Ok(None),
        }
    }

    // Adds to the set each place that has a file or is torn.
    pub(crate) fn note_places(
        &self,
        alloc: Global,
        named: &mut BTreeSet<Place>,
    ) -> Result<(), AllocError>
        ensures { OnOk result ((q : Names) → contains place_cmp named.new q ≡
            (((contains place_cmp named.old q || stands self.now.current q) || stands self.now.safe q)
            || contains place_cmp self.now.torn q)) }
    {
        self.current.note_places(alloc, named)?;
        self.safe.note_places(alloc, named)?;
        note_all(alloc, &self.torn, named)
    }
}

// Adds the places of one set to another.
fn note_all(
    alloc: Global,
    places: &BTreeSet<Place>,
    named: &mut BTreeSet<Place>,
) -> Result<(), AllocError>
    ensures { OnOk result ((q : Names) → contains place_cmp named.new q ≡
        (contains place_cmp named.old q || contains place_cmp places.now q)) }
{
    for place in places {
        named.insert(place.try_clone(alloc)?)?;
    }
    Ok(())
}

// What a choice leaves of a torn file.
fn torn_by(alloc: Global, choice: u8, bytes: &[u8]) -> Result<Vec<u8>, AllocError>
    ensures { IfOk result (λ left. left.items ≡ torn_by choice bytes.now) }
{
    let half = bytes.len() / 2;
    match choice {
        2 => bytes[..half].to_vec(alloc),
        3 => vec![in alloc; 0; half],
        _ => bytes.to_vec(alloc),
    }
}
