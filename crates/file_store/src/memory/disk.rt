// A disk in memory, which keeps the ground that it began with and the calls that changed it. No call of it fails but
// for want of memory, and then nothing has changed.
ghost use Rattle.std.specs.Prelude.{◌≡◌, ◌++◌, [], ◌∷◌, List, ℕ, true, false, OnOk, OnErr, IfOk, option_copied};
ghost use Rattle.std.specs.Prelude.{option_map, unwrap_or};
ghost use Rattle.std.specs.FinMap.{insert};
ghost use Rattle.std.proofs.Props.{props};
ghost use Rattle.places.specs.All.{Names, file_at, stands, stands_below, is_shut, IsGround};
ghost use Rattle.file_store.specs.Kinds.{AreListed, IsListing};
ghost use Rattle.file_store.specs.Memory.Calls.{history_of};
ghost use Rattle.file_store.specs.Memory.Lists.{IsListOf};

use crate::kinds::Item;
use crate::memory::contents::Contents;
use crate::memory::image::{any_clash, chosen, open_places};
use crate::memory::parts::copied;
use crate::memory::replay::replayed;
use places::Place;
use std::alloc::{AllocError, Global};

/// A call that changed the disk.
#[derive(Drop)]
pub(crate) enum Call {
    Write { place: Place, bytes: Vec<u8> },
    Append { place: Place, bytes: Vec<u8> },
    Rename { from: Place, to: Place },
    Remove { place: Place },
    Barrier,
}

#[derive(Drop)]
pub(crate) struct MemDisk {
    first: Contents,
    calls: Vec<Call>,
    current: Contents,
    ghost clash_free: { IsGround current } by { Prim.hlevel props },
    ghost consistent: { (q : Names) → file_at current q ≡ file_at (history_of first calls.items).latest.now q } by { Prim.hlevel props },
}

impl MemDisk {
    ghost use Rattle.file_store.specs.Memory.Disk.{history_in, ground_in, IsImageBy};
    ghost use Rattle.file_store.specs.Memory.Calls.{began};
    ghost use Rattle.file_store.specs.Memory.Images.{AreOpen};
    ghost use Rattle.file_store.specs.Disk.{next, wrote, appended, renamed, removed, synced};

    // A disk that begins with these files. They are given twice, since it goes on with the second ones.
    pub(crate) fn begin(alloc: Global, first: Contents, current: Contents) -> Self
        requires clash_free { IsGround first }
        requires same { current ≡ first }
        ensures { history_in result ≡ began first }
    {
        MemDisk {
            first,
            calls: Vec::new(alloc),
            current,
        }
    }

    pub(crate) fn get(&self, place: &Place) -> Option<&Vec<u8>>
        ensures { option_map (λ bytes. bytes.items) (option_copied result) ≡ file_at (ground_in self.now) place.now }
    {
        self.current.get(place)
    }

    // Whether a file stands there.
    pub(crate) fn stands(&self, place: &Place) -> bool
        ensures { result ≡ stands (ground_in self.now) place.now }
    {
        self.current.stands(place)
    }

    // Whether a file stands above or below the place.
    pub(crate) fn is_shut(&self, place: &Place) -> bool
        ensures { result ≡ is_shut (ground_in self.now) place.now }
    {
        self.current.is_shut(place)
    }

    // Whether a file stands below the place.
    pub(crate) fn has_below(&self, place: &Place) -> bool
        ensures { result ≡ stands_below (ground_in self.now) place.now }
    {
        self.current.has_below(place)
    }

    // What stands, in byte order of the places.
    pub(crate) fn to_list(&self, alloc: Global) -> Result<Vec<(Place, Vec<u8>)>, AllocError>
        ensures { IfOk result (λ list. IsListOf (ground_in self.now) list.items) }
    {
        self.current.to_list(alloc)
    }

    // The places at which a crash has a choice, in byte order.
    pub(crate) fn open_places(&self, alloc: Global) -> Result<Vec<Place>, AllocError>
        ensures { IfOk result (λ places. AreOpen (history_in self.now).latest places.items) }
    {
        let moment = replayed(alloc, &self.first, self.calls.as_slice())?;
        open_places(alloc, &moment)
    }

    // What a crash leaves by a choice for each of them. None where a file would stand above another.
    pub(crate) fn image(&self, alloc: Global, choices: &[u8]) -> Result<Option<MemDisk>, AllocError>
        ensures { IfOk result (λ found. IsImageBy self.now choices.now found) }
    {
        let moment = replayed(alloc, &self.first, self.calls.as_slice())?;
        let places = open_places(alloc, &moment)?;
        let left = chosen(alloc, &moment, places.as_slice(), choices)?;
        if any_clash(&left, places.as_slice()) {
            return Ok(None);
        }
        let first = left.try_clone(alloc)?;
        Ok(Some(MemDisk::begin(alloc, first, left)))
    }

    // The names directly below a place, each with what stands there.
    pub(crate) fn list(&self, alloc: Global, place: &Place) -> Result<Vec<Item>, AllocError>
        ensures { IfOk result (λ items. AreListed items.items × IsListing (ground_in self.now) place.now items.items) }
    {
        self.current.list(alloc, place)
    }

    pub(crate) fn write(
        &mut self,
        alloc: Global,
        place: &Place,
        bytes: &[u8],
    ) -> Result<(), AllocError>
        requires { is_shut (ground_in self.old) place.now ≡ false }
        ensures ok { OnOk result (history_in self.new ≡ next (history_in self.old)
            (wrote place.now bytes.now (history_in self.old).latest)) }
        ensures err { OnErr result (history_in self.new ≡ history_in self.old) }
    {
        let call = Call::Write {
            place: place.try_clone(alloc)?,
            bytes: bytes.to_vec(alloc)?,
        };
        put(
            alloc,
            &mut self.current,
            &mut self.calls,
            place,
            bytes.to_vec(alloc)?,
            call,
        )
    }

    pub(crate) fn append(
        &mut self,
        alloc: Global,
        place: &Place,
        bytes: &[u8],
    ) -> Result<(), AllocError>
        requires { is_shut (ground_in self.old) place.now ≡ false }
        ensures ok { OnOk result (history_in self.new ≡ next (history_in self.old)
            (appended place.now bytes.now (history_in self.old).latest)) }
        ensures err { OnErr result (history_in self.new ≡ history_in self.old) }
    {
        let mut whole = copied(alloc, self.current.get(place))?;
        whole.extend_from_slice(bytes)?;
        let call = Call::Append {
            place: place.try_clone(alloc)?,
            bytes: bytes.to_vec(alloc)?,
        };
        put(
            alloc,
            &mut self.current,
            &mut self.calls,
            place,
            whole,
            call,
        )
    }

    pub(crate) fn rename(
        &mut self,
        alloc: Global,
        from: &Place,
        to: &Place,
    ) -> Result<(), AllocError>
        requires stands { stands (ground_in self.old) from.now ≡ true }
        requires free { is_shut (ground_in self.old) to.now ≡ false }
        ensures ok { OnOk result (history_in self.new ≡ next (history_in self.old)
            (renamed from.now to.now (history_in self.old).latest)) }
        ensures err { OnErr result (history_in self.new ≡ history_in self.old) }
    {
        let moved = self.current.get(from).unwrap().as_slice().to_vec(alloc)?;
        let call = Call::Rename {
            from: from.try_clone(alloc)?,
            to: to.try_clone(alloc)?,
        };
        put(alloc, &mut self.current, &mut self.calls, to, moved, call)?;
        if from != to {
            self.current.remove(from);
        }
        Ok(())
    }

    pub(crate) fn remove(&mut self, alloc: Global, place: &Place) -> Result<(), AllocError>
        ensures ok { OnOk result (history_in self.new ≡ next (history_in self.old)
            (removed place.now (history_in self.old).latest)) }
        ensures err { OnErr result (history_in self.new ≡ history_in self.old) }
    {
        self.calls.push(Call::Remove {
            place: place.try_clone(alloc)?,
        })?;
        self.current.remove(place);
        Ok(())
    }

    pub(crate) fn barrier(&mut self) -> Result<(), AllocError>
        ensures ok { OnOk result (history_in self.new ≡ next (history_in self.old)
            (synced (history_in self.old).latest)) }
        ensures err { OnErr result (history_in self.new ≡ history_in self.old) }
    {
        self.calls.push(Call::Barrier)?;
        Ok(())
    }
}

// Puts a file in its place, and notes the call. After an error both are as before.
fn put(
    alloc: Global,
    now: &mut Contents,
    calls: &mut Vec<Call>,
    place: &Place,
    bytes: Vec<u8>,
    call: Call,
) -> Result<(), AllocError>
    ensures ok { OnOk result (now.new ≡ insert now.old place.now bytes.items) }
    ensures noted { OnOk result (calls.new.items ≡ calls.old.items ++ call ∷ []) }
    ensures err { OnErr result (now.new ≡ now.old) }
    ensures forgotten { OnErr result (calls.new.items ≡ calls.old.items) }
{
    let place = place.try_clone(alloc)?;
    calls.push(call)?;
    match now.insert(place, bytes) {
        Ok(()) => Ok(()),
        Err(e) => {
            let _ = calls.pop();
            Err(e)
        }
    }
}
