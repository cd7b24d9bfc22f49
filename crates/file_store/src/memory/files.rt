// Files in memory: a disk, and round it the plan of the calls that fail.
//
// Each call is counted before anything else. One that fails before its effect ends there; one that fails after its
// effect does all that it would do, and answers Failed. A fault is counted where Failed is answered, and nowhere else:
// one that was to come after an effect doesn't come where the effect is refused, or has no memory.
ghost use Rattle.std.specs.Prelude.{◌≡◌, IsTrue, IfOk, IfSome, MatchResult};
ghost use Rattle.file_store.specs.declared.memory.errors.MemErr.TheVariants.{NoMemory};

use crate::errors::FileErr;
use crate::files::Files;
use crate::kinds::{Item, Kind};
use crate::memory::contents::Contents;
use crate::memory::disk::MemDisk;
use crate::memory::errors::MemErr;
use crate::memory::lists::contents_of;
use crate::memory::parts::copy_part;
use crate::memory::plan::{Plan, Turn};
use places::Place;
use std::alloc::Global;

/// Files in memory. They tell what their disk holds.
#[derive(Drop)]
pub struct MemFiles {
    disk: MemDisk,
    plan: Plan,
}

impl MemFiles {
    ghost use Rattle.std.specs.FinMap.{empty};
    ghost use Rattle.file_store.specs.Memory.Calls.{untouched};
    ghost use Rattle.file_store.specs.Ends.{present};
    ghost use Rattle.file_store.specs.Memory.Lists.{IsListOf};
    ghost use Rattle.file_store.specs.Memory.Files.{drive_of, FromListEnds, ImageEnds};
    ghost use Rattle.file_store.specs.Memory.Images.{AreOpen};
    ghost use Rattle.file_store.specs.Memory.Plan.{NoneFails};

    /// No file, and no call that fails.
    pub fn new(alloc: Global) -> MemFiles
        ensures drive { drive_of result ≡ untouched empty }
        ensures plan { NoneFails result.plan }
    {
        MemFiles {
            disk: MemDisk::begin(alloc, Contents::new(alloc), Contents::new(alloc)),
            plan: Plan::new(alloc),
        }
    }

    /// These files, all of them safe, and no call that fails. Clash names the first place that is an earlier one, or
    /// lies above or below one.
    pub fn from_list(alloc: Global, list: Vec<(Place, Vec<u8>)>) -> Result<MemFiles, MemErr>
        ensures ends { FromListEnds list.items result }
        ensures plan { IfOk result (λ files. NoneFails files.plan) }
    {
        let first = contents_of(alloc, list.as_slice())?;
        let current = first.try_clone(alloc)?;
        Ok(MemFiles {
            disk: MemDisk::begin(alloc, first, current),
            plan: Plan::new(alloc),
        })
    }

    /// What stands now, in byte order of the places.
    pub fn to_list(&self, alloc: Global) -> Result<Vec<(Place, Vec<u8>)>, MemErr>
        ensures { MatchResult result (λ list. IsListOf (present (drive_of self.now)) list.items) (λ e. e ≡ NoMemory) }
    {
        Ok(self.disk.to_list(alloc)?)
    }

    /// The places at which a crash may leave something else than what stands there, in byte order.
    pub fn open_places(&self, alloc: Global) -> Result<Vec<Place>, MemErr>
        ensures { MatchResult result (λ places. AreOpen (drive_of self.now).history.latest places.items)
            (λ e. e ≡ NoMemory) }
    {
        Ok(self.disk.open_places(alloc)?)
    }

    /// What a crash leaves by a choice for each of them, the first choice for the first, all of it safe, and no call
    /// that fails. Choice 0 leaves what is safe there, 1 what stands there now. Of a torn file 2 leaves the first half
    /// and 3 as many zero bytes. A missing choice counts as 0, and any other as 1. None where a file would stand above
    /// another.
    pub fn image(&self, alloc: Global, choices: &[u8]) -> Result<Option<MemFiles>, MemErr>
        ensures ends { ImageEnds self.now choices.now result }
        ensures plan { IfOk result (λ found. IfSome found (λ image. NoneFails image.plan)) }
    {
        match self.disk.image(alloc, choices)? {
            Some(disk) => Ok(Some(MemFiles {
                disk,
                plan: Plan::new(alloc),
            })),
            None => Ok(None),
        }
    }

    /// How many calls were made.
    pub fn calls(&self) -> u64
        ensures { result ≡ self.now.plan.calls }
    {
        self.plan.calls()
    }

    /// The calls with these numbers, counted from 1, fail without effect or after their effect.
    pub fn fail_at(&mut self, before: Vec<u64>, after: Vec<u64>)
        ensures drive { drive_of self.new ≡ drive_of self.old }
        ensures plan { self.new ≡ record self.old { plan = record self.old.plan { before = before; after = after } } }
    {
        self.plan.fail_at(before, after);
    }

    /// From the n-th call on every call fails without effect.
    pub fn stop_at(&mut self, n: u64)
        ensures drive { drive_of self.new ≡ drive_of self.old }
        ensures plan { self.new ≡ record self.old { plan = record self.old.plan { stop = Some n } } }
    {
        self.plan.stop_at(n);
    }
}

impl Files for MemFiles {
    ghost use Rattle.std.specs.Prelude.{true};
    ghost use Rattle.file_store.specs.Causes.{Counts, has_failed};
    ghost use Rattle.file_store.specs.Memory.Disk.{grounded_in};
    ghost use Rattle.file_store.specs.Memory.Files.{drive_of};
    ghost use Rattle.file_store.specs.Disk.{MayStep, IsWritten, IsRenamed, IsRemoved, IsSynced, wrote, appended};
    ghost use Rattle.file_store.specs.Disk.{renamed, removed, synced};
    ghost use Rattle.file_store.specs.Ends.{KindEnds, SizeEnds, ReadEnds, PartEnds, ListEnds, WriteEnds, AppendEnds};
    ghost use Rattle.file_store.specs.Ends.{RenameEnds, RemoveEnds, BarrierEnds};
    ghost use Rattle.file_store.specs.Memory.Calls.{with_change, with_change_at};
    ghost use Rattle.file_store.specs.Memory.Turns.{ReadsByTurn, ChangesByTurn};

    ghost tells = { true };

    ghost drive = { drive_of };

    ghost grounded = { λ files _. grounded_in files.disk };

    fn kind(&mut self, _: Global, place: &Place) -> Result<Kind, FileErr>
        ensures later { Counts (has_failed result) (drive_of self.old).faults (drive_of self.new).faults }
        ensures ends { KindEnds true place.now (drive_of self.old) (drive_of self.new) result }
        ensures turn { ReadsByTurn self.old self.new result }
    {
        if self.plan.next() != Turn::Works {
            self.plan.count_fault();
            return Err(FileErr::Failed);
        }
        if self.disk.stands(place) {
            return Ok(Kind::File);
        }
        if self.disk.has_below(place) {
            return Ok(Kind::Dir);
        }
        Ok(Kind::Absent)
    }

    fn size(&mut self, _: Global, place: &Place) -> Result<Option<u64>, FileErr>
        ensures later { Counts (has_failed result) (drive_of self.old).faults (drive_of self.new).faults }
        ensures ends { SizeEnds true place.now (drive_of self.old) (drive_of self.new) result }
        ensures turn { ReadsByTurn self.old self.new result }
    {
        if self.plan.next() != Turn::Works {
            self.plan.count_fault();
            return Err(FileErr::Failed);
        }
        match self.disk.get(place) {
            Some(bytes) => Ok(Some(bytes.len() as u64)),
            None => Ok(None),
        }
    }

    fn read(&mut self, alloc: Global, place: &Place) -> Result<Option<Vec<u8>>, FileErr>
        ensures later { Counts (has_failed result) (drive_of self.old).faults (drive_of self.new).faults }
        ensures ends { ReadEnds true place.now (drive_of self.old) (drive_of self.new) result }
        ensures turn { ReadsByTurn self.old self.new result }
    {
        if self.plan.next() != Turn::Works {
            self.plan.count_fault();
            return Err(FileErr::Failed);
        }
        match self.disk.get(place) {
            Some(bytes) => Ok(Some(bytes.as_slice().to_vec(alloc)?)),
            None => Ok(None),
        }
    }

    fn read_part(
        &mut self,
        _: Global,
        place: &Place,
        from: u64,
        buffer: &mut [u8],
    ) -> Result<usize, FileErr>
        ensures later { Counts (has_failed result) (drive_of self.old).faults (drive_of self.new).faults }
        ensures ends { PartEnds true (record { place = place.now; from = from; buffer = buffer.old }) buffer.new
            (drive_of self.old) (drive_of self.new) result }
        ensures turn { ReadsByTurn self.old self.new result }
    {
        if self.plan.next() != Turn::Works {
            self.plan.count_fault();
            return Err(FileErr::Failed);
        }
        match self.disk.get(place) {
            Some(bytes) => Ok(copy_part(bytes.as_slice(), from, buffer)),
            None => Ok(0),
        }
    }

    fn list(&mut self, alloc: Global, place: &Place) -> Result<Vec<Item>, FileErr>
        ensures later { Counts (has_failed result) (drive_of self.old).faults (drive_of self.new).faults }
        ensures ends { ListEnds true place.now (drive_of self.old) (drive_of self.new) result }
        ensures turn { ReadsByTurn self.old self.new result }
    {
        if self.plan.next() != Turn::Works {
            self.plan.count_fault();
            return Err(FileErr::Failed);
        }
        Ok(self.disk.list(alloc, place)?)
    }

    fn write(&mut self, alloc: Global, place: &Place, bytes: &[u8]) -> Result<(), FileErr>
        ensures later { Counts (has_failed result) (drive_of self.old).faults (drive_of self.new).faults }
        ensures ends { WriteEnds true place.now bytes.now (drive_of self.old) (drive_of self.new) result }
        ensures steps { IsTrue true → MayStep (IsWritten place.now) (drive_of self.old).history
            (drive_of self.new).history }
        ensures turn { ChangesByTurn (with_change (wrote place.now bytes.now)) self.old self.new result }
    {
        let turn = self.plan.next();
        if turn == Turn::FailsBefore {
            self.plan.count_fault();
            return Err(FileErr::Failed);
        }
        if self.disk.is_shut(place) {
            return Err(FileErr::Blocked {
                place: place.try_clone(alloc)?,
            });
        }
        self.disk.write(alloc, place, bytes)?;
        self.plan.answer(turn)
    }

    fn append(&mut self, alloc: Global, place: &Place, bytes: &[u8]) -> Result<(), FileErr>
        ensures later { Counts (has_failed result) (drive_of self.old).faults (drive_of self.new).faults }
        ensures ends { AppendEnds true place.now bytes.now (drive_of self.old) (drive_of self.new) result }
        ensures steps { IsTrue true → MayStep (IsWritten place.now) (drive_of self.old).history
            (drive_of self.new).history }
        ensures turn { ChangesByTurn (with_change (appended place.now bytes.now)) self.old self.new result }
    {
        let turn = self.plan.next();
        if turn == Turn::FailsBefore {
            self.plan.count_fault();
            return Err(FileErr::Failed);
        }
        if self.disk.is_shut(place) {
            return Err(FileErr::Blocked {
                place: place.try_clone(alloc)?,
            });
        }
        self.disk.append(alloc, place, bytes)?;
        self.plan.answer(turn)
    }

    fn rename(&mut self, alloc: Global, from: &Place, to: &Place) -> Result<bool, FileErr>
        ensures later { Counts (has_failed result) (drive_of self.old).faults (drive_of self.new).faults }
        ensures ends { RenameEnds true from.now to.now (drive_of self.old) (drive_of self.new) result }
        ensures steps { IsTrue true → MayStep (IsRenamed from.now to.now)
            (drive_of self.old).history (drive_of self.new).history }
        ensures turn { ChangesByTurn (with_change_at from.now (renamed from.now to.now)) self.old self.new result }
    {
        let turn = self.plan.next();
        if turn == Turn::FailsBefore {
            self.plan.count_fault();
            return Err(FileErr::Failed);
        }
        if !self.disk.stands(from) {
            self.plan.answer(turn)?;
            return Ok(false);
        }
        if self.disk.is_shut(to) {
            return Err(FileErr::Blocked {
                place: to.try_clone(alloc)?,
            });
        }
        self.disk.rename(alloc, from, to)?;
        self.plan.answer(turn)?;
        Ok(true)
    }

    fn remove(&mut self, alloc: Global, place: &Place) -> Result<bool, FileErr>
        ensures later { Counts (has_failed result) (drive_of self.old).faults (drive_of self.new).faults }
        ensures ends { RemoveEnds true place.now (drive_of self.old) (drive_of self.new) result }
        ensures steps { IsTrue true → MayStep (IsRemoved place.now) (drive_of self.old).history
            (drive_of self.new).history }
        ensures turn { ChangesByTurn (with_change_at place.now (removed place.now)) self.old self.new result }
    {
        let turn = self.plan.next();
        if turn == Turn::FailsBefore {
            self.plan.count_fault();
            return Err(FileErr::Failed);
        }
        if !self.disk.stands(place) {
            self.plan.answer(turn)?;
            return Ok(false);
        }
        self.disk.remove(alloc, place)?;
        self.plan.answer(turn)?;
        Ok(true)
    }

    fn barrier(&mut self, _: Global) -> Result<(), FileErr>
        ensures later { Counts (has_failed result) (drive_of self.old).faults (drive_of self.new).faults }
        ensures ends { BarrierEnds true (drive_of self.old) (drive_of self.new) result }
        ensures steps { IsTrue true → MayStep IsSynced (drive_of self.old).history (drive_of self.new).history }
        ensures turn { ChangesByTurn (with_change synced) self.old self.new result }
    {
        let turn = self.plan.next();
        if turn == Turn::FailsBefore {
            self.plan.count_fault();
            return Err(FileErr::Failed);
        }
        self.disk.barrier()?;
        self.plan.answer(turn)
    }
}
