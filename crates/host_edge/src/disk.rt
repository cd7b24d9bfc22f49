// The files of the host.
//
// A name is kept only with its directory, so a barrier syncs every directory in which a name
// changed, beside every file that was written. Directories aren't files: they are made where a file
// needs them, and removed where a removal leaves them empty. No call goes through a link at the
// place itself: what stands there is looked at just before.
ghost use Rattle.std.specs.Prelude.{◌≡◌};
ghost use Rattle.host_edge.specs.Silent.{IsFailure};

use crate::dirty::Dirty;
use crate::listing::items_below;
use crate::paths::{fill_from, kind_of, read_whole, size_of};
use crate::reasons::Reason;
use file_store::{FileErr, Files, Item, Kind, Place};
use std::alloc::Global;
use std::fs::{self, OpenOptions};
use std::io::{self, Error, ErrorKind, Write};

/// The files of the host, from its root on. A symbolic link is Other, a directory without entries
/// Absent.
#[derive(Drop)]
pub struct HostFiles<R: std::rt::Files + AllocGlobal + Clone + Drop> {
    rt: R,
    faults: u64,
    dirty: Dirty,
    reason: Option<Reason>,
}

impl<R: std::rt::Files + AllocGlobal + Clone + Drop> HostFiles<R> {
    pub fn new(alloc: Global, rt: R) -> HostFiles<R> {
        HostFiles {
            rt,
            faults: 0,
            dirty: Dirty::new(alloc),
            reason: None,
        }
    }

    /// Why the host failed last, if it did.
    pub fn reason(&self) -> Option<&Reason> {
        self.reason.as_ref()
    }

    // An error of the host at a place: a fault that is counted, or want of memory.
    fn failed(&mut self, alloc: Global, place: &Place, error: Error) -> FileErr
        ensures { IsFailure self.old.faults self.new.faults result }
    {
        let failure = failure(&mut self.faults, error);
        self.reason = Some(Reason::at(alloc, place.as_str(), error));
        failure
    }

    fn put(&mut self, alloc: Global, place: &Place, bytes: &[u8], add: bool) -> io::Result<()>
        ensures { self.new.faults ≡ self.old.faults }
    {
        let path = place.as_str();
        let stands = self.dirty.make_room(&self.rt, path)?;
        self.dirty.reach_above(&self.rt, alloc, path)?;
        self.dirty.note_file(alloc, path)?;
        self.dirty.note_name(alloc, path)?;
        let mut options = OpenOptions::new();
        // A link that another hand makes at this moment is refused, and not followed.
        options.create_new(!stands);
        if add {
            options.append(true);
        } else {
            options.write(true).truncate(true);
        }
        let mut file = options.open(&self.rt, path)?;
        file.write_all(bytes)
    }

    fn move_file(&mut self, alloc: Global, from: &Place, to: &Place) -> io::Result<()>
        ensures { self.new.faults ≡ self.old.faults }
    {
        if kind_of(&self.rt, from.as_str())? != Kind::File {
            return Err(Error::from(ErrorKind::NotFound));
        }
        self.dirty.make_room(&self.rt, to.as_str())?;
        self.dirty.reach_above(&self.rt, alloc, to.as_str())?;
        self.dirty.note_name(alloc, from.as_str())?;
        self.dirty.note_name(alloc, to.as_str())?;
        self.dirty.sync_file(&self.rt, from.as_str())?;
        fs::rename(&self.rt, from.as_str(), to.as_str())
    }

    fn remove_file(&mut self, alloc: Global, place: &Place) -> io::Result<bool>
        ensures { self.new.faults ≡ self.old.faults }
    {
        if kind_of(&self.rt, place.as_str())? != Kind::File {
            return Ok(false);
        }
        self.dirty.note_name(alloc, place.as_str())?;
        fs::remove_file(&self.rt, place.as_str())?;
        self.dirty.forget_file(place.as_str());
        self.dirty.remove_emptied(&self.rt, alloc, place.as_str());
        Ok(true)
    }
}

// An error of the host: a fault that is counted, or want of memory.
fn failure(faults: &mut u64, error: io::Error) -> FileErr
    ensures { IsFailure faults.old faults.new result }
{
    if error.kind() == ErrorKind::OutOfMemory {
        return FileErr::NoMemory;
    }
    *faults = faults.saturating_add(1);
    FileErr::Failed
}

impl<R: std::rt::Files + AllocGlobal + Clone + Drop> Files for HostFiles<R> {
    ghost use Rattle.std.specs.Prelude.{false};
    ghost use Rattle.std.proofs.lemmas.Bool.{false≢true};
    ghost use Rattle.host_edge.specs.Silent.{silent};

    ghost tells = { false };

    ghost drive = { λ s. silent s.faults };

    ghost grounded = { λ _ told. absurd (false≢true told) };

    fn kind(&mut self, alloc: Global, place: &Place) -> Result<Kind, FileErr> {
        match kind_of(&self.rt, place.as_str()) {
            Ok(kind) => Ok(kind),
            Err(e) => Err(self.failed(alloc, place, e)),
        }
    }

    fn size(&mut self, alloc: Global, place: &Place) -> Result<Option<u64>, FileErr> {
        match size_of(&self.rt, place.as_str()) {
            Ok(size) => Ok(size),
            Err(e) => Err(self.failed(alloc, place, e)),
        }
    }

    fn read(&mut self, alloc: Global, place: &Place) -> Result<Option<Vec<u8>>, FileErr> {
        match read_whole(&self.rt, alloc, place.as_str()) {
            Ok(bytes) => Ok(bytes),
            Err(e) => Err(self.failed(alloc, place, e)),
        }
    }

    fn read_part(
        &mut self,
        alloc: Global,
        place: &Place,
        from: u64,
        buffer: &mut [u8],
    ) -> Result<usize, FileErr> {
        match fill_from(&self.rt, place.as_str(), from, buffer) {
            Ok(count) => Ok(count),
            Err(e) => Err(self.failed(alloc, place, e)),
        }
    }

    fn list(&mut self, alloc: Global, place: &Place) -> Result<Vec<Item>, FileErr> {
        match items_below(&self.rt, alloc, place.as_str()) {
            Ok(items) => Ok(items),
            Err(e) => Err(self.failed(alloc, place, e)),
        }
    }

    fn write(&mut self, alloc: Global, place: &Place, bytes: &[u8]) -> Result<(), FileErr> {
        match self.put(alloc, place, bytes, false) {
            Ok(()) => Ok(()),
            Err(e) => Err(self.failed(alloc, place, e)),
        }
    }

    fn append(&mut self, alloc: Global, place: &Place, bytes: &[u8]) -> Result<(), FileErr> {
        match self.put(alloc, place, bytes, true) {
            Ok(()) => Ok(()),
            Err(e) => Err(self.failed(alloc, place, e)),
        }
    }

    fn rename(&mut self, alloc: Global, from: &Place, to: &Place) -> Result<bool, FileErr> {
        match self.move_file(alloc, from, to) {
            Ok(()) => Ok(true),
            Err(e) => Err(self.failed(alloc, from, e)),
        }
    }

    fn remove(&mut self, alloc: Global, place: &Place) -> Result<bool, FileErr> {
        match self.remove_file(alloc, place) {
            Ok(found) => Ok(found),
            Err(e) => Err(self.failed(alloc, place, e)),
        }
    }

    fn barrier(&mut self, _alloc: Global) -> Result<(), FileErr> {
        match self.dirty.sync(&self.rt) {
            Ok(()) => Ok(()),
            Err(e) => {
                self.reason = Some(Reason::nowhere(e));
                Err(failure(&mut self.faults, e))
            }
        }
    }
}
