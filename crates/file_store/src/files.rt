// Files as the layers above see them: what a call reads, what it changes, and what a crash may leave.
ghost use Rattle.std.specs.Prelude.{Bool, IsTrue};
ghost use Rattle.places.specs.All.{IsGround};
ghost use Rattle.file_store.specs.Causes.{Counts, has_failed};
ghost use Rattle.file_store.specs.Disk.{Drive, MayStep, IsWritten, IsRenamed, IsRemoved, IsSynced};
ghost use Rattle.file_store.specs.Ends.{present, KindEnds, SizeEnds, ReadEnds, PartEnds, ListEnds, WriteEnds};
ghost use Rattle.file_store.specs.Ends.{AppendEnds, RenameEnds, RemoveEnds, BarrierEnds};

use crate::errors::FileErr;
use crate::kinds::{Item, Kind};
use places::Place;
use std::alloc::Global;

/// Files by their places. Each call says how it ends (`ends`), that the count of faults rose where it answers Failed
/// and stands where it doesn't (`later`) and, where it changes something, how far it may have come (`steps`).
pub trait Files {
    /// Whether it tells what its disk holds.
    ghost tells: { Bool };

    /// The disks that there have been, and how often the device failed.
    ghost drive: { Self → Drive };

    /// What stands at the place.
    fn kind(&mut self, alloc: Global, place: &Place) -> Result<Kind, FileErr>
        ensures later { Counts (has_failed result) (drive self.old).faults (drive self.new).faults }
        ensures ends { KindEnds tells place.now (drive self.old) (drive self.new) result };

    /// The number of the file's bytes, None where no file stands.
    fn size(&mut self, alloc: Global, place: &Place) -> Result<Option<u64>, FileErr>
        ensures later { Counts (has_failed result) (drive self.old).faults (drive self.new).faults }
        ensures ends { SizeEnds tells place.now (drive self.old) (drive self.new) result };

    /// The whole file, None where none stands.
    fn read(&mut self, alloc: Global, place: &Place) -> Result<Option<Vec<u8>>, FileErr>
        ensures later { Counts (has_failed result) (drive self.old).faults (drive self.new).faults }
        ensures ends { ReadEnds tells place.now (drive self.old) (drive self.new) result };

    /// Fills the buffer from that offset on, as far as the file goes, and says how many bytes it gave.
    fn read_part(
        &mut self,
        alloc: Global,
        place: &Place,
        from: u64,
        buffer: &mut [u8],
    ) -> Result<usize, FileErr>
        ensures later { Counts (has_failed result) (drive self.old).faults (drive self.new).faults }
        ensures ends { PartEnds tells (record { place = place.now; from = from; buffer = buffer.old }) buffer.new
            (drive self.old) (drive self.new) result };

    /// One item per name directly below, in byte order.
    fn list(&mut self, alloc: Global, place: &Place) -> Result<Vec<Item>, FileErr>
        ensures later { Counts (has_failed result) (drive self.old).faults (drive self.new).faults }
        ensures ends { ListEnds tells place.now (drive self.old) (drive self.new) result };

    /// Makes or replaces the file.
    fn write(&mut self, alloc: Global, place: &Place, bytes: &[u8]) -> Result<(), FileErr>
        ensures later { Counts (has_failed result) (drive self.old).faults (drive self.new).faults }
        ensures ends { WriteEnds tells place.now bytes.now (drive self.old) (drive self.new) result }
        ensures steps { IsTrue tells → MayStep (IsWritten place.now) (drive self.old).history
            (drive self.new).history };

    /// Adds to the end of the file. An absent file counts as empty.
    fn append(&mut self, alloc: Global, place: &Place, bytes: &[u8]) -> Result<(), FileErr>
        ensures later { Counts (has_failed result) (drive self.old).faults (drive self.new).faults }
        ensures ends { AppendEnds tells place.now bytes.now (drive self.old) (drive self.new) result }
        ensures steps { IsTrue tells → MayStep (IsWritten place.now) (drive self.old).history
            (drive self.new).history };

    /// Moves the file at `from`. False, with nothing changed, only where none stands there.
    fn rename(&mut self, alloc: Global, from: &Place, to: &Place) -> Result<bool, FileErr>
        ensures later { Counts (has_failed result) (drive self.old).faults (drive self.new).faults }
        ensures ends { RenameEnds tells from.now to.now (drive self.old) (drive self.new) result }
        ensures steps { IsTrue tells → MayStep (IsRenamed from.now to.now) (drive self.old).history
            (drive self.new).history };

    /// Removes the file. False, with nothing changed, where none stands there.
    fn remove(&mut self, alloc: Global, place: &Place) -> Result<bool, FileErr>
        ensures later { Counts (has_failed result) (drive self.old).faults (drive self.new).faults }
        ensures ends { RemoveEnds tells place.now (drive self.old) (drive self.new) result }
        ensures steps { IsTrue tells → MayStep (IsRemoved place.now) (drive self.old).history
            (drive self.new).history };

    /// After it, a crash leaves what a read sees.
    fn barrier(&mut self, alloc: Global) -> Result<(), FileErr>
        ensures later { Counts (has_failed result) (drive self.old).faults (drive self.new).faults }
        ensures ends { BarrierEnds tells (drive self.old) (drive self.new) result }
        ensures steps { IsTrue tells → MayStep IsSynced (drive self.old).history (drive self.new).history };

    /// No file stands below another.
    ghost grounded: { (files : Self) → IsTrue tells → IsGround (present (drive files)) };
}
