// Files are replaced by way of other places, so that a crash leaves the old bytes or the new ones.
//
// The order is what keeps the promise: all bytes are written to temporary places, a barrier makes them safe, each is
// renamed onto its place, and a second barrier makes the names safe. A reader never sees a part of a file. After a
// failure each place has the old bytes or the new ones, and a temporary file may be left.
ghost use Rattle.std.specs.Prelude.{◌≡◌, ◌≢◌, IfOk, IsTrue, [], ◌∷◌};
ghost use Rattle.places.specs.All.{Names};
ghost use Rattle.file_store.specs.Causes.{Counts, has_failed};
ghost use Rattle.file_store.specs.Course.{GoesAlong};
ghost use Rattle.file_store.specs.Replaced.{only, ReplaceEnds, AreApart, IsNoTmp, replacing};
ghost use Rattle.file_store.specs.Rounds.{StageEnds, StagesEnd, moves_of, MovesEnd, MovesGo, RenamesEnd, RenamesGo};
ghost use Rattle.file_store.specs.Removed.{Everywhere, removal_of, RemoveAllEnds};

use crate::errors::FileErr;
use crate::files::Files;
use places::{Bytes, Place};
use std::alloc::{AllocError, Global};

/// A file to be replaced, with the temporary place by which it goes.
#[derive(Drop)]
pub struct Replacement {
    pub tmp: Place,
    pub place: Place,
    pub bytes: Bytes,
}

/// A file that is moved from a temporary place to its place.
#[derive(Drop)]
pub struct Move {
    pub tmp: Place,
    pub place: Place,
}

/// Replaces the file at `place`, by way of `tmp`, at the price of two barriers.
pub fn replace<F: Files>(
    alloc: Global,
    files: &mut F,
    tmp: &Place,
    place: &Place,
    bytes: &[u8],
) -> Result<(), FileErr>
    requires { tmp.now ≢ place.now }
    ensures later { Counts (has_failed result) (F.drive files.old).faults (F.drive files.new).faults }
    ensures ends { ReplaceEnds F.tells (only tmp.now place.now bytes.now) (F.drive files.old)
        (F.drive files.new) result }

    // Whatever the answer, at each moment the place has the old bytes or the new ones, and a crash leaves no others.
    ensures crash { IsTrue F.tells → GoesAlong (IsNoTmp (only tmp.now place.now bytes.now))
        (replacing (only tmp.now place.now bytes.now)) (F.drive files.old) (F.drive files.new) }
{
    files.write(alloc, tmp, bytes)?;
    files.barrier(alloc)?;
    files.rename(alloc, tmp, place)?;
    files.barrier(alloc)
}

/// Replaces all files of the list, at the price of two barriers.
pub fn replace_all<F: Files>(
    alloc: Global,
    files: &mut F,
    list: &[Replacement],
) -> Result<(), FileErr>
    requires { AreApart list.now }
    ensures later { Counts (has_failed result) (F.drive files.old).faults (F.drive files.new).faults }
    ensures ends { ReplaceEnds F.tells list.now (F.drive files.old) (F.drive files.new) result }
    ensures crash { IsTrue F.tells → GoesAlong (IsNoTmp list.now) (replacing list.now) (F.drive files.old)
        (F.drive files.new) }
{
    let moves = moves_of(alloc, list)?;
    stage_all(alloc, files, list)?;
    move_all(alloc, files, moves.as_slice())
}

/// Writes a file to its temporary place, from where `move_all` moves it. Files of many bytes are staged one by one, so
/// that one of them is in memory at a time.
pub fn stage<F: Files>(
    alloc: Global,
    files: &mut F,
    tmp: &Place,
    bytes: &[u8],
) -> Result<(), FileErr>
    ensures later { Counts (has_failed result) (F.drive files.old).faults (F.drive files.new).faults }

    // Whatever the place is to which it goes.
    ensures ends { (place : Names) → StageEnds F.tells (only tmp.now place bytes.now) (F.drive files.old)
        (F.drive files.new) result }
    ensures crash { (place : Names) → IsTrue F.tells → GoesAlong (IsNoTmp (only tmp.now place bytes.now)) (λ g. [])
        (F.drive files.old) (F.drive files.new) }
{
    files.write(alloc, tmp, bytes)
}

/// Moves the files that are staged to their places, at the price of two barriers.
pub fn move_all<F: Files>(alloc: Global, files: &mut F, moves: &[Move]) -> Result<(), FileErr>
    ensures later { Counts (has_failed result) (F.drive files.old).faults (F.drive files.new).faults }

    // Of the files that were staged since any earlier drive.
    ensures ends { MovesEnd F.tells moves.now (F.drive files.old) (F.drive files.new) result }
    ensures crash { IsTrue F.tells → MovesGo moves.now (F.drive files.old) (F.drive files.new) }
{
    files.barrier(alloc)?;
    rename_all(alloc, files, moves)?;
    files.barrier(alloc)
}

// Where each file of the list goes.
fn moves_of(alloc: Global, list: &[Replacement]) -> Result<Vec<Move>, AllocError>
    ensures { IfOk result (λ moves. moves.items ≡ moves_of list.now) }
{
    let mut moves = Vec::new(alloc);
    for replacement in list {
        moves.push(Move {
            tmp: replacement.tmp.try_clone(alloc)?,
            place: replacement.place.try_clone(alloc)?,
        })?;
    }
    Ok(moves)
}

// Writes each file to its temporary place.
fn stage_all<F: Files>(alloc: Global, files: &mut F, list: &[Replacement]) -> Result<(), FileErr>
    ensures later { Counts (has_failed result) (F.drive files.old).faults (F.drive files.new).faults }
    ensures ends { StagesEnd F.tells list.now (F.drive files.old) (F.drive files.new) result }
    ensures crash { IsTrue F.tells → GoesAlong (IsNoTmp list.now) (replacing list.now) (F.drive files.old)
        (F.drive files.new) }
{
    for replacement in list {
        stage(alloc, files, &replacement.tmp, replacement.bytes.as_slice())?;
    }
    Ok(())
}

// Moves each file from there to its place.
fn rename_all<F: Files>(alloc: Global, files: &mut F, moves: &[Move]) -> Result<(), FileErr>
    ensures later { Counts (has_failed result) (F.drive files.old).faults (F.drive files.new).faults }
    ensures ends { RenamesEnd F.tells moves.now (F.drive files.old) (F.drive files.new) result }
    ensures crash { IsTrue F.tells → RenamesGo moves.now (F.drive files.old) (F.drive files.new) }
{
    for file in moves {
        files.rename(alloc, &file.tmp, &file.place)?;
    }
    Ok(())
}

/// Removes the files at the places, at the price of one barrier.
pub fn remove_all<F: Files>(alloc: Global, files: &mut F, list: &[Place]) -> Result<(), FileErr>
    ensures later { Counts (has_failed result) (F.drive files.old).faults (F.drive files.new).faults }
    ensures ends { RemoveAllEnds F.tells list.now (F.drive files.old) (F.drive files.new) result }
    ensures crash { IsTrue F.tells → GoesAlong Everywhere (λ g. removal_of list.now ∷ []) (F.drive files.old)
        (F.drive files.new) }
{
    for place in list {
        files.remove(alloc, place)?;
    }
    files.barrier(alloc)
}
