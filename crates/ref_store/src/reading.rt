// Reading HEAD and the tip.
//
// Of a file no more is read than one byte past the longest text in form, so a longer file shows as one that isn't.
ghost use Rattle.std.specs.Prelude.{IfOk, Some};
ghost use Rattle.ref_store.specs.Forms.{branch_of, IsNamed};
ghost use Rattle.ref_store.specs.Reading.{branch_by, GivesHead, GivesId, BranchReads, HeadReads, TipReads};

use crate::forms::{head_given, id_in};
use crate::heads::Head;
use crate::layout::{branch_place, head_place};
use faults::{Fault, Trouble};
use file_store::{Files, Place};
use git_objects::Id;
use places::Text;
use std::alloc::Global;

// The head that the file gives, None where it is absent or has neither form.
fn head_in<F: Files>(alloc: Global, files: &mut F, place: &Place) -> Result<Option<Head>, Trouble>
    ensures reads { GivesHead F.tells place.now (F.drive files.old) (F.drive files.new) result }
    ensures named { IfOk result (λ head. IsNamed (branch_by head)) }
{
    let mut buffer = [0u8; 218];
    let count = files.read_part(alloc, place, 0, &mut buffer)?;
    Ok(head_given(alloc, &buffer[..count])?)
}

// The id that the file names, None where it is absent or not in form.
fn id_at<F: Files>(alloc: Global, files: &mut F, place: &Place) -> Result<Option<Id>, Trouble>
    ensures { GivesId F.tells place.now (F.drive files.old) (F.drive files.new) result }
{
    let mut buffer = [0u8; 42];
    let count = files.read_part(alloc, place, 0, &mut buffer)?;
    Ok(id_in(&buffer[..count]))
}

/// What HEAD names.
///
/// Refuses TooLarge of HEAD's place, then Damaged where HEAD is absent or has neither form.
pub fn read_head<F: Files>(alloc: Global, files: &mut F, repo: &Place) -> Result<Head, Trouble>
    ensures reads { HeadReads F.tells repo.now (F.drive files.old) (F.drive files.new) result }
    ensures named { IfOk result (λ head. IsNamed (branch_of head)) }
{
    let place = head_place(alloc, repo)?;
    match head_in(alloc, files, &place)? {
        Some(head) => Ok(head),
        None => Err(Trouble::Refused(Fault::Damaged { place })),
    }
}

/// The commit that a branch names.
pub(crate) fn branch_tip<F: Files>(
    alloc: Global,
    files: &mut F,
    repo: &Place,
    name: &Text,
) -> Result<Id, Trouble>
    requires { IsNamed (Some name.now) }
    ensures { BranchReads F.tells repo.now name.now (F.drive files.old) (F.drive files.new) result }
{
    let place = branch_place(alloc, repo, name)?;
    match id_at(alloc, files, &place)? {
        Some(id) => Ok(id),
        None => Err(Trouble::Refused(Fault::Damaged { place })),
    }
}

/// The commit to which HEAD leads.
///
/// Refuses as `read_head`, and then the same of the branch's file.
pub fn tip<F: Files>(alloc: Global, files: &mut F, repo: &Place) -> Result<Id, Trouble>
    ensures { TipReads F.tells repo.now (F.drive files.old) (F.drive files.new) result }
{
    match read_head(alloc, files, repo)? {
        Head::Branch(name) => branch_tip(alloc, files, repo, &name),
        Head::Detached(id) => Ok(id),
    }
}
