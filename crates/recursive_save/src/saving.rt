// `save`: a commit of the working files of a dataset.
//
// All is read and planned before the disk is touched. Then come the contents and their logs, then the objects, and the
// tip: a crash before it leaves the dataset at its old commit, and one after it at the new one. The index comes last. What
// was kept without a commit the next save takes up, and so it does with an index that isn't that of HEAD's commit.
ghost use Rattle.std.specs.Prelude.{◌≡◌, true, false, IfOk, IsTrue, codes};
ghost use Rattle.file_store.specs.All.{present};
ghost use Rattle.repository.specs.All.{repo_of};
ghost use Rattle.acts.specs.All.{Acts, ActsAs};
ghost use Rattle.annex_store.specs.All.{AreOutside};
ghost use Rattle.index_store.specs.All.{keeps_index};
ghost use Rattle.tree_status.specs.All.{ArePaths, IsView, is_changed, is_other, paths_of};
ghost use Rattle.recursive_save.specs.Contents.{HaveSources};
ghost use Rattle.recursive_save.specs.Saved.{AreSaveLines, SaveSays};
ghost use Rattle.recursive_save.specs.Saving.{IsSave, IsWritten, MaySave, writes};
ghost use Rattle.recursive_save.specs.Planned.{plan_of};

use crate::collisions::collision;
use crate::configuring::read_settings;
use crate::contents::contents;
use crate::planning::{Planned, dataset_line, plan, save_lines};
use crate::wishes::SaveWish;
use annex_store::{NewContent, keep_all};
use faults::{Line, Trouble};
use file_store::{Files, Place};
use git_objects::Id;
use index_store::{has_index, keep_index};
use object_store::put_all;
use ref_store::set_tip;
use std::alloc::Global;
use tree_status::{View, is_changed, is_other, read_view, repo};

// Writes a plan of objects that don't collide: they, the tip, the index, the lines, which are those of a save.
fn write<F: Files>(
    alloc: Global,
    files: &mut F,
    root: &Place,
    repo: &Place,
    planned: Planned,
    lines: &mut Vec<Line>,
) -> Result<Option<Id>, Trouble>
    requires repo { repo.now ≡ repo_of root.now }
    requires said { AreSaveLines (codes "ok") planned.lines.items }
    ensures says { SaveSays lines.old.items lines.new.items result }
    ensures acts { Acts (λ fault. MaySave F.tells root.now fault) F.tells
        (writes root.now (keeps_index planned.indexed root.now planned.snapshot) (plan_of planned)) lines.old.items
        lines.new.items (F.drive files.old) (F.drive files.new) result }
{
    let mut more = planned.lines;
    lines.reserve(more.len())?;
    put_all(alloc, files, repo, planned.objects.as_slice())?;
    set_tip(alloc, files, repo, &planned.commit)?;
    keep_index(alloc, files, root, &planned.snapshot, planned.indexed)?;
    lines.append(&mut more)?;
    Ok(Some(planned.commit))
}

// Keeps contents, each of which its source has, and then writes a plan.
fn keep_and_write<F: Files>(
    alloc: Global,
    files: &mut F,
    root: &Place,
    repo: &Place,
    contents: &[NewContent],
    moment: u64,
    planned: Planned,
    lines: &mut Vec<Line>,
) -> Result<Option<Id>, Trouble>
    requires repo { repo.now ≡ repo_of root.now }
    requires said { AreSaveLines (codes "ok") planned.lines.items }
    requires outside { AreOutside repo.now contents.now }
    requires sources { IsTrue F.tells → HaveSources (present (F.drive files.old)) contents.now }
    ensures says { SaveSays lines.old.items lines.new.items result }
    ensures acts { ActsAs (λ fault. MaySave F.tells root.now fault) F.tells
        (λ g act. IsWritten root.now planned.uuid contents.now moment
        (keeps_index planned.indexed root.now planned.snapshot) (plan_of planned) g act) lines.old.items
        lines.new.items (F.drive files.old) (F.drive files.new) result }
{
    keep_all(alloc, files, repo, &planned.uuid, contents, moment)?;
    write(alloc, files, root, repo, planned, lines)
}

// Saves what was looked at, where the new snapshot is another than the old one.
fn save_files<F: Files>(
    alloc: Global,
    files: &mut F,
    root: &Place,
    repo: &Place,
    view: &View,
    wish: &SaveWish,
    lines: &mut Vec<Line>,
) -> Result<Option<Id>, Trouble>
    requires repo { repo.now ≡ repo_of root.now }
    requires looked { IsTrue F.tells → IsView root.now wish.now.to_git (present (F.drive files.old)) view.now }
    requires ordered { ArePaths (paths_of view.now.files.items) }
    requires other { is_other view.now.by.old view.now.files.items ≡ true }
    ensures says { SaveSays lines.old.items lines.new.items result }
    ensures acts { ActsAs (λ fault. MaySave F.tells root.now fault) F.tells (λ g act. IsSave root.now wish.now g act)
        lines.old.items lines.new.items (F.drive files.old) (F.drive files.new) result }
{
    let planned = plan(alloc, files, root, view, wish)?;
    if let Some(fault) = collision(alloc, planned.objects.as_slice())? {
        return Err(Trouble::Refused(fault));
    }
    let contents = contents(alloc, root, &view.by, view.files.as_slice())?;
    let list = contents.as_slice();
    keep_and_write(alloc, files, root, repo, list, wish.moment, planned, lines)
}

// Keeps the contents that the repository lacks, where the new snapshot is the old one.
fn save_contents<F: Files>(
    alloc: Global,
    files: &mut F,
    root: &Place,
    repo: &Place,
    view: &View,
    wish: &SaveWish,
    lines: &mut Vec<Line>,
) -> Result<Option<Id>, Trouble>
    requires repo { repo.now ≡ repo_of root.now }
    requires looked { IsTrue F.tells → IsView root.now wish.now.to_git (present (F.drive files.old)) view.now }
    requires ordered { ArePaths (paths_of view.now.files.items) }
    requires changed { is_changed view.now.by.old view.now.files.items ≡ true }
    requires same { is_other view.now.by.old view.now.files.items ≡ false }
    ensures says { SaveSays lines.old.items lines.new.items result }
    ensures acts { ActsAs (λ fault. MaySave F.tells root.now fault) F.tells (λ g act. IsSave root.now wish.now g act)
        lines.old.items lines.new.items (F.drive files.old) (F.drive files.new) result }
{
    let config = read_settings(alloc, files, root)?;
    let contents = contents(alloc, root, &view.by, view.files.as_slice())?;
    let indexed = has_index(alloc, files, root, view.by.old())?;
    let mut more = save_lines(alloc, view, "notneeded")?;
    lines.reserve(more.len())?;
    let list = contents.as_slice();
    keep_all(alloc, files, repo, &config.uuid, list, wish.moment)?;
    keep_index(alloc, files, root, view.by.old(), indexed)?;
    lines.append(&mut more)?;
    Ok(None)
}

// Saves nothing, where nothing has changed: only the index is made that of HEAD's snapshot.
fn save_nothing<F: Files>(
    alloc: Global,
    files: &mut F,
    root: &Place,
    view: &View,
    wish: &SaveWish,
    lines: &mut Vec<Line>,
) -> Result<Option<Id>, Trouble>
    requires looked { IsTrue F.tells → IsView root.now wish.now.to_git (present (F.drive files.old)) view.now }
    requires same { is_changed view.now.by.old view.now.files.items ≡ false }
    ensures says { SaveSays lines.old.items lines.new.items result }
    ensures acts { ActsAs (λ fault. MaySave F.tells root.now fault) F.tells (λ g act. IsSave root.now wish.now g act)
        lines.old.items lines.new.items (F.drive files.old) (F.drive files.new) result }
{
    let indexed = has_index(alloc, files, root, view.by.old())?;
    let line = dataset_line(alloc, "notneeded")?;
    lines.reserve(1)?;
    keep_index(alloc, files, root, view.by.old(), indexed)?;
    lines.push(line)?;
    Ok(None)
}

/// Saves the working files of a dataset in a new commit on its head, keeps their contents that are new or lacked, makes
/// the index that of the commit, and appends the result lines. The answer is the commit's id, None where nothing has
/// changed but for contents that were lacked.
///
/// Refuses, before any write: what HEAD, its branch, the commit or the trees are refused for; UnsupportedMode of a pin;
/// what a blob that may be a pointer and what the working files are refused for; BadLine and TooLarge of the
/// configuration; TooLarge of the new blobs; Collision of two of the new objects; BadLog, TooLarge and TimeFull of a log;
/// and then as `keep_all`, `put_all`, `set_tip` and `keep_index`. An index that is none is replaced, and never refused.
pub fn save<F: Files>(
    alloc: Global,
    files: &mut F,
    root: &Place,
    wish: &SaveWish,
    lines: &mut Vec<Line>,
) -> Result<Option<Id>, Trouble>
    ensures says { SaveSays lines.old.items lines.new.items result }
    ensures acts { ActsAs (λ fault. MaySave F.tells root.now fault) F.tells (λ g act. IsSave root.now wish.now g act)
        lines.old.items lines.new.items (F.drive files.old) (F.drive files.new) result }
{
    let repo = repo(alloc, root)?;
    let view = read_view(alloc, files, root, &repo, wish.to_git)?;
    if !is_changed(alloc, view.by.old(), view.files.as_slice())? {
        return save_nothing(alloc, files, root, &view, wish, lines);
    }
    if is_other(alloc, view.by.old(), view.files.as_slice())? {
        return save_files(alloc, files, root, &repo, &view, wish, lines);
    }
    save_contents(alloc, files, root, &repo, &view, wish, lines)
}
