// `create`: makes a dataset with its first commit.
//
// The plan is made before the disk is touched. Then come the objects, the files that only HEAD makes a dataset of, and
// HEAD last: a crash before it leaves no dataset, and one after it a whole one.
ghost use Rattle.std.specs.Prelude.{◌≡◌, ◌≤◌, length, IfOk, string_bytes};
ghost use Rattle.places.specs.All.{text_of};
ghost use Rattle.acts.specs.All.{Acts, ActsQuietly};
ghost use Rattle.repository.specs.All.{tmp_place as tmp_of, repo_of, object_limit, repo_limit};
ghost use Rattle.object_store.specs.All.{MayPut};
ghost use Rattle.recursive_save.specs.Creating.{created_line, create_step, CreateSays, MayCreate};
ghost use Rattle.recursive_save.specs.First.{new_dataset};
ghost use Rattle.recursive_save.specs.Plans.{parts_of};
ghost use Rattle.recursive_save.specs.Creating.{middle_files, dataset_step};

use crate::first::{Plan, head_file, make_plan, text};
use acts::{put_file, put_files};
use faults::{Fault, Line, Trouble};
use file_store::{Bytes, Files, Kind, Place, Replacement};
use git_objects::Id;
use object_store::put_all;
use repository::{
    REPO_LIMIT, config_place, head_place, index_place, main_place, repo_place, repo_place_text,
    settings_place, tmp_place, too_large,
};
use std::alloc::{AllocError, Global};

// The result line of a dataset that was made.
fn line_of(alloc: Global, root: &Place) -> Result<Line, AllocError>
    ensures { IfOk result (λ line. line ≡ created_line root.now) }
{
    Ok(Line {
        action: text(alloc, "create")?,
        status: text(alloc, "ok")?,
        path: text(alloc, root.as_str())?,
        kind: text(alloc, "dataset")?,
    })
}

// A file by way of a numbered temporary place.
fn by_tmp(
    alloc: Global,
    repo: &Place,
    number: usize,
    place: Place,
    bytes: Bytes,
) -> Result<Replacement, AllocError>
    requires { length (text_of repo.now) ≤ object_limit }
    ensures { IfOk result (λ r. r ≡ record { tmp = tmp_of repo.now number; place = place; bytes = bytes }) }
{
    let tmp = tmp_place(alloc, repo, number)?;
    Ok(Replacement { tmp, place, bytes })
}

// The files between the objects and HEAD.
fn middle(
    alloc: Global,
    root: &Place,
    repo: &Place,
    config: Bytes,
    index: Bytes,
    settings: Bytes,
    main: Bytes,
) -> Result<Vec<Replacement>, AllocError>
    requires repo { repo.now ≡ repo_of root.now }
    requires fits { length (text_of repo.now) ≤ repo_limit }
    ensures { IfOk result (λ list. list.items ≡ middle_files root.now config index settings main) }
{
    let mut list = Vec::new(alloc);
    let place = config_place(alloc, root)?;
    list.push(by_tmp(alloc, repo, 0, place, config)?)?;
    let place = index_place(alloc, root)?;
    list.push(by_tmp(alloc, repo, 1, place, index)?)?;
    let place = settings_place(alloc, root)?;
    list.push(by_tmp(alloc, repo, 2, place, settings)?)?;
    let place = main_place(alloc, root)?;
    list.push(by_tmp(alloc, repo, 3, place, main)?)?;
    Ok(list)
}

// Writes a planned dataset: objects, the files between, HEAD.
fn write_dataset<F: Files>(
    alloc: Global,
    files: &mut F,
    root: &Place,
    repo: &Place,
    plan: Plan,
) -> Result<(), Trouble>
    requires repo { repo.now ≡ repo_of root.now }
    requires fits { length (text_of repo.now) ≤ repo_limit }
    ensures { ActsQuietly (λ fault. MayPut F.tells repo.now plan.objects.items fault) F.tells
        (dataset_step root.now (parts_of plan)) (F.drive files.old) (F.drive files.new) result }
{
    let Plan {
        config,
        index,
        settings,
        main,
        objects,
        ..
    } = plan;
    let middle = middle(alloc, root, repo, config, index, settings, main)?;
    let tmp = tmp_place(alloc, repo, 0)?;
    let head = head_place(alloc, root)?;
    put_all(alloc, files, repo, objects.as_slice())?;
    put_files(alloc, files, middle.as_slice())?;
    put_file(alloc, files, &tmp, &head, head_file().as_bytes())?;
    Ok(())
}

/// Makes a dataset at a place, with its first commit at a moment in seconds since 1970, and appends its result line.
/// The answer is the commit's id. `fresh` are 16 random bytes, of which the ids of the dataset and the repository are
/// made.
///
/// Refuses, before any write, AlreadyThere, TooLarge of the repository's place, and Blocked.
pub fn create<F: Files>(
    alloc: Global,
    files: &mut F,
    place: &Place,
    moment: u64,
    fresh: &[u8; 16],
    lines: &mut Vec<Line>,
) -> Result<Id, Trouble>
    ensures says { CreateSays place.now lines.old.items lines.new.items result }
    ensures acts { Acts (λ fault. MayCreate F.tells (new_dataset place.now moment fresh.now) fault) F.tells
        (create_step (new_dataset place.now moment fresh.now)) lines.old.items lines.new.items (F.drive files.old)
        (F.drive files.new) result }
{
    if files.kind(alloc, place)? != Kind::Absent {
        let place = place.try_clone(alloc)?;
        return Err(Trouble::Refused(Fault::AlreadyThere { place }));
    }
    let repo = repo_place_text(alloc, place)?;
    if REPO_LIMIT < repo.len() {
        return Err(Trouble::Refused(too_large(repo)));
    }
    let repo = repo_place(alloc, place)?;
    let line = line_of(alloc, place)?;
    let plan = make_plan(alloc, place, moment, fresh)?;
    let id = plan.id;
    lines.reserve(1)?;
    write_dataset(alloc, files, place, &repo, plan)?;
    lines.push(line)?;
    Ok(id)
}
