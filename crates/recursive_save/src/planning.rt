// The plan of a save: the configuration, the blobs that are new, the trees, the commit, the lines.
ghost use Rattle.std.specs.Prelude.{◌≡◌, ◌++◌, ◌∷◌, [], List, IsTrue, IfOk, IfErr, codes};
ghost use Rattle.file_store.specs.All.{present};
ghost use Rattle.git_objects.specs.All.{person_text, person_of};
ghost use Rattle.config_text.specs.All.{plain_config};
ghost use Rattle.acts.specs.All.{Reads};
ghost use Rattle.tree_status.specs.All.{ArePaths, IsView, new_entries, paths_of};
ghost use Rattle.recursive_save.specs.Configured.{HasPerson};
ghost use Rattle.recursive_save.specs.Saved.{AreSaveLines};
ghost use Rattle.recursive_save.specs.Saving.{dataset_line, save_commit, save_lines};
ghost use Rattle.recursive_save.specs.Planned.{IsPlannedOf, IsPlanRefusal, MayPlan, IsPlanWith};
ghost use Rattle.recursive_save.specs.Planned.{PlanFails, plan_of, IsCommitOn};

use crate::blobs::read_blobs;
use crate::configuring::read_settings;
use crate::first::{new_object, text};
use crate::lines::lines_of;
use crate::wishes::SaveWish;
use config_text::RepoConfig;
use faults::{Line, Trouble};
use file_store::{Bytes, Files, Place};
use git_objects::{Commit, Id, ObjErr, ObjKind, Person, object_id};
use index_store::has_index;
use object_store::NewObject;
use snapshot::{Snapshot, build};
use std::alloc::{AllocError, Global};
use tree_status::{View, added_files, changes_of, new_snapshot};
use uuid::Uuid;

/// The objects of a save, its commit's id, its lines, the new snapshot, whether the index is that of it already, and the
/// UUID of the repository.
#[derive(Drop)]
pub(crate) struct Planned {
    pub(crate) objects: Vec<NewObject>,
    pub(crate) commit: Id,
    pub(crate) lines: Vec<Line>,
    pub(crate) snapshot: Snapshot,
    pub(crate) indexed: bool,
    pub(crate) uuid: Uuid,
}

// The configured person at a moment.
fn person(alloc: Global, config: &RepoConfig, moment: u64) -> Result<Person, AllocError>
    requires { HasPerson config.now }
    ensures { IfOk result (λ person. person_text person
        ≡ person_of config.now.name config.now.email moment (codes "+0000")) }
{
    Ok(Person {
        name: text(alloc, config.name.as_str())?,
        email: text(alloc, config.email.as_str())?,
        secs: moment,
        zone: *b"+0000",
    })
}

// The body of the commit of a tree on a parent.
fn commit_body(
    alloc: Global,
    config: &RepoConfig,
    wish: &SaveWish,
    tree: Id,
    parent: Id,
) -> Result<Vec<u8>, AllocError>
    requires { HasPerson config.now }
    ensures text { IfOk result (λ body. body.items ≡ save_commit (plain_config config.now) wish.now tree.0 parent.0) }
    ensures fields { IfOk result (λ body. IsCommitOn
        (save_commit (plain_config config.now) wish.now tree.0 parent.0) tree.0 parent.0) }
{
    let mut parents = Vec::new(alloc);
    parents.push(parent)?;
    let commit = Commit {
        tree,
        parents,
        author: person(alloc, config, wish.moment)?,
        committer: person(alloc, config, wish.moment)?,
        extra: Bytes::new(Vec::new(alloc)),
        message: Bytes::new(Vec::from_slice(alloc, wish.message.as_slice())?),
    };
    match commit.encode(alloc) {
        Ok(body) => Ok(body),
        Err(ObjErr::NoMemory) => Err(AllocError),
        Err(_) => unreachable!(),
    }
}

/// The last line of a save, of the dataset itself.
pub(crate) fn dataset_line(alloc: Global, status: &str) -> Result<Line, AllocError>
    ensures { IfOk result (λ line. line ≡ dataset_line status.now) }
{
    Ok(Line {
        action: text(alloc, "save")?,
        status: text(alloc, status)?,
        path: text(alloc, ".")?,
        kind: text(alloc, "dataset")?,
    })
}

/// The lines of the changes, and that of the dataset with this status.
pub(crate) fn save_lines(alloc: Global, view: &View, status: &str) -> Result<Vec<Line>, AllocError>
    ensures lines { IfOk result (λ lines. lines.items ≡ save_lines view.now.by.old view.now.files.items status.now) }
    ensures said { IfOk result (λ lines. AreSaveLines status.now lines.items) }
{
    let changes = changes_of(alloc, view.by.old(), view.files.as_slice())?;
    let mut lines = lines_of(alloc, changes.as_slice())?;
    lines.push(dataset_line(alloc, status)?)?;
    Ok(lines)
}

// The plan of blobs that were read: the trees of the new snapshot, the commit, and the lines.
fn complete(
    alloc: Global,
    config: &RepoConfig,
    view: &View,
    wish: &SaveWish,
    blobs: Vec<NewObject>,
    new: Snapshot,
    indexed: bool,
) -> Result<Planned, Trouble>
    requires new { new ≡ new_entries view.now.by.old view.now.files.items }
    requires person { HasPerson config.now }
    requires ordered { ArePaths (paths_of view.now.files.items) }
    ensures plan { IfOk result (λ planned. IsPlanWith (plain_config config.now) view.now wish.now blobs.items
        (plan_of planned)) }
    ensures own { IfOk result (λ planned. planned.uuid ≡ config.now.uuid) }
    ensures snapshot { IfOk result (λ planned. planned.snapshot ≡ new) }
    ensures indexed { IfOk result (λ planned. planned.indexed ≡ indexed) }
    ensures said { IfOk result (λ planned. AreSaveLines (codes "ok") planned.lines.items) }
    ensures fails { IfErr result (PlanFails view.now) }
{
    let mut built = build(alloc, &new)?;
    let lines = save_lines(alloc, view, "ok")?;
    let body = commit_body(alloc, config, wish, built.root, view.parent)?;
    let commit = object_id(ObjKind::Commit, body.as_slice());
    let mut objects = blobs;
    objects.append(&mut built.trees)?;
    objects.push(new_object(ObjKind::Commit, body))?;
    Ok(Planned {
        objects,
        commit,
        lines,
        snapshot: new,
        indexed,
        uuid: config.uuid,
    })
}

/// The plan of a save of what was looked at.
///
/// Refuses what the configuration is refused for, then TooLarge of the new blobs. Dirty and PathClash come only where
/// the files don't tell what they hold.
pub(crate) fn plan<F: Files>(
    alloc: Global,
    files: &mut F,
    root: &Place,
    view: &View,
    wish: &SaveWish,
) -> Result<Planned, Trouble>
    requires looked { IsTrue F.tells → IsView root.now wish.now.to_git (present (F.drive files.old)) view.now }
    requires ordered { ArePaths (paths_of view.now.files.items) }
    ensures reads { Reads (λ fault. MayPlan F.tells root.now fault) F.tells
        (λ g planned. IsPlannedOf root.now wish.now view.now g planned)
        (λ g fault. IsPlanRefusal root.now wish.now view.now g fault) (F.drive files.old) (F.drive files.new) result }
    ensures said { IfOk result (λ planned. AreSaveLines (codes "ok") planned.lines.items) }
{
    let config = read_settings(alloc, files, root)?;
    let added = added_files(alloc, view.by.old(), view.files.as_slice())?;
    let blobs = read_blobs(alloc, files, root, added.as_slice())?;
    let new = new_snapshot(alloc, view.by.old(), view.files.as_slice())?;
    let indexed = has_index(alloc, files, root, &new)?;
    complete(alloc, &config, view, wish, blobs, new, indexed)
}
