// What a new dataset holds: its texts, its index, and the objects of its first commit.
ghost use Rattle.std.specs.Prelude.{◌≡◌, ◌++◌, ◌∷◌, [], IfOk, IsTrue};
ghost use Rattle.git_objects.specs.All.{entry_of, is_entry, person_text, commit_text, hex_of};
ghost use Rattle.config_text.specs.All.{made, uuid_text, printed};
ghost use Rattle.recursive_save.specs.First.{new_dataset, dataset_config, settings_text, default_person, first_message};
ghost use Rattle.index_store.specs.All.{snapshot_text};
ghost use Rattle.recursive_save.specs.First.{first_objects, first_id, first_snapshot, head_text};
ghost use Rattle.recursive_save.specs.Plans.{IsPlan};

use config_text::{ConfErr, Entry, RepoConfig, Role, Section, made_uuid, print};
use file_store::{Bytes, Place, Text};
use git_objects::{Commit, Id, Mode, ObjErr, ObjKind, Person, Tree, TreeEntry, object_id};
use index_store::snapshot_text;
use object_store::NewObject;
use snapshot::{Entry as SnapshotEntry, Leaf, Snapshot};
use std::alloc::{AllocError, Global};
use uuid::Uuid;

/// The texts and objects of a dataset that is to be made, and its first commit.
#[derive(Drop)]
pub(crate) struct Plan {
    pub(crate) config: Bytes,
    pub(crate) settings: Bytes,
    pub(crate) index: Bytes,
    pub(crate) main: Bytes,
    pub(crate) objects: Vec<NewObject>,
    pub(crate) id: Id,
}

// The objects of a first commit, and its id.
#[derive(Drop)]
struct FirstCommit {
    objects: Vec<NewObject>,
    id: Id,
}

/// A text of its own.
pub(crate) fn text(alloc: Global, value: &str) -> Result<Text, AllocError>
    ensures { IfOk result (λ text. text ≡ value.now) }
{
    Ok(Text::new(String::from_str(alloc, value)?))
}

// The UUID of a role at a place.
fn uuid_of(alloc: Global, fresh: &[u8; 16], role: Role, root: &Place) -> Result<Uuid, AllocError>
    ensures { IfOk result (λ uuid. uuid ≡ made fresh.now role root.now) }
{
    match made_uuid(alloc, fresh, role, root) {
        Ok(uuid) => Ok(uuid),
        Err(ConfErr::NoMemory) => Err(AllocError),
        Err(_) => unreachable!(),
    }
}

fn uuid_value(alloc: Global, uuid: &Uuid) -> Result<Text, AllocError>
    ensures { IfOk result (λ text. text ≡ uuid_text uuid.now) }
{
    let mut buffer = [0u8; 36];
    text(alloc, uuid.hyphenated().encode_lower(&mut buffer))
}

fn printed_sections(alloc: Global, sections: &[Section]) -> Result<Vec<u8>, AllocError>
    ensures { IfOk result (λ text. text.items ≡ printed sections.now) }
{
    match print(alloc, sections) {
        Ok(text) => Ok(text),
        Err(ConfErr::NoMemory) => Err(AllocError),
        Err(_) => unreachable!(),
    }
}

/// `.datalad/config` of a new dataset.
#[tactic(auto, unfolding(crate::specs::First::dataset_config))]
fn config_of(alloc: Global, fresh: &[u8; 16], root: &Place) -> Result<Vec<u8>, AllocError>
    ensures { IfOk result (λ bytes. bytes.items ≡ dataset_config fresh.now root.now) }
{
    let uuid = uuid_of(alloc, fresh, Role::Dataset, root)?;
    let mut entries = Vec::new(alloc);
    entries.push(Entry {
        key: text(alloc, "id")?,
        value: uuid_value(alloc, &uuid)?,
    })?;
    let section = Section {
        name: text(alloc, "datalad")?,
        sub: Some(text(alloc, "dataset")?),
        entries,
    };
    let mut sections = Vec::new(alloc);
    sections.push(section)?;
    printed_sections(alloc, sections.as_slice())
}

/// `.dlrepo/config` of a new dataset.
#[tactic(auto, unfolding(crate::specs::First::settings_text, crate::specs::First::default_name, crate::specs::First::default_email))]
fn settings_of(alloc: Global, fresh: &[u8; 16], root: &Place) -> Result<Vec<u8>, AllocError>
    ensures { IfOk result (λ bytes. bytes.items ≡ settings_text fresh.now root.now) }
{
    let config = RepoConfig {
        uuid: uuid_of(alloc, fresh, Role::Repository, root)?,
        numcopies: 1,
        name: text(alloc, "DataLad User")?,
        email: text(alloc, "user@localhost")?,
        remotes: Vec::new(alloc),
        rest: Vec::new(alloc),
    };
    match config.print(alloc) {
        Ok(text) => Ok(text),
        Err(ConfErr::NoMemory) => Err(AllocError),
        Err(_) => unreachable!(),
    }
}

// The body of a tree of one entry.
fn tree_of_one(alloc: Global, mode: Mode, name: &str, id: Id) -> Result<Vec<u8>, AllocError>
    requires { IsTrue (is_entry (record { mode = mode; name = name.now; id = id })) }
    ensures { IfOk result (λ body. body.items ≡ entry_of mode name.now id.0) }
{
    let name = text(alloc, name)?;
    let mut entries = Vec::new(alloc);
    entries.push(TreeEntry { mode, name, id })?;
    let tree = Tree { entries };
    match tree.encode(alloc) {
        Ok(body) => Ok(body),
        Err(ObjErr::NoMemory) => Err(AllocError),
        Err(_) => unreachable!(),
    }
}

#[tactic(auto, unfolding(crate::specs::First::first_message))]
fn message() -> &'static str
    ensures { result.now ≡ first_message }
{
    "[DATALAD] new dataset\n"
}

#[tactic(auto, unfolding(crate::specs::First::default_person, crate::specs::First::default_name, crate::specs::First::default_email))]
fn person(alloc: Global, moment: u64) -> Result<Person, AllocError>
    ensures { IfOk result (λ person. person_text person ≡ default_person moment) }
{
    Ok(Person {
        name: text(alloc, "DataLad User")?,
        email: text(alloc, "user@localhost")?,
        secs: moment,
        zone: *b"+0000",
    })
}

// The body of the first commit.
fn commit_body(alloc: Global, tree: Id, moment: u64) -> Result<Vec<u8>, AllocError>
    ensures { IfOk result (λ body. body.items ≡ commit_text tree.0 [] (default_person moment)
        (default_person moment) [] first_message) }
{
    let commit = Commit {
        tree,
        parents: Vec::new(alloc),
        author: person(alloc, moment)?,
        committer: person(alloc, moment)?,
        extra: Bytes::new(Vec::new(alloc)),
        message: Bytes::new(Vec::from_slice(alloc, message().as_bytes())?),
    };
    match commit.encode(alloc) {
        Ok(body) => Ok(body),
        Err(ObjErr::NoMemory) => Err(AllocError),
        Err(_) => unreachable!(),
    }
}

// The first commit of a new dataset whose configuration this is.
fn first_commit(alloc: Global, config: &[u8], moment: u64) -> Result<FirstCommit, AllocError>
    ensures objects { IfOk result (λ first. first.objects.items ≡ first_objects config.now moment) }
    ensures id { IfOk result (λ first. first.id.0 ≡ first_id config.now moment) }
{
    let inner = tree_of_one(
        alloc,
        Mode::File,
        "config",
        object_id(ObjKind::Blob, config),
    )?;
    let inner_id = object_id(ObjKind::Tree, inner.as_slice());
    let outer = tree_of_one(alloc, Mode::Dir, ".datalad", inner_id)?;
    let commit = commit_body(alloc, object_id(ObjKind::Tree, outer.as_slice()), moment)?;
    let id = object_id(ObjKind::Commit, commit.as_slice());
    let blob = Vec::from_slice(alloc, config)?;
    let mut objects = Vec::new(alloc);
    objects.push(new_object(ObjKind::Blob, blob))?;
    objects.push(new_object(ObjKind::Tree, inner))?;
    objects.push(new_object(ObjKind::Tree, outer))?;
    objects.push(new_object(ObjKind::Commit, commit))?;
    Ok(FirstCommit { objects, id })
}

/// An object to be put.
pub(crate) fn new_object(kind: ObjKind, body: Vec<u8>) -> NewObject
    ensures { result ≡ record { kind = kind; body = body.items } }
{
    NewObject {
        kind,
        body: Bytes::new(body),
    }
}

// The snapshot of a first commit, whose configuration this is.
fn first_snapshot(alloc: Global, config: &[u8]) -> Result<Snapshot, AllocError>
    ensures { IfOk result (λ snapshot. snapshot ≡ first_snapshot config.now) }
{
    let id = object_id(ObjKind::Blob, config);
    let mut entries = Vec::new(alloc);
    entries.push(SnapshotEntry {
        path: text(alloc, ".datalad/config")?,
        leaf: Leaf::Git { id, exec: false },
    })?;
    Ok(Snapshot::of_ordered(entries))
}

// The index of a new dataset.
fn first_index(alloc: Global, config: &[u8]) -> Result<Vec<u8>, AllocError>
    ensures { IfOk result (λ bytes. bytes.items ≡ snapshot_text (first_snapshot config.now)) }
{
    let snapshot = first_snapshot(alloc, config)?;
    snapshot_text(alloc, &snapshot)
}

// The file of a branch at a commit.
fn branch_file(alloc: Global, id: &Id) -> Result<Vec<u8>, AllocError>
    ensures { IfOk result (λ text. text.items ≡ hex_of id.now.0 ++ 10 ∷ []) }
{
    let mut text = Vec::from_slice(alloc, &id.to_hex())?;
    text.push(b'\n')?;
    Ok(text)
}

/// HEAD of a new dataset.
#[tactic(auto, unfolding(crate::specs::First::head_text))]
pub(crate) fn head_file() -> &'static str
    ensures { result.now ≡ head_text }
{
    "ref: refs/heads/main\n"
}

/// All that is written for a new dataset. Nothing of it depends on what stands on the disk.
pub(crate) fn make_plan(
    alloc: Global,
    root: &Place,
    moment: u64,
    fresh: &[u8; 16],
) -> Result<Plan, AllocError>
    ensures { IfOk result (IsPlan (new_dataset root.now moment fresh.now)) }
{
    let config = config_of(alloc, fresh, root)?;
    let settings = settings_of(alloc, fresh, root)?;
    let index = first_index(alloc, config.as_slice())?;
    let first = first_commit(alloc, config.as_slice(), moment)?;
    let main = branch_file(alloc, &first.id)?;
    Ok(Plan {
        config: Bytes::new(config),
        settings: Bytes::new(settings),
        index: Bytes::new(index),
        main: Bytes::new(main),
        objects: first.objects,
        id: first.id,
    })
}
