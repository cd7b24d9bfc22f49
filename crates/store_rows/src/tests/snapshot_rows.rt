// Trees of git's, built, put and read again; and that each refusal comes.
use super::common::{fault, holds, id, is_size, is_text, place};
use faults::Fault;
use file_store::{Bytes, MemFiles, Place, Text};
use git_objects::{Id, ObjKind, blob_id};
use object_store::{NewObject, put_all};
use snapshot::{Built, Entry, Leaf, Snapshot, build, flatten};
use std::alloc::Global;
use std::process::Abort;

// `git write-tree` of these files, each `hello\n`, the last one executable; then of their directories
const PATHS: [&str; 4] = [".datalad/config", "a.b", "a/c", "a0"];

const TREE: &[u8] = b"69a003cd12c6dd7109a2d211dfee0f72dca97e5e";

const FIRST: &[u8] = b"0815cec2f190dbc10d3eb6cf7921b7f6b7582c58";

const INNER: &[u8] = b"435927d2fe872add393f6b83553075ffeb232cba";

// `printf 'm\n' | git commit-tree` of that tree, and what `git cat-file commit` says of it
const COMMIT: &[u8] = b"871c4c499c2d6eb028d2eae7c7a50ac9c3e3f914";

const COMMIT_BODY: &[u8] =
    b"tree 69a003cd12c6dd7109a2d211dfee0f72dca97e5e\nauthor A <a@b> 1700000000 +0000\ncommitter A <a@b> 1700000000 +0000\n\nm\n";

fn leaf(exec: bool) -> Leaf {
    let id = blob_id(b"hello\n");
    Leaf::Git { id, exec }
}

fn entry(rt: &impl Abort, alloc: Global, path: &str) -> Entry {
    let text = String::from_str(alloc, path).expect(rt, "memory");
    Entry {
        path: Text::new(text),
        leaf: leaf(path == "a0"),
    }
}

fn entries(rt: &impl Abort, alloc: Global, paths: &[&str]) -> Vec<Entry> {
    let mut list = Vec::new(alloc);
    for path in paths {
        list.push(entry(rt, alloc, path)).expect(rt, "memory");
    }
    list
}

fn snapshot(rt: &impl Abort, alloc: Global, paths: &[&str]) -> Snapshot {
    Snapshot::new(entries(rt, alloc, paths)).expect(rt, "a snapshot")
}

fn built(rt: &impl Abort, alloc: Global) -> Built {
    build(alloc, &snapshot(rt, alloc, &PATHS)).expect(rt, "built")
}

fn is_id(rt: &impl Abort, got: Id, want: &[u8]) {
    holds(rt, got == id(rt, want), "an id");
}

#[test]
fn trees_are_gits(rt: HostRuntime) {
    let built = built(&rt, rt.alloc());
    is_id(&rt, built.root, TREE);
    if built.trees.len() != 3 {
        rt.abort();
    }
    is_id(&rt, built.trees[1].id(), INNER);
}

// The trees of git's commit, and the commit.
fn committed(rt: &impl Abort, alloc: Global) -> Vec<NewObject> {
    let body = COMMIT_BODY.to_vec(alloc).expect(rt, "memory");
    let commit = NewObject {
        kind: ObjKind::Commit,
        body: Bytes::new(body),
    };
    let mut objects = built(rt, alloc).trees;
    objects.push(commit).expect(rt, "memory");
    objects
}

// Files in which these objects were put.
fn put_objects(rt: &impl Abort, alloc: Global, repo: &Place, objects: &[NewObject]) -> MemFiles {
    let mut files = MemFiles::new(alloc);
    put_all(alloc, &mut files, repo, objects).expect(rt, "put");
    files
}

fn has_file(rt: &impl Abort, read: &Snapshot, path: &str, exec: bool) {
    holds(rt, read.find(path) == Some(&leaf(exec)), path);
}

fn has_nothing(rt: &impl Abort, read: &Snapshot, path: &str) {
    holds(rt, read.find(path).is_none(), path);
}

fn has_paths(rt: &impl Abort, read: &Snapshot, paths: &[&str]) {
    is_size(rt, read.entries().len(), paths.len());
    for (entry, path) in read.entries().iter().zip(paths) {
        is_text(rt, entry.path.as_str(), path);
    }
}

#[test]
fn what_was_put_is_read(rt: HostRuntime) {
    let (rt, alloc) = (&rt, rt.alloc());
    let repo = place(rt, alloc, "/r/.dlrepo");
    let objects = committed(rt, alloc);
    let mut files = put_objects(rt, alloc, &repo, objects.as_slice());
    let commit = id(rt, COMMIT);
    let read = flatten(alloc, &mut files, &repo, &commit).expect(rt, "read");
    has_paths(rt, &read, &PATHS);
    has_file(rt, &read, "a/c", false);
    has_file(rt, &read, "a0", true);
    has_nothing(rt, &read, "a");
    has_nothing(rt, &read, "b");
}

// The object that a refusal names.
fn missing(rt: &impl Abort, fault: Fault) -> Id {
    match fault {
        Fault::Missing { id } => Id(id),
        _ => rt.abort(),
    }
}

#[test]
fn a_missing_tree_is_named(rt: HostRuntime) {
    let (rt, alloc) = (&rt, rt.alloc());
    let repo = place(rt, alloc, "/r/.dlrepo");
    let mut objects = committed(rt, alloc);
    objects.reverse();
    objects.truncate(2);
    let mut files = put_objects(rt, alloc, &repo, objects.as_slice());
    let commit = id(rt, COMMIT);
    let fault = fault(rt, flatten(alloc, &mut files, &repo, &commit));
    is_id(rt, missing(rt, fault), FIRST);
}

#[test]
fn the_least_clash_is_refused(rt: HostRuntime) {
    let (rt, alloc) = (&rt, rt.alloc());
    let snapshot = snapshot(rt, alloc, &["a", "a.b", "a.b/d", "a/b"]);
    let fault = fault(rt, build(alloc, &snapshot));
    let is = matches!(&fault, Fault::PathClash { path } if path.as_str() == "a");
    drop(fault);
    holds(rt, is, "a clash");
}

fn is_list(rt: &impl Abort, alloc: Global, paths: &[&str], is: bool) {
    let snapshot = Snapshot::new(entries(rt, alloc, paths));
    holds(rt, snapshot.is_some() == is, "paths");
}

#[test]
fn lists_of_paths(rt: HostRuntime) {
    let (rt, alloc) = (&rt, rt.alloc());
    is_list(rt, alloc, &[], true);
    is_list(rt, alloc, &["a.b", "a/c", "a0"], true);
    is_list(rt, alloc, &["a/c", "a.b"], false);
    is_list(rt, alloc, &["a", "a"], false);
    for path in ["", "a//b", "a/.git", "a/.dlrepo/b"] {
        is_list(rt, alloc, &[path], false);
    }
}
