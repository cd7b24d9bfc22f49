// Objects that are read.
use super::common::{
    are_bytes, fault, files_with, holds, id, is_damaged, is_missing, is_size, repository,
};
use faults::Fault;
use git_objects::Commit;
use object_store::{get, read_commit, read_tree};
use std::alloc::Global;
use std::process::Abort;

// `printf 'hello\n' | git hash-object --stdin`
const BLOB: &[u8] = b"ce013625030ba8dba906f756967f9e9ca394464a";

// `git write-tree` of the file f, which has `hello\n`; then what `git cat-file` says of it
const TREE: &[u8] = b"10731d0b170b98481a00bdca161e874e0ab93377";

const TREE_PLACE: &str = "/r/.dlrepo/objects/10/731d0b170b98481a00bdca161e874e0ab93377";

const TREE_TEXT: &[u8] =
    b"tree 29\0100644 f\0\xce\x01\x36\x25\x03\x0b\xa8\xdb\xa9\x06\xf7\x56\x96\x7f\x9e\x9c\xa3\x94\x46\x4a";

// `git commit-tree` of that tree
const COMMIT: &[u8] = b"b11f2218fb4a9a7582b36d9e0485ff6eb92c170b";

const COMMIT_PLACE: &str = "/r/.dlrepo/objects/b1/1f2218fb4a9a7582b36d9e0485ff6eb92c170b";

const COMMIT_TEXT: &[u8] =
    b"commit 116\0tree 10731d0b170b98481a00bdca161e874e0ab93377\nauthor A <a@b> 1700000000 +0000\ncommitter A <a@b> 1700000000 +0000\n\nm\n";

// `printf 'x' | git hash-object -t tree --literally --stdin`
const NO_ENTRY: &[u8] = b"f42941c78e101ff62b3e2f6e468c3e310f703259";

const NO_ENTRY_PLACE: &str = "/r/.dlrepo/objects/f4/2941c78e101ff62b3e2f6e468c3e310f703259";

#[test]
fn trees_are_read(rt: HostRuntime) {
    let alloc = rt.alloc();
    let repo = repository(&rt, alloc);
    let mut files = files_with(&rt, alloc, TREE_PLACE, TREE_TEXT);
    let read = read_tree(alloc, &mut files, &repo, &id(&rt, TREE));
    let tree = read.expect(&rt, "a tree");
    is_size(&rt, tree.entries.len(), 1);
    let entry = tree.entries.first().expect(&rt, "an entry");
    holds(&rt, entry.name.as_str() == "f", "f");
}

#[test]
fn a_tree_is_no_commit(rt: HostRuntime) {
    let alloc = rt.alloc();
    let repo = repository(&rt, alloc);
    let mut files = files_with(&rt, alloc, TREE_PLACE, TREE_TEXT);
    let told = fault(&rt, read_commit(alloc, &mut files, &repo, &id(&rt, TREE)));
    is_missing(&rt, told, TREE);
    let found = get(alloc, &mut files, &repo, &id(&rt, BLOB));
    holds(&rt, found.expect(&rt, "read").is_none(), "a blob");
}

// That commit's fields.
fn is_that_commit(rt: &impl Abort, commit: &Commit) {
    holds(rt, commit.tree == id(rt, TREE), "its tree");
    are_bytes(rt, commit.message.as_slice(), b"m\n");
}

#[test]
fn commits_are_read(rt: HostRuntime) {
    let alloc = rt.alloc();
    let repo = repository(&rt, alloc);
    let mut files = files_with(&rt, alloc, COMMIT_PLACE, COMMIT_TEXT);
    let read = read_commit(alloc, &mut files, &repo, &id(&rt, COMMIT));
    is_that_commit(&rt, &read.expect(&rt, "a commit"));
    let told = fault(&rt, read_tree(alloc, &mut files, &repo, &id(&rt, COMMIT)));
    is_missing(&rt, told, COMMIT);
}

#[test]
fn damage_is_told(rt: HostRuntime) {
    let alloc = rt.alloc();
    let repo = repository(&rt, alloc);
    let mut files = files_with(&rt, alloc, TREE_PLACE, COMMIT_TEXT);
    let told = fault(&rt, get(alloc, &mut files, &repo, &id(&rt, TREE)));
    is_damaged(&rt, told, TREE_PLACE);
}

fn is_bad_tree(rt: &impl Abort, fault: Fault, want: u64) {
    match fault {
        Fault::BadTree { at, .. } => assert_eq!(rt; at, want),
        _ => rt.abort(),
    }
}

// An object of that id, whose body is no tree's.
#[test]
fn bad_trees_are_told(rt: HostRuntime) {
    let alloc = rt.alloc();
    let repo = repository(&rt, alloc);
    let mut files = files_with(&rt, alloc, NO_ENTRY_PLACE, b"tree 1\0x");
    let told = fault(&rt, read_tree(alloc, &mut files, &repo, &id(&rt, NO_ENTRY)));
    is_bad_tree(&rt, told, 0);
}
