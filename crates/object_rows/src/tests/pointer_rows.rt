// The annexed leaves of snapshots, and what is refused where they are looked for.
use super::common::{
    HELLO, fault, files_with, holds, id, is_damaged, is_device, is_missing, is_size, is_text,
    is_too_large, long_place, repository,
};
use annex_keys::to_text;
use file_store::{Bytes, MemFiles, Place, Text};
use git_objects::ObjKind;
use object_store::{NewObject, put_all};
use snapshot::{Entry, Leaf, Pointer, Snapshot, pointers};
use std::alloc::Global;
use std::process::Abort;

// `printf 'hello\n' | sha256sum`, in the key of such a content
const KEY: &str =
    "SHA256E-s6--5891b5b522d5df086d0ff0b110fbd9d21bb4fc7163af34d08286a2e846f6be03.txt";

const POINTER: &[u8] =
    b"/annex/objects/SHA256E-s6--5891b5b522d5df086d0ff0b110fbd9d21bb4fc7163af34d08286a2e846f6be03.txt\n";

const LINE: &[u8] =
    b"/annex/objects/SHA256E-s6--5891b5b522d5df086d0ff0b110fbd9d21bb4fc7163af34d08286a2e846f6be03.txt";

// `git hash-object --stdin` of `hello\n`, of the pointer, and of the pointer without its newline
const PLAIN_ID: &[u8] = b"ce013625030ba8dba906f756967f9e9ca394464a";

const POINTER_ID: &[u8] = b"39b3ecb685e7d01850073c97ecc20aeeb699a30c";

const LINE_ID: &[u8] = b"0d53f0bc5caf348cbeee34e514897ece8c3c818a";

// `git hash-object -t tree /dev/null`
const TREE_ID: &[u8] = b"4b825dc642cb6eb9a060e54bf8d69288fbee4904";

const TREE_PLACE: &str = "/r/.dlrepo/objects/4b/825dc642cb6eb9a060e54bf8d69288fbee4904";

fn file(rt: &impl Abort, hex: &[u8], exec: bool) -> Leaf {
    Leaf::Git {
        id: id(rt, hex),
        exec,
    }
}

fn push(rt: &impl Abort, alloc: Global, entries: &mut Vec<Entry>, path: &str, leaf: Leaf) {
    let path = Text::new(String::from_str(alloc, path).expect(rt, "memory"));
    entries.push(Entry { path, leaf }).expect(rt, "memory");
}

// Files that are no links, by their paths and the ids of their blobs.
fn of_files(rt: &impl Abort, alloc: Global, rows: &[(&str, &[u8])]) -> Snapshot {
    let mut entries = Vec::new(alloc);
    for row in rows {
        push(rt, alloc, &mut entries, row.0, file(rt, row.1, false));
    }
    Snapshot::new(entries).expect(rt, "a snapshot")
}

// Leaves of each kind. The blob of the link isn't put, and its text would be the same pointer.
fn of_all_kinds(rt: &impl Abort, alloc: Global) -> Snapshot {
    let mut entries = Vec::new(alloc);
    push(rt, alloc, &mut entries, "a", file(rt, PLAIN_ID, false));
    push(rt, alloc, &mut entries, "b", file(rt, POINTER_ID, false));
    push(rt, alloc, &mut entries, "c/d", file(rt, LINE_ID, true));
    let link = id(rt, POINTER_ID);
    push(rt, alloc, &mut entries, "e", Leaf::Link { id: link });
    let pin = id(rt, TREE_ID);
    push(rt, alloc, &mut entries, "f", Leaf::Pin { id: pin });
    Snapshot::new(entries).expect(rt, "a snapshot")
}

// Files in which these blobs were put.
fn put_blobs(rt: &impl Abort, alloc: Global, repo: &Place, bodies: &[&[u8]]) -> MemFiles {
    let mut objects = Vec::new(alloc);
    for body in bodies {
        let body = Bytes::new(body.to_vec(alloc).expect(rt, "memory"));
        let kind = ObjKind::Blob;
        objects.push(NewObject { kind, body }).expect(rt, "memory");
    }
    let mut files = MemFiles::new(alloc);
    put_all(alloc, &mut files, repo, objects.as_slice()).expect(rt, "put");
    files
}

fn are_at(rt: &impl Abort, alloc: Global, found: &[Pointer], paths: &[&str]) {
    is_size(rt, found.len(), paths.len());
    for (pointer, path) in found.iter().zip(paths) {
        is_text(rt, pointer.path.as_str(), path);
        let text = to_text(alloc, &pointer.key).expect(rt, "memory");
        is_text(rt, text.as_str(), KEY);
    }
}

#[test]
fn files_that_point_are_found(rt: HostRuntime) {
    let (rt, alloc) = (&rt, rt.alloc());
    let repo = repository(rt, alloc);
    let mut files = put_blobs(rt, alloc, &repo, &[b"hello\n", POINTER, LINE]);
    let snapshot = of_all_kinds(rt, alloc);
    let found = pointers(alloc, &mut files, &repo, &snapshot).expect(rt, "read");
    are_at(rt, alloc, found.as_slice(), &["b", "c/d"]);
}

#[test]
fn the_first_missing_blob_is_told(rt: HostRuntime) {
    let (rt, alloc) = (&rt, rt.alloc());
    let repo = repository(rt, alloc);
    let mut files = put_blobs(rt, alloc, &repo, &[POINTER]);
    let rows: [(&str, &[u8]); 3] = [("a", POINTER_ID), ("b", LINE_ID), ("c", PLAIN_ID)];
    let snapshot = of_files(rt, alloc, &rows);
    let told = fault(rt, pointers(alloc, &mut files, &repo, &snapshot));
    is_missing(rt, told, LINE_ID);
}

#[test]
fn a_tree_is_no_blob(rt: HostRuntime) {
    let (rt, alloc) = (&rt, rt.alloc());
    let repo = repository(rt, alloc);
    let mut files = files_with(rt, alloc, TREE_PLACE, b"tree 0\0");
    let snapshot = of_files(rt, alloc, &[("a", TREE_ID)]);
    let told = fault(rt, pointers(alloc, &mut files, &repo, &snapshot));
    is_missing(rt, told, TREE_ID);
}

#[test]
fn a_damaged_blob_is_told(rt: HostRuntime) {
    let (rt, alloc) = (&rt, rt.alloc());
    let repo = repository(rt, alloc);
    let mut files = files_with(rt, alloc, HELLO, b"blob 6\0hallo\n");
    let snapshot = of_files(rt, alloc, &[("a", PLAIN_ID)]);
    let told = fault(rt, pointers(alloc, &mut files, &repo, &snapshot));
    is_damaged(rt, told, HELLO);
}

// Files with that many bytes at a blob's place, which are no object.
fn with_zeros(rt: &impl Abort, alloc: Global, count: usize) -> MemFiles {
    let bytes = vec![in alloc; 0_u8; count].expect(rt, "memory");
    files_with(rt, alloc, HELLO, bytes.as_slice())
}

// The longest file that is read has 8,202 bytes.
#[test]
fn large_files_are_passed_over(rt: HostRuntime) {
    let (rt, alloc) = (&rt, rt.alloc());
    let repo = repository(rt, alloc);
    let snapshot = of_files(rt, alloc, &[("a", PLAIN_ID)]);
    for count in [8203, 9000] {
        let mut files = with_zeros(rt, alloc, count);
        let found = pointers(alloc, &mut files, &repo, &snapshot).expect(rt, "passed over");
        are_at(rt, alloc, found.as_slice(), &[]);
    }
    let mut files = with_zeros(rt, alloc, 8202);
    let told = fault(rt, pointers(alloc, &mut files, &repo, &snapshot));
    is_damaged(rt, told, HELLO);
}

// Its length is the one thing that is asked of a large file: the second call on these files would fail.
#[test]
fn large_files_are_not_read(rt: HostRuntime) {
    let (rt, alloc) = (&rt, rt.alloc());
    let repo = repository(rt, alloc);
    let snapshot = of_files(rt, alloc, &[("a", PLAIN_ID)]);
    let mut files = with_zeros(rt, alloc, 9000);
    files.stop_at(2);
    let found = pointers(alloc, &mut files, &repo, &snapshot).expect(rt, "passed over");
    are_at(rt, alloc, found.as_slice(), &[]);
    is_device(rt, pointers(alloc, &mut files, &repo, &snapshot));
}

#[test]
fn places_too_long_for_blobs(rt: HostRuntime) {
    let (rt, alloc) = (&rt, rt.alloc());
    let repo = long_place(rt, alloc, 15, [102, 103]);
    let mut files = MemFiles::new(alloc);
    let snapshot = of_files(rt, alloc, &[("a", PLAIN_ID)]);
    let told = fault(rt, pointers(alloc, &mut files, &repo, &snapshot));
    is_too_large(rt, told, &repo, 4047);
    let found = pointers(alloc, &mut files, &repo, &of_files(rt, alloc, &[]));
    holds(rt, found.expect(rt, "read").is_empty(), "no files");
}
