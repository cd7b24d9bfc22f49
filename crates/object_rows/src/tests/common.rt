// Places, ids, objects, files in memory and refusals, of which the rows speak.
use faults::{Fault, Trouble};
use file_store::{Bytes, Files, MemFiles, Place};
use git_objects::{Id, ObjKind};
use object_store::NewObject;
use std::alloc::Global;
use std::process::Abort;

// `printf 'hello\n' | git hash-object --stdin`
pub(super) const HELLO: &str = "/r/.dlrepo/objects/ce/013625030ba8dba906f756967f9e9ca394464a";

// `git hash-object -t tree /dev/null`
pub(super) const NO_TREE: &str = "/r/.dlrepo/objects/4b/825dc642cb6eb9a060e54bf8d69288fbee4904";

pub(super) fn place(rt: &impl Abort, alloc: Global, text: &str) -> Place {
    Place::parse(alloc, text).expect(rt, "a place")
}

pub(super) fn repository(rt: &impl Abort, alloc: Global) -> Place {
    place(rt, alloc, "/r/.dlrepo")
}

pub(super) fn id(rt: &impl Abort, hex: &[u8]) -> Id {
    Id::from_hex(hex).expect(rt, "an id")
}

// What has to hold of that text.
pub(super) fn holds(rt: &impl Abort, is: bool, at: &str) {
    assert!(rt; is, "at {at}");
}

pub(super) fn is_text(rt: &impl Abort, got: &str, want: &str) {
    assert_eq!(rt; got, want);
}

pub(super) fn is_size(rt: &impl Abort, got: usize, want: usize) {
    assert_eq!(rt; got, want);
}

pub(super) fn are_bytes(rt: &impl Abort, got: &[u8], want: &[u8]) {
    assert_eq!(rt; got, want);
}

fn object(rt: &impl Abort, alloc: Global, kind: ObjKind, body: &[u8]) -> NewObject {
    let body = Bytes::new(body.to_vec(alloc).expect(rt, "memory"));
    NewObject { kind, body }
}

// A blob of git's and its empty tree.
pub(super) fn two_objects(rt: &impl Abort, alloc: Global) -> Vec<NewObject> {
    let mut objects = Vec::new(alloc);
    let blob = object(rt, alloc, ObjKind::Blob, b"hello\n");
    objects.push(blob).expect(rt, "memory");
    let tree = object(rt, alloc, ObjKind::Tree, b"");
    objects.push(tree).expect(rt, "memory");
    objects
}

// The two, and the blob once more.
pub(super) fn with_a_repeat(rt: &impl Abort, alloc: Global) -> Vec<NewObject> {
    let mut objects = two_objects(rt, alloc);
    let blob = object(rt, alloc, ObjKind::Blob, b"hello\n");
    objects.push(blob).expect(rt, "memory");
    objects
}

// Files in memory with one file.
pub(super) fn files_with(rt: &impl Abort, alloc: Global, text: &str, bytes: &[u8]) -> MemFiles {
    let mut list = Vec::new(alloc);
    let file = (
        place(rt, alloc, text),
        bytes.to_vec(alloc).expect(rt, "memory"),
    );
    list.push(file).expect(rt, "memory");
    MemFiles::from_list(alloc, list).expect(rt, "files")
}

pub(super) fn has(rt: &impl Abort, alloc: Global, files: &mut MemFiles, text: &str, bytes: &[u8]) {
    let found = files
        .read(alloc, &place(rt, alloc, text))
        .expect(rt, "read");
    are_bytes(rt, found.expect(rt, "a file").as_slice(), bytes);
}

pub(super) fn has_count(rt: &impl Abort, alloc: Global, files: &MemFiles, want: usize) {
    let list = files.to_list(alloc).expect(rt, "a list");
    is_size(rt, list.len(), want);
}

// A name of that length after a slash.
fn push_name(rt: &impl Abort, text: &mut String, length: usize) {
    text.push_str("/").expect(rt, "memory");
    for _ in 0..length {
        text.push_str("n").expect(rt, "memory");
    }
}

// A place with that many names of 255 bytes, and two more of those lengths.
pub(super) fn long_place(rt: &impl Abort, alloc: Global, names: usize, last: [usize; 2]) -> Place {
    let mut text = String::new(alloc);
    for _ in 0..names {
        push_name(rt, &mut text, 255);
    }
    push_name(rt, &mut text, last[0]);
    push_name(rt, &mut text, last[1]);
    place(rt, alloc, text.as_str())
}

// The fault of a refusal.
pub(super) fn fault<T: Drop>(rt: &impl Abort, end: Result<T, Trouble>) -> Fault {
    match end {
        Err(Trouble::Refused(fault)) => fault,
        _ => rt.abort(),
    }
}

pub(super) fn is_device<T: Drop>(rt: &impl Abort, end: Result<T, Trouble>) {
    match end {
        Err(Trouble::Device) => {}
        _ => rt.abort(),
    }
}

pub(super) fn is_damaged(rt: &impl Abort, fault: Fault, text: &str) {
    match fault {
        Fault::Damaged { place } => is_text(rt, place.as_str(), text),
        _ => rt.abort(),
    }
}

pub(super) fn is_blocked(rt: &impl Abort, fault: Fault, text: &str) {
    match fault {
        Fault::Blocked { place } => is_text(rt, place.as_str(), text),
        _ => rt.abort(),
    }
}

fn is_place_of(rt: &impl Abort, path: &str, told: u64, place: &Place, size: u64) {
    is_text(rt, path, place.as_str());
    assert_eq!(rt; told, size);
}

pub(super) fn is_too_large(rt: &impl Abort, fault: Fault, place: &Place, size: u64) {
    match fault {
        Fault::TooLarge { path, size: told } => is_place_of(rt, path.as_str(), told, place, size),
        _ => rt.abort(),
    }
}

pub(super) fn is_missing(rt: &impl Abort, fault: Fault, hex: &[u8]) {
    match fault {
        Fault::Missing { id } => are_bytes(rt, Id(id).to_hex().as_slice(), hex),
        _ => rt.abort(),
    }
}
