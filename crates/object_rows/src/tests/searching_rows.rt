// Objects that are searched by the first digits of their ids.
use super::common::{
    HELLO, NO_TREE, are_bytes, fault, is_device, is_size, is_too_large, long_place, place,
    repository,
};
use file_store::{MemFiles, Place};
use git_objects::Id;
use object_store::ids_with_prefix;
use std::alloc::Global;
use std::process::Abort;

// Three objects, of which two share four digits.
const PREFIXED: [(&str, &str); 3] = [
    ("ce013625030ba8dba906f756967f9e9ca394464a", HELLO),
    (
        "ce0137ffffffffffffffffffffffffffffffffff",
        "/r/.dlrepo/objects/ce/0137ffffffffffffffffffffffffffffffffff",
    ),
    ("4b825dc642cb6eb9a060e54bf8d69288fbee4904", NO_TREE),
];

// What is no object's file: other names, other directories, and a directory under an object's name.
const NO_OBJECTS: [&str; 6] = [
    "/r/.dlrepo/objects/ce/0137FFFFFFFFFFFFFFFFFFFFFFFFFFFFFFFFFF",
    "/r/.dlrepo/objects/ce/0138ffffffffffffffffffffffffffffffffff/x",
    "/r/.dlrepo/objects/ce/01380000000000000000000000000000000000.lock",
    "/r/.dlrepo/objects/ce/0138",
    "/r/.dlrepo/objects/c/e0138fffffffffffffffffffffffffffffffffff",
    "/r/.dlrepo/objects/CE/013625030ba8dba906f756967f9e9ca394464a",
];

// The digits, and which of the objects are found, ascending.
const SEARCHES: [(&str, &[usize]); 11] = [
    ("ce01", &[0, 1]),
    ("ce0136", &[0]),
    ("ce013625030ba8dba906f756967f9e9ca394464a", &[0]),
    ("c", &[0, 1]),
    ("4", &[2]),
    ("", &[2, 0, 1]),
    ("ce0138", &[]),
    ("ce1", &[]),
    ("CE01", &[]),
    ("x", &[]),
    ("ce013625030ba8dba906f756967f9e9ca394464a0", &[]),
];

fn push_file(rt: &impl Abort, alloc: Global, list: &mut Vec<(Place, Vec<u8>)>, text: &str) {
    let file = (place(rt, alloc, text), Vec::new(alloc));
    list.push(file).expect(rt, "memory");
}

fn searched_files(rt: &impl Abort, alloc: Global) -> MemFiles {
    let mut list = Vec::new(alloc);
    for (_, text) in PREFIXED {
        push_file(rt, alloc, &mut list, text);
    }
    for text in NO_OBJECTS {
        push_file(rt, alloc, &mut list, text);
    }
    MemFiles::from_list(alloc, list).expect(rt, "files")
}

// Each of the ids is the object with that index.
fn are_those(rt: &impl Abort, found: &[Id], expected: &[usize]) {
    is_size(rt, found.len(), expected.len());
    for (id, index) in found.iter().zip(expected) {
        let (hex, _) = PREFIXED.get(*index).expect(rt, "an object");
        are_bytes(rt, id.to_hex().as_slice(), hex.as_bytes());
    }
}

#[test]
fn prefixes_are_searched(rt: HostRuntime) {
    let alloc = rt.alloc();
    let repo = repository(&rt, alloc);
    let mut files = searched_files(&rt, alloc);
    for (digits, expected) in SEARCHES {
        let found = ids_with_prefix(alloc, &mut files, &repo, digits);
        are_those(&rt, found.expect(&rt, "ids").as_slice(), expected);
    }
}

#[test]
fn one_directory_is_listed(rt: HostRuntime) {
    let alloc = rt.alloc();
    let repo = repository(&rt, alloc);
    let mut files = searched_files(&rt, alloc);
    files.stop_at(2);
    let found = ids_with_prefix(alloc, &mut files, &repo, "ce01");
    is_size(&rt, found.expect(&rt, "ids").len(), 2);
    let found = ids_with_prefix(alloc, &mut files, &repo, "CE01");
    is_size(&rt, found.expect(&rt, "ids").len(), 0);
    is_device(&rt, ids_with_prefix(alloc, &mut files, &repo, "ce"));
}

#[test]
fn a_repository_too_long(rt: HostRuntime) {
    let alloc = rt.alloc();
    let mut files = MemFiles::new(alloc);
    let repo = long_place(&rt, alloc, 14, [255, 206]);
    let told = fault(&rt, ids_with_prefix(alloc, &mut files, &repo, "ce01"));
    is_too_large(&rt, told, &repo, 4047);
}
