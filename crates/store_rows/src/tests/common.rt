// Places, files in memory and refusals, of which the rows speak.
use faults::{Fault, Trouble};
use file_store::{Files, MemFiles, Place};
use git_objects::Id;
use std::alloc::Global;
use std::process::Abort;

/// Where a file stands, and its bytes.
pub(super) type File<'a> = (&'a str, &'a [u8]);

pub(super) fn place(rt: &impl Abort, alloc: Global, text: &str) -> Place {
    Place::parse(alloc, text).expect(rt, "a place")
}

pub(super) fn id(rt: &impl Abort, hex: &[u8]) -> Id {
    Id::from_hex(hex).expect(rt, "an id")
}

pub(super) fn is_text(rt: &impl Abort, got: &str, want: &str) {
    assert_eq!(rt; got, want);
}

// What has to hold of that text.
pub(super) fn holds(rt: &impl Abort, is: bool, at: &str) {
    assert!(rt; is, "at {at}");
}

pub(super) fn are_bytes(rt: &impl Abort, got: &[u8], want: &[u8]) {
    assert_eq!(rt; got, want);
}

pub(super) fn is_size(rt: &impl Abort, got: usize, want: usize) {
    assert_eq!(rt; got, want);
}

pub(super) fn bytes(rt: &impl Abort, alloc: Global, value: &[u8]) -> Vec<u8> {
    value.to_vec(alloc).expect(rt, "memory")
}

pub(super) fn list_of(rt: &impl Abort, alloc: Global, rows: &[File<'_>]) -> Vec<(Place, Vec<u8>)> {
    let mut list = Vec::new(alloc);
    for row in rows {
        let file = (place(rt, alloc, row.0), bytes(rt, alloc, row.1));
        list.push(file).expect(rt, "memory");
    }
    list
}

// Files in memory, all of them safe.
pub(super) fn memory_of(rt: &impl Abort, alloc: Global, rows: &[File<'_>]) -> MemFiles {
    MemFiles::from_list(alloc, list_of(rt, alloc, rows)).expect(rt, "a ground")
}

pub(super) fn put(rt: &impl Abort, alloc: Global, files: &mut MemFiles, text: &str, bytes: &[u8]) {
    let written = files.write(alloc, &place(rt, alloc, text), bytes);
    written.expect(rt, "written");
}

// The fault of a refusal.
pub(super) fn fault<T: Drop>(rt: &impl Abort, end: Result<T, Trouble>) -> Fault {
    match end {
        Err(Trouble::Refused(fault)) => fault,
        _ => rt.abort(),
    }
}
