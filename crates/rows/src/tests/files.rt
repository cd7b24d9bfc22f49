// Files in memory beside lists of files.
use super::calls::place;
use file_store::{MemFiles, Place};
use std::alloc::Global;
use std::process::Abort;

/// A file of a list.
#[derive(Clone, Copy)]
pub(super) struct File<'a> {
    pub(super) place: &'a str,
    pub(super) bytes: &'a [u8],
}

fn pair(rt: &impl Abort, alloc: Global, row: &File<'_>) -> (Place, Vec<u8>) {
    let bytes = row.bytes.to_vec(alloc).expect(rt, "memory");
    (place(rt, alloc, row.place), bytes)
}

// Files in memory, all of them safe.
pub(super) fn memory_of(rt: &impl Abort, alloc: Global, rows: &[File<'_>]) -> MemFiles {
    let mut list = Vec::new(alloc);
    for row in rows {
        list.push(pair(rt, alloc, row)).expect(rt, "memory");
    }
    MemFiles::from_list(alloc, list).expect(rt, "a ground")
}

// What stands, in byte order of the places.
pub(super) fn list_of(rt: &impl Abort, alloc: Global, files: &MemFiles) -> Vec<(Place, Vec<u8>)> {
    files.to_list(alloc).expect(rt, "memory")
}

pub(super) fn rows_of<'a>(
    rt: &impl Abort,
    alloc: Global,
    list: &'a [(Place, Vec<u8>)],
) -> Vec<File<'a>> {
    let mut rows = Vec::new(alloc);
    for file in list {
        let row = File {
            place: file.0.as_str(),
            bytes: file.1.as_slice(),
        };
        rows.push(row).expect(rt, "memory");
    }
    rows
}

pub(super) fn count_of(rt: &impl Abort, alloc: Global, files: &MemFiles) -> usize {
    list_of(rt, alloc, files).len()
}

pub(super) fn is_count(rt: &impl Abort, got: usize, want: usize) {
    assert_eq!(rt; got, want);
}

fn is_file(rt: &impl Abort, place: &Place, bytes: &[u8], row: &File<'_>) {
    assert_eq!(rt; place.as_str(), row.place);
    assert!(rt; bytes == row.bytes, "{}", row.place);
}

// These files and no others stand.
pub(super) fn holds(rt: &impl Abort, alloc: Global, files: &MemFiles, rows: &[File<'_>]) {
    let list = list_of(rt, alloc, files);
    is_count(rt, list.len(), rows.len());
    for (file, row) in list.iter().zip(rows) {
        is_file(rt, &file.0, file.1.as_slice(), row);
    }
}
