// Files in memory made of lists, and given as one.
use super::common::{File, are_bytes, is_size, is_text, list_of, memory_of};
use file_store::{MemErr, MemFiles, Place};
use std::alloc::Global;
use std::process::Abort;

fn is_file(rt: &impl Abort, file: &(Place, Vec<u8>), text: &str) {
    is_text(rt, file.0.as_str(), text);
    are_bytes(rt, file.1.as_slice(), text.as_bytes());
}

#[test]
fn comes_of_a_list(rt: HostRuntime) {
    let (rt, alloc) = (&rt, rt.alloc());
    let rows: [File<'_>; 3] = [("/b", b"/b"), ("/a/b", b"/a/b"), ("/a-b", b"/a-b")];
    let back = memory_of(rt, alloc, &rows)
        .to_list(alloc)
        .expect(rt, "a list");
    is_size(rt, back.len(), 3);
    for (file, text) in back.iter().zip(&["/a-b", "/a/b", "/b"]) {
        is_file(rt, file, text);
    }
}

fn clashes_at(rt: &impl Abort, alloc: Global, rows: &[File<'_>], at: &str) {
    match MemFiles::from_list(alloc, list_of(rt, alloc, rows)) {
        Err(MemErr::Clash { place }) => is_text(rt, place.as_str(), at),
        _ => rt.abort(),
    }
}

#[test]
fn clashes(rt: HostRuntime) {
    let (rt, alloc) = (&rt, rt.alloc());
    clashes_at(rt, alloc, &[("/a", b"1"), ("/a/b", b"2")], "/a/b");
    clashes_at(
        rt,
        alloc,
        &[("/a/b", b"1"), ("/c", b"2"), ("/a", b"3")],
        "/a",
    );
    clashes_at(
        rt,
        alloc,
        &[("/a", b"1"), ("/b", b"2"), ("/a", b"3"), ("/b/c", b"4")],
        "/a",
    );
}
