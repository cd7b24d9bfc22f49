// Calls of files in memory: that they succeed, and worked examples of those that fail.
use super::common::{are_bytes, holds, is_size, is_text, place, put};
use file_store::{FileErr, Files, Item, Kind, MemFiles};
use std::alloc::Global;
use std::process::Abort;

fn has(rt: &impl Abort, alloc: Global, files: &mut MemFiles, text: &str, bytes: &[u8]) {
    let found = files
        .read(alloc, &place(rt, alloc, text))
        .expect(rt, "read");
    are_bytes(rt, found.expect(rt, "a file").as_slice(), bytes);
}

fn is_kind(rt: &impl Abort, alloc: Global, files: &mut MemFiles, text: &str, kind: Kind) {
    let found = files
        .kind(alloc, &place(rt, alloc, text))
        .expect(rt, "kind");
    holds(rt, found == kind, text);
}

fn adds(rt: &impl Abort, alloc: Global, files: &mut MemFiles, text: &str, bytes: &[u8]) {
    let added = files.append(alloc, &place(rt, alloc, text), bytes);
    added.expect(rt, "append");
}

// What is read of a file from there on, at most eight bytes.
fn has_part(rt: &impl Abort, alloc: Global, files: &mut MemFiles, from: u64, want: &[u8]) {
    let mut buffer = [0; 8];
    let part = files.read_part(alloc, &place(rt, alloc, "/d/a"), from, &mut buffer);
    is_size(rt, part.expect(rt, "part"), want.len());
    holds(rt, buffer.starts_with(want), "a part");
}

fn has_size(rt: &impl Abort, alloc: Global, files: &mut MemFiles, text: &str, size: u64) {
    let found = files.size(alloc, &place(rt, alloc, text));
    holds(rt, found.expect(rt, "size") == Some(size), text);
}

#[test]
fn reads_and_writes(rt: HostRuntime) {
    let (rt, alloc) = (&rt, rt.alloc());
    let mut files = MemFiles::new(alloc);
    put(rt, alloc, &mut files, "/d/a", b"hello\n");
    has(rt, alloc, &mut files, "/d/a", b"hello\n");
    has_size(rt, alloc, &mut files, "/d/a", 6);
    has_part(rt, alloc, &mut files, 4, b"o\n");
    has_part(rt, alloc, &mut files, 7, b"");
    adds(rt, alloc, &mut files, "/d/a", b"more");
    has(rt, alloc, &mut files, "/d/a", b"hello\nmore");
    adds(rt, alloc, &mut files, "/d/n", b"new");
    has(rt, alloc, &mut files, "/d/n", b"new");
    is_kind(rt, alloc, &mut files, "/d", Kind::Dir);
    is_kind(rt, alloc, &mut files, "/d/a", Kind::File);
    is_kind(rt, alloc, &mut files, "/d/b", Kind::Absent);
}

fn is_item(rt: &impl Abort, item: &Item, name: &str, kind: Kind) {
    is_text(rt, item.name.as_str(), name);
    holds(rt, item.kind == kind, name);
}

#[test]
fn lists(rt: HostRuntime) {
    let (rt, alloc) = (&rt, rt.alloc());
    let mut files = MemFiles::new(alloc);
    for path in ["/l/a-b", "/l/a/c", "/l/a/d", "/l/b"] {
        put(rt, alloc, &mut files, path, b"1");
    }
    let items = files
        .list(alloc, &place(rt, alloc, "/l"))
        .expect(rt, "list");
    is_size(rt, items.len(), 3);
    let listed = [("a", Kind::Dir), ("a-b", Kind::File), ("b", Kind::File)];
    for (item, (name, kind)) in items.iter().zip(listed) {
        is_item(rt, item, name, kind);
    }
}

fn moves(rt: &impl Abort, alloc: Global, files: &mut MemFiles, is: bool) {
    let (from, to) = (place(rt, alloc, "/l/b"), place(rt, alloc, "/l/c"));
    let moved = files.rename(alloc, &from, &to).expect(rt, "rename");
    holds(rt, moved == is, "/l/b");
}

fn removes(rt: &impl Abort, alloc: Global, files: &mut MemFiles, is: bool) {
    let gone = files.remove(alloc, &place(rt, alloc, "/l/c"));
    holds(rt, gone.expect(rt, "remove") == is, "/l/c");
}

#[test]
fn moves_and_removes(rt: HostRuntime) {
    let (rt, alloc) = (&rt, rt.alloc());
    let mut files = MemFiles::new(alloc);
    put(rt, alloc, &mut files, "/l/b", b"4");
    moves(rt, alloc, &mut files, true);
    has(rt, alloc, &mut files, "/l/c", b"4");
    is_kind(rt, alloc, &mut files, "/l/b", Kind::Absent);
    moves(rt, alloc, &mut files, false);
    has(rt, alloc, &mut files, "/l/c", b"4");
    files.barrier(alloc).expect(rt, "barrier");
    removes(rt, alloc, &mut files, true);
    removes(rt, alloc, &mut files, false);
    is_kind(rt, alloc, &mut files, "/l/c", Kind::Absent);
}

fn is_blocked(rt: &impl Abort, put: Result<(), FileErr>, at: &str) {
    match put {
        Err(FileErr::Blocked { place }) => is_text(rt, place.as_str(), at),
        _ => rt.abort(),
    }
}

#[test]
fn is_blocked_above_and_below(rt: HostRuntime) {
    let (rt, alloc) = (&rt, rt.alloc());
    let mut files = MemFiles::new(alloc);
    put(rt, alloc, &mut files, "/a/b", b"1");
    let above = files.write(alloc, &place(rt, alloc, "/a"), b"2");
    is_blocked(rt, above, "/a");
    let below = files.append(alloc, &place(rt, alloc, "/a/b/c"), b"2");
    is_blocked(rt, below, "/a/b/c");
}

fn fails<T: Drop>(rt: &impl Abort, end: Result<T, FileErr>) {
    holds(rt, matches!(&end, Err(FileErr::Failed)), "a failure");
}

fn fails_to_write(rt: &impl Abort, alloc: Global, files: &mut MemFiles, bytes: &[u8]) {
    fails(rt, files.write(alloc, &place(rt, alloc, "/a"), bytes));
}

#[test]
fn fails_after_its_effect(rt: HostRuntime) {
    let (rt, alloc) = (&rt, rt.alloc());
    let mut files = MemFiles::new(alloc);
    let first = [1].to_vec(alloc).expect(rt, "memory");
    files.fail_at(Vec::new(alloc), first);
    fails_to_write(rt, alloc, &mut files, b"1");
    has(rt, alloc, &mut files, "/a", b"1");
}

#[test]
fn stops_at_a_call(rt: HostRuntime) {
    let (rt, alloc) = (&rt, rt.alloc());
    let mut files = MemFiles::new(alloc);
    files.stop_at(2);
    put(rt, alloc, &mut files, "/a", b"1");
    fails_to_write(rt, alloc, &mut files, b"2");
    fails(rt, files.kind(alloc, &place(rt, alloc, "/a")));
    holds(rt, files.calls() == 3, "three calls");
}
