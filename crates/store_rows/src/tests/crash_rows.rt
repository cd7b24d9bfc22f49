// What crashes leave of files in memory.
use super::common::{File, holds, is_size, is_text, memory_of, place, put};
use file_store::{FileErr, Files, MemFiles, Place, replace};
use std::alloc::Global;
use std::process::Abort;

// A file with these bytes stands there, or none does.
fn stands(rt: &impl Abort, alloc: Global, files: &mut MemFiles, text: &str, bytes: Option<&[u8]>) {
    let found = files.read(alloc, &place(rt, alloc, text));
    let found = found.expect(rt, "read");
    match found {
        None => holds(rt, bytes.is_none(), text),
        Some(found) => holds(rt, bytes == Some(found.as_slice()), text),
    }
}

fn image(rt: &impl Abort, alloc: Global, files: &MemFiles, choices: &[u8]) -> MemFiles {
    let image = files.image(alloc, choices).expect(rt, "memory");
    image.expect(rt, "an image")
}

// What a crash leaves by the choices has these bytes there, or no file.
fn leaves(
    rt: &impl Abort,
    alloc: Global,
    files: &MemFiles,
    choices: &[u8],
    text: &str,
    bytes: Option<&[u8]>,
) {
    let mut image = image(rt, alloc, files, choices);
    stands(rt, alloc, &mut image, text, bytes);
}

const HEAD: &str = "/d/.dlrepo/HEAD";

const TMP: &str = "/d/.dlrepo/tmp/HEAD";

const OLD: File<'static> = (HEAD, b"old");

// A replacement of that file, which a crash stops.
fn is_stopped(rt: &impl Abort, alloc: Global, files: &mut MemFiles, bytes: &[u8]) {
    let head = place(rt, alloc, HEAD);
    let tmp = place(rt, alloc, TMP);
    assert!(rt; tmp != head);
    let stopped = replace(alloc, files, &tmp, &head, bytes);
    holds(rt, matches!(&stopped, Err(FileErr::Failed)), HEAD);
}

fn are_open(rt: &impl Abort, open: &[Place], texts: &[&str]) {
    is_size(rt, open.len(), texts.len());
    for (place, text) in open.iter().zip(texts) {
        is_text(rt, place.as_str(), text);
    }
}

#[test]
fn a_replacement(rt: HostRuntime) {
    let (rt, alloc) = (&rt, rt.alloc());
    let mut files = memory_of(rt, alloc, &[OLD]);
    files.stop_at(4);
    is_stopped(rt, alloc, &mut files, b"new");
    let open = files.open_places(alloc).expect(rt, "memory");
    are_open(rt, open.as_slice(), &[HEAD, TMP]);
    leaves(rt, alloc, &files, &[0], HEAD, Some(b"old"));
    leaves(rt, alloc, &files, &[1], HEAD, Some(b"new"));
}

#[test]
fn a_torn_file(rt: HostRuntime) {
    let (rt, alloc) = (&rt, rt.alloc());
    let mut files = MemFiles::new(alloc);
    put(rt, alloc, &mut files, "/a", b"hello");
    leaves(rt, alloc, &files, &[], "/a", None);
    leaves(rt, alloc, &files, &[0], "/a", None);
    leaves(rt, alloc, &files, &[1], "/a", Some(b"hello"));
    leaves(rt, alloc, &files, &[2], "/a", Some(b"he"));
    leaves(rt, alloc, &files, &[3], "/a", Some(b"\0\0"));
    leaves(rt, alloc, &files, &[4], "/a", Some(b"hello"));
}

#[test]
fn no_image_with_a_file_above_another(rt: HostRuntime) {
    let (rt, alloc) = (&rt, rt.alloc());
    let mut files = MemFiles::new(alloc);
    put(rt, alloc, &mut files, "/a", b"1");
    files.barrier(alloc).expect(rt, "barrier");
    let gone = files.remove(alloc, &place(rt, alloc, "/a"));
    holds(rt, gone.expect(rt, "remove"), "/a");
    put(rt, alloc, &mut files, "/a/b", b"2");
    let none = files.image(alloc, &[0, 1]).expect(rt, "memory");
    holds(rt, none.is_none(), "/a");
    leaves(rt, alloc, &files, &[0, 0], "/a", Some(b"1"));
    leaves(rt, alloc, &files, &[0, 0], "/a/b", None);
    leaves(rt, alloc, &files, &[2, 2], "/a", None);
    leaves(rt, alloc, &files, &[2, 2], "/a/b", Some(b""));
}
