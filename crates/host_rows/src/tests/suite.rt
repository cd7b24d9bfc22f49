// One suite: what files do below a place at which nothing is, those of the host as those in memory.
use super::common::{at, has, holds, host_files, is, lists, moves, put, scratch, sync};
use file_store::{Files, Item, Kind, MemFiles, Place};
use std::alloc::Global;
use std::process::Abort;
use std::test::Fail;

fn has_size<F: Files>(
    rt: &impl Abort,
    alloc: Global,
    files: &mut F,
    place: &Place,
    wanted: Option<u64>,
) {
    let size = files.size(alloc, place).expect(rt, "a size");
    holds(rt, size == wanted, place);
}

fn adds<F: Files>(rt: &impl Abort, alloc: Global, files: &mut F, place: &Place, bytes: &[u8]) {
    files.append(alloc, place, bytes).expect(rt, "more");
}

fn reads_and_writes<F: Files>(rt: &impl Abort, alloc: Global, root: &Place, files: &mut F) {
    let first = at(rt, alloc, root, "a/one");
    is(rt, alloc, files, root, Kind::Absent);
    let none = files.read(alloc, &first).expect(rt, "an answer");
    holds(rt, none.is_none(), &first);
    put(rt, alloc, files, &first, b"a long text\n");
    put(rt, alloc, files, &first, b"hel");
    adds(rt, alloc, files, &first, b"lo\n");
    sync(rt, alloc, files);
    has(rt, alloc, files, &first, b"hello\n");
    is(rt, alloc, files, root, Kind::Dir);
    has_size(rt, alloc, files, &first, Some(6));
    has_size(rt, alloc, files, root, None);
}

fn has_part<F: Files>(
    rt: &impl Abort,
    alloc: Global,
    files: &mut F,
    place: &Place,
    from: u64,
    wanted: &[u8],
) {
    let mut buffer = [0u8; 8];
    let part = files.read_part(alloc, place, from, &mut buffer);
    holds(rt, part.expect(rt, "a part") == wanted.len(), place);
    holds(rt, buffer.starts_with(wanted), place);
}

fn reads_parts<F: Files>(rt: &impl Abort, alloc: Global, root: &Place, files: &mut F) {
    let first = at(rt, alloc, root, "a/one");
    has_part(rt, alloc, files, &first, 0, b"hello\n");
    has_part(rt, alloc, files, &first, 4, b"o\n");
    for from in [6, 7, u64::MAX] {
        has_part(rt, alloc, files, &first, from, b"");
    }
}

// One item is listed: the file `two`.
fn is_two(rt: &impl Abort, items: &[Item], folder: &Place) {
    match items {
        [item] => {
            holds(rt, item.name.as_str() == "two", folder);
            holds(rt, item.kind == Kind::File, folder);
        }
        _ => rt.abort(),
    }
}

fn moves_and_lists<F: Files>(rt: &impl Abort, alloc: Global, root: &Place, files: &mut F) {
    let first = at(rt, alloc, root, "a/one");
    let second = at(rt, alloc, root, "a/two");
    adds(rt, alloc, files, &first, b"more\n");
    moves(rt, alloc, files, (&first, &second));
    sync(rt, alloc, files);
    has(rt, alloc, files, &second, b"hello\nmore\n");
    is(rt, alloc, files, &first, Kind::Absent);
    lists(rt, alloc, files, &first, 0);
    lists(rt, alloc, files, &second, 0);
    let folder = at(rt, alloc, root, "a");
    let items = files.list(alloc, &folder).expect(rt, "a listing");
    is_two(rt, items.as_slice(), &folder);
}

fn removes<F: Files>(rt: &impl Abort, alloc: Global, root: &Place, files: &mut F) {
    let second = at(rt, alloc, root, "a/two");
    put(rt, alloc, files, &second, b"not safe yet");
    holds(
        rt,
        files.remove(alloc, &second).expect(rt, "an answer"),
        &second,
    );
    holds(
        rt,
        !files.remove(alloc, &second).expect(rt, "an answer"),
        &second,
    );
    sync(rt, alloc, files);
    is(rt, alloc, files, root, Kind::Absent);
}

fn passes_all<F: Files>(rt: &impl Abort, alloc: Global, root: &Place, files: &mut F) {
    reads_and_writes(rt, alloc, root, files);
    reads_parts(rt, alloc, root, files);
    moves_and_lists(rt, alloc, root, files);
    removes(rt, alloc, root, files);
}

#[test]
fn files_of_a_folder(rt: HostRuntime) -> Result<(), Fail> {
    let (root, mut files) = (scratch(&rt)?, host_files(&rt)?);
    passes_all(&rt, rt.alloc(), &root, &mut files);
    Ok(())
}

#[test]
fn files_in_memory(rt: HostRuntime) -> Result<(), Fail> {
    let root = scratch(&rt)?;
    passes_all(&rt, rt.alloc(), &root, &mut MemFiles::new(rt.alloc()));
    Ok(())
}
