// What only the host has: links, directories without entries, files that are gone.
use super::common::{at, fails, folder, has, host_files, is, is_refused, lists, moves, put, sync};
use file_store::{Files, Kind, Place};
use std::alloc::Global;
use std::fs;
use std::os::unix;
use std::process::Abort;
use std::test::Fail;

// That nothing goes through the link.
fn is_not_followed<F: Files>(rt: &impl Abort, alloc: Global, files: &mut F, link: &Place) {
    is(rt, alloc, files, link, Kind::Other);
    is_refused(rt, files.read(alloc, link), link);
    is_refused(rt, files.write(alloc, link, b"lost"), link);
    is_refused(rt, files.append(alloc, link, b"lost"), link);
    lists(rt, alloc, files, link, 0);
}

// The same of a link beside a file, which doesn't move there.
fn stays_beside<F: Files>(rt: &impl Abort, alloc: Global, root: &Place, files: &mut F) {
    let file = at(rt, alloc, root, "d/file");
    let link = at(rt, alloc, root, "link");
    is_not_followed(rt, alloc, files, &link);
    is_refused(rt, files.rename(alloc, &file, &link), &link);
    has(rt, alloc, files, &file, b"kept");
    lists(rt, alloc, files, root, 2);
    sync(rt, alloc, files);
}

#[test]
fn links_are_not_followed(rt: HostRuntime) -> Result<(), Fail> {
    let alloc = rt.alloc();
    let (root, mut files) = (folder(&rt)?, host_files(&rt)?);
    let link = at(&rt, alloc, &root, "link");
    put(
        &rt,
        alloc,
        &mut files,
        &at(&rt, alloc, &root, "d/file"),
        b"kept",
    );
    for target in ["d/file", "d", "nowhere"] {
        unix::fs::symlink(&rt, target, link.as_str())?;
        stays_beside(&rt, alloc, &root, &mut files);
        fs::remove_file(&rt, link.as_str())?;
    }
    Ok(fs::remove_dir_all(&rt, root.as_str())?)
}

// In a folder with two others, each without entries.
fn takes_their_places<F: Files>(rt: &impl Abort, alloc: Global, root: &Place, files: &mut F) {
    let first = at(rt, alloc, root, "one");
    let second = at(rt, alloc, root, "two");
    is(rt, alloc, files, &first, Kind::Absent);
    lists(rt, alloc, files, root, 0);
    put(rt, alloc, files, &first, b"text");
    moves(rt, alloc, files, (&first, &second));
    sync(rt, alloc, files);
    has(rt, alloc, files, &second, b"text");

    // a directory isn't moved, nor what isn't there
    is_refused(rt, files.rename(alloc, root, &first), root);
    is_refused(rt, files.rename(alloc, &first, &second), &first);
}

#[test]
fn empty_directories_are_nothing(rt: HostRuntime) -> Result<(), Fail> {
    let alloc = rt.alloc();
    let (root, mut files) = (folder(&rt)?, host_files(&rt)?);
    for name in ["one", "two"] {
        fs::create_dir(&rt, at(&rt, alloc, &root, name).as_str())?;
    }
    takes_their_places(&rt, alloc, &root, &mut files);
    Ok(fs::remove_dir_all(&rt, root.as_str())?)
}

fn longest(rt: &impl Abort, alloc: Global) -> String {
    let mut text = String::new(alloc);
    for at in 0..4096 {
        let next = if at % 256 == 0 { '/' } else { 'n' };
        text.push(next).expect(rt, "memory");
    }
    text
}

// The host's paths end with a NUL, which counts: a place of 4,096 bytes can't be looked at.
#[test]
fn the_longest_place(rt: HostRuntime) -> Result<(), Fail> {
    let alloc = rt.alloc();
    let mut files = host_files(&rt)?;
    let longest = Place::parse(alloc, longest(&rt, alloc).as_str()).expect(&rt, "a place");
    fails(&rt, files.kind(alloc, &longest), &longest);
    Ok(())
}

#[test]
fn a_barrier_misses_what_is_gone(rt: HostRuntime) -> Result<(), Fail> {
    let alloc = rt.alloc();
    let (root, mut files) = (folder(&rt)?, host_files(&rt)?);
    let file = at(&rt, alloc, &root, "file");
    put(&rt, alloc, &mut files, &file, b"text");
    fs::remove_file(&rt, file.as_str())?;
    fails(&rt, files.barrier(alloc), &file);

    // what a failed one lost doesn't come back
    put(&rt, alloc, &mut files, &file, b"text");
    fails(&rt, files.barrier(alloc), &file);
    Ok(fs::remove_dir_all(&rt, root.as_str())?)
}
