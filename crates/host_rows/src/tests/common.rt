// A folder of its own for each row, and what files are asked there.
use file_store::{FileErr, Files, Kind, Place};
use host_edge::HostFiles;
use std::alloc::Global;
use std::process::Abort;
use std::random::RandomSource;
use std::test::Fail;
use std::{env, fs};

// A place of its own below the folder for temporary files.
pub(super) fn scratch(rt: &HostRuntime) -> Result<Place, Fail> {
    let mut bytes = [0u8; 8];
    rt.fill_bytes(&mut bytes)?;
    let number = u64::from_le_bytes(bytes);
    let folder = env::temp_dir(rt)?;
    let folder = folder.as_path().to_str().ok_or("folder")?;
    let text = format!(in rt.alloc(); "{folder}/host_rows_{number}")?;
    Ok(Place::parse(rt.alloc(), text.as_str())?)
}

// The files of the host.
pub(super) fn host_files(rt: &HostRuntime) -> Result<HostFiles<HostRuntime>, Fail> {
    Ok(HostFiles::new(rt.alloc(), rt.clone()?))
}

// A new folder.
pub(super) fn folder(rt: &HostRuntime) -> Result<Place, Fail> {
    let root = scratch(rt)?;
    fs::create_dir(rt, root.as_str())?;
    Ok(root)
}

// What has to hold of a place.
pub(super) fn holds(rt: &impl Abort, is: bool, at: &Place) {
    assert!(rt; is, "at {}", at.as_str());
}

pub(super) fn are_bytes(rt: &impl Abort, got: &[u8], wanted: &[u8]) {
    assert_eq!(rt; got, wanted);
}

pub(super) fn at(rt: &impl Abort, alloc: Global, root: &Place, path: &str) -> Place {
    root.join(alloc, path).expect(rt, "a place")
}

pub(super) fn put<F: Files>(
    rt: &impl Abort,
    alloc: Global,
    files: &mut F,
    place: &Place,
    bytes: &[u8],
) {
    files.write(alloc, place, bytes).expect(rt, "a write");
}

pub(super) fn sync<F: Files>(rt: &impl Abort, alloc: Global, files: &mut F) {
    files.barrier(alloc).expect(rt, "a barrier");
}

// That a file with these bytes stands there.
pub(super) fn has<F: Files>(
    rt: &impl Abort,
    alloc: Global,
    files: &mut F,
    place: &Place,
    wanted: &[u8],
) {
    let found = files.read(alloc, place).expect(rt, "an answer");
    let bytes = found.expect(rt, "a file");
    are_bytes(rt, bytes.as_slice(), wanted);
}

pub(super) fn is<F: Files>(
    rt: &impl Abort,
    alloc: Global,
    files: &mut F,
    place: &Place,
    wanted: Kind,
) {
    let kind = files.kind(alloc, place).expect(rt, "a kind");
    holds(rt, kind == wanted, place);
}

// How many items are listed.
pub(super) fn lists<F: Files>(
    rt: &impl Abort,
    alloc: Global,
    files: &mut F,
    place: &Place,
    wanted: usize,
) {
    let items = files.list(alloc, place).expect(rt, "a listing");
    holds(rt, items.len() == wanted, place);
}

// That something moves.
pub(super) fn moves<F: Files>(
    rt: &impl Abort,
    alloc: Global,
    files: &mut F,
    places: (&Place, &Place),
) {
    let moved = files.rename(alloc, places.0, places.1);
    holds(rt, moved.expect(rt, "a move"), places.0);
}

pub(super) fn fails<T: Drop>(rt: &impl Abort, end: Result<T, FileErr>, at: &Place) {
    holds(rt, matches!(&end, Err(FileErr::Failed)), at);
}

pub(super) fn is_refused<T: Drop>(rt: &impl Abort, end: Result<T, FileErr>, at: &Place) {
    holds(rt, end.is_err(), at);
}
