// `create` is stopped at each of its calls of the files, and a crash follows.
use super::calls::says;
use super::courses::{is_along, lies_along};
use super::create::DATASET;
use super::devices::{CALLS, FAILED};
use super::files::File;
use file_store::MemFiles;
use std::alloc::Global;
use std::process::Abort;

// Objects come first, then what only HEAD makes a dataset of, HEAD last.
fn round_of(place: &str) -> usize {
    if place.contains("/objects/") {
        1
    } else if place.ends_with("/HEAD") {
        3
    } else {
        2
    }
}

// What stands after so many rounds.
fn ground_after(rt: &impl Abort, alloc: Global, rounds: usize) -> Vec<File<'static>> {
    let mut ground = Vec::new(alloc);
    for file in &DATASET {
        if round_of(file.place) <= rounds {
            ground.push(*file).expect(rt, "memory");
        }
    }
    ground
}

fn course_of_create(rt: &impl Abort, alloc: Global) -> Vec<Vec<File<'static>>> {
    let mut course = Vec::new(alloc);
    for rounds in 0..4 {
        course
            .push(ground_after(rt, alloc, rounds))
            .expect(rt, "memory");
    }
    course
}

#[test]
fn create_is_stopped(rt: HostRuntime) {
    let alloc = rt.alloc();
    let course = course_of_create(&rt, alloc);
    for stop in 1..=CALLS {
        let mut files = MemFiles::new(alloc);
        files.stop_at(stop);
        says(&rt, alloc, &mut files, &FAILED);
        is_along(&rt, alloc, &files, course.as_slice());
    }
}

fn lies_along_create(rt: &impl Abort, alloc: Global, files: &[File<'_>]) -> bool {
    lies_along(files, course_of_create(rt, alloc).as_slice())
}

// Files that no stop of `create` leaves.
#[test]
fn no_course_of_create(rt: HostRuntime) {
    let alloc = rt.alloc();
    let [config, head, settings, ..] = DATASET;
    let other = File {
        place: config.place,
        bytes: b"x",
    };
    for files in [
        [head].as_slice(),
        &[config],
        &[head, settings],
        &[other],
        &DATASET[..8],
    ] {
        assert!(rt; !lies_along_create(&rt, alloc, files));
    }
    assert!(rt; lies_along_create(&rt, alloc, &DATASET));
}
