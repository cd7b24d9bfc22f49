// `save` of an annexed file is stopped at each of its calls of the files, and a crash follows: the content stands before
// its log, both before the objects, all of them before the branch, and this before the index.
use super::annexed::{CONTENT, HELLO, INDEX, LOG, OBJECTS, SAVE, TIP};
use super::calls::Row;
use super::courses::is_along;
use super::create::DATASET;
use super::files::{File, memory_of};
use super::save_stops::with;
use super::saves::says_in;
use std::alloc::Global;
use std::process::Abort;

const CUT_OFF: Row<'static> = Row {
    words: "save -m a",
    code: 4,
    out: "",
    err: "datalad: a device failed\n",
};

// A ground with some files more.
fn more(
    rt: &impl Abort,
    alloc: Global,
    ground: &[File<'static>],
    new: &[File<'static>],
) -> Vec<File<'static>> {
    let mut files = Vec::new(alloc);
    for file in ground.iter().chain(new) {
        files.push(*file).expect(rt, "memory");
    }
    files
}

// What stands before the save; once its content is kept; its log set; its objects put; its branch set; and after it.
fn course_of_save(rt: &impl Abort, alloc: Global) -> [Vec<File<'static>>; 6] {
    let before = more(rt, alloc, &DATASET, &[HELLO]);
    let kept = more(rt, alloc, before.as_slice(), &[CONTENT]);
    let told = more(rt, alloc, kept.as_slice(), &[LOG]);
    let put = more(rt, alloc, told.as_slice(), &OBJECTS);
    let set = with(rt, alloc, put.as_slice(), TIP);
    let after = with(rt, alloc, set.as_slice(), INDEX);
    [before, kept, told, put, set, after]
}

// A save that is stopped at this call, whatever a crash then leaves.
fn is_stopped(
    rt: &impl Abort,
    alloc: Global,
    before: &[File<'_>],
    course: &[Vec<File<'_>>],
    stop: u64,
) {
    let mut files = memory_of(rt, alloc, before);
    files.stop_at(stop);
    says_in(rt, alloc, &mut files, "/w/ds", &CUT_OFF);
    is_along(rt, alloc, &files, course);
}

#[test]
fn an_annexed_save_is_stopped(rt: HostRuntime) {
    let alloc = rt.alloc();
    let course = course_of_save(&rt, alloc);
    let mut files = memory_of(&rt, alloc, course[0].as_slice());
    says_in(&rt, alloc, &mut files, "/w/ds", &SAVE);
    for stop in 1..=files.calls() {
        is_stopped(&rt, alloc, course[0].as_slice(), &course, stop);
    }
}
