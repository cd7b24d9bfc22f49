// Each call of the files fails in turn, and each write of the outputs.
use super::calls::{Row, call, is_code, is_text, says};
use super::create::{MADE, THERE};
use super::files::{count_of, is_count};
use file_store::{MemFiles, MemSink};
use std::alloc::Global;
use std::process::Abort;

pub(super) const FAILED: Row<'static> = Row {
    words: "create ds",
    code: 4,
    out: "",
    err: "datalad: a device failed\n",
};

/// How many calls of the files `create` makes where nothing stands.
pub(super) const CALLS: u64 = 29;

fn numbers(rt: &impl Abort, alloc: Global, list: &[u64]) -> Vec<u64> {
    list.to_vec(alloc).expect(rt, "memory")
}

// Calls with these numbers fail in `create ds`. The same command is then answered by what it finds.
fn fails(rt: &impl Abort, alloc: Global, before: &[u64], after: &[u64]) {
    let mut files = MemFiles::new(alloc);
    files.fail_at(numbers(rt, alloc, before), numbers(rt, alloc, after));
    says(rt, alloc, &mut files, &FAILED);
    files.fail_at(Vec::new(alloc), Vec::new(alloc));
    goes_on(rt, alloc, &mut files);
}

// `create ds` where one was cut off before.
fn goes_on(rt: &impl Abort, alloc: Global, files: &mut MemFiles) {
    if count_of(rt, alloc, files) == 0 {
        says(rt, alloc, files, &MADE);
    } else {
        says(rt, alloc, files, &THERE);
    }
}

// The first call fails, and nothing has changed.
fn fails_at_once(rt: &impl Abort, alloc: Global) {
    let mut files = MemFiles::new(alloc);
    files.stop_at(1);
    says(rt, alloc, &mut files, &FAILED);
    is_count(rt, count_of(rt, alloc, &files), 0);
}

fn makes_no_more_calls(rt: &impl Abort, alloc: Global) {
    let mut files = MemFiles::new(alloc);
    files.stop_at(CALLS + 1);
    says(rt, alloc, &mut files, &MADE);
}

#[test]
fn files_fail(rt: HostRuntime) {
    let alloc = rt.alloc();
    fails_at_once(&rt, alloc);
    makes_no_more_calls(&rt, alloc);
    for n in 1..=CALLS {
        fails(&rt, alloc, &[n], &[]);
        fails(&rt, alloc, &[], &[n]);
    }
}

// A call where writes with these numbers fail prints nothing but this on the second output.
fn is_cut_off(
    rt: &impl Abort,
    alloc: Global,
    words: &str,
    out_at: &[u64],
    err_at: &[u64],
    err_text: &str,
) {
    let mut files = MemFiles::new(alloc);
    let mut out = MemSink::new(alloc);
    let mut err = MemSink::new(alloc);
    out.fail_at(numbers(rt, alloc, out_at));
    err.fail_at(numbers(rt, alloc, err_at));
    let code = call(rt, alloc, words, &mut files, &mut out, &mut err);
    is_code(rt, words, code, 4);
    is_text(rt, words, out.bytes(), "");
    is_text(rt, words, err.bytes(), err_text);
}

#[test]
fn outputs_fail(rt: HostRuntime) {
    let alloc = rt.alloc();
    is_cut_off(&rt, alloc, "create ds", &[1], &[], FAILED.err);
    is_cut_off(&rt, alloc, "create ds", &[1], &[1], "");
    is_cut_off(&rt, alloc, "create ", &[], &[1], "");
    is_cut_off(&rt, alloc, "create", &[], &[1], "");
}
