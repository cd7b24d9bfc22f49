// Saves beside git's own: the ids are those of `git hash-object`, `git mktree` and `git commit-tree` for the same files,
// person and moments.
use super::common::{bytes, fault, holds, is_size, is_text, place, put};
use faults::{Fault, Line};
use file_store::{Bytes, Files, MemFiles};
use git_objects::Id;
use recursive_save::{SaveWish, create, save};
use std::alloc::Global;
use std::process::Abort;

const LINE_OF_E: &str = "add(ok): e (file)\nsave(ok): . (dataset)\n";

const NOTHING: &str = "save(notneeded): . (dataset)\n";

const LINES_OF_THREE: &str =
    "add(ok): a.b (file)\nadd(ok): a/c (file)\nadd(ok): a0 (file)\ndelete(ok): e (file)\nsave(ok): . (dataset)\n";

// A commit's parent, its message and its moment; the id that git gives it, and the lines.
#[derive(Drop)]
struct Saved<'a> {
    message: &'a str,
    moment: u64,
    commit: &'a str,
    lines: &'a str,
}

fn wish(rt: &impl Abort, alloc: Global, message: &str, moment: u64) -> SaveWish {
    let message = Bytes::new(bytes(rt, alloc, message.as_bytes()));
    SaveWish {
        message,
        to_git: true,
        moment,
    }
}

// The dataset `/w/ds`, made at 1700000000.
fn dataset(rt: &impl Abort, alloc: Global) -> MemFiles {
    let mut files = MemFiles::new(alloc);
    let mut lines = Vec::new(alloc);
    let root = place(rt, alloc, "/w/ds");
    let made = create(alloc, &mut files, &root, 1700000000, &[7; 16], &mut lines);
    drop(made.expect(rt, "made"));
    files
}

fn text_of(rt: &impl Abort, alloc: Global, lines: &[Line]) -> String {
    let mut text = String::new(alloc);
    for line in lines {
        let line = line.text(alloc).expect(rt, "memory");
        text.push_str(line.as_str()).expect(rt, "memory");
    }
    text
}

fn is_id(rt: &impl Abort, got: Option<Id>, want: &str) {
    holds(rt, got == Id::from_hex(want.as_bytes()), want);
}

// A save that makes this commit, or none, and says these lines.
fn saves(rt: &impl Abort, alloc: Global, files: &mut MemFiles, row: &Saved) {
    let mut lines = Vec::new(alloc);
    let root = place(rt, alloc, "/w/ds");
    let wish = wish(rt, alloc, row.message, row.moment);
    let saved = save(alloc, files, &root, &wish, &mut lines).expect(rt, "saved");
    is_id(rt, saved, row.commit);
    let text = text_of(rt, alloc, lines.as_slice());
    is_text(rt, text.as_str(), row.lines);
}

fn has_size(rt: &impl Abort, alloc: Global, files: &mut MemFiles, text: &str, size: u64) {
    let found = files
        .size(alloc, &place(rt, alloc, text))
        .expect(rt, "a size");
    holds(rt, found == Some(size), text);
}

fn removes(rt: &impl Abort, alloc: Global, files: &mut MemFiles, text: &str) {
    let gone = files.remove(alloc, &place(rt, alloc, text));
    drop(gone.expect(rt, "removed"));
}

const FIRST: Saved<'static> = Saved {
    message: "a\n",
    moment: 1700000100,
    commit: "f321631f761632c225ed2c4f3a6512fef0ef9082",
    lines: LINE_OF_E,
};

const NONE: Saved<'static> = Saved {
    message: "again\n",
    moment: 1700000101,
    commit: "",
    lines: NOTHING,
};

const THREE: Saved<'static> = Saved {
    message: "b\n",
    moment: 1700000200,
    commit: "9ff7a08400a21589915ec3e22a852fd8a30526dd",
    lines: LINES_OF_THREE,
};

// The files of a new dataset, of which four are objects, and one more.
const COUNT: usize = 10;

// The tree of 64 bytes, and the commit of 208, each behind its header.
const TREE: &str = "/w/ds/.dlrepo/objects/10/6c1293428b0a3894280c5ee0356f46e15810cb";

const COMMIT: &str = "/w/ds/.dlrepo/objects/f3/21631f761632c225ed2c4f3a6512fef0ef9082";

#[test]
fn commits_are_those_of_git(rt: HostRuntime) {
    let (rt, alloc) = (&rt, rt.alloc());
    let mut files = dataset(rt, alloc);
    put(rt, alloc, &mut files, "/w/ds/e", b"");
    saves(rt, alloc, &mut files, &FIRST);
    has_size(rt, alloc, &mut files, TREE, 72);
    has_size(rt, alloc, &mut files, COMMIT, 219);

    // at once again: no commit
    saves(rt, alloc, &mut files, &NONE);

    // paths in byte order, and one that is gone
    removes(rt, alloc, &mut files, "/w/ds/e");
    put(rt, alloc, &mut files, "/w/ds/a.b", b"one\n");
    put(rt, alloc, &mut files, "/w/ds/a/c", b"one\n");
    put(rt, alloc, &mut files, "/w/ds/a0", b"one\n");
    saves(rt, alloc, &mut files, &THREE);
}

// The fault of a save.
fn refusal(rt: &impl Abort, alloc: Global, files: &mut MemFiles) -> Fault {
    let mut lines = Vec::new(alloc);
    let root = place(rt, alloc, "/w/ds");
    let wish = wish(rt, alloc, "a\n", 1700000100);
    fault(rt, save(alloc, files, &root, &wish, &mut lines))
}

fn has_count(rt: &impl Abort, alloc: Global, files: &MemFiles, want: usize) {
    is_size(rt, files.to_list(alloc).expect(rt, "a list").len(), want);
}

fn refuses_line(rt: &impl Abort, alloc: Global, files: &mut MemFiles, at: u64) {
    let fault = refusal(rt, alloc, files);
    let is = matches!(&fault, Fault::BadLine { line, .. } if *line == at);
    drop(fault);
    holds(rt, is, "a refusal");
}

fn refuses_path(rt: &impl Abort, alloc: Global, files: &mut MemFiles, odd: &str) {
    let fault = refusal(rt, alloc, files);
    let is = matches!(&fault, Fault::OddKind { path } if path.as_str() == odd);
    drop(fault);
    holds(rt, is, "a refusal");
}

#[test]
fn refusals(rt: HostRuntime) {
    let (rt, alloc) = (&rt, rt.alloc());
    let mut files = dataset(rt, alloc);
    put(rt, alloc, &mut files, "/w/ds/e", b"");
    has_count(rt, alloc, &files, COUNT);
    put(rt, alloc, &mut files, "/w/ds/.dlrepo/config", b"[annex\n");
    refuses_line(rt, alloc, &mut files, 1);
    put(rt, alloc, &mut files, "/w/ds/s/.dlrepo/HEAD", b"");
    refuses_path(rt, alloc, &mut files, "s");

    // nothing was written
    has_count(rt, alloc, &files, COUNT + 1);
}
