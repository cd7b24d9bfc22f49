// Working files beside git's own ids (`printf 'one\n' | git hash-object --stdin`), and that each refusal comes.
use super::common::{File, fault, holds, is_size, is_text, memory_of, place};
use faults::Fault;
use file_store::MemFiles;
use snapshot::Snapshot;
use std::alloc::Global;
use std::process::Abort;
use tree_status::{Keeping, WorkingFile, keep_files, repo, working_files};

const ONE: &str = "5626abf0f72e58d7a153368ba57db4c673c0e171";

const TWO: &str = "f719efd430d52bcfc8566a43b2eb655688d38871";

const EMPTY: &str = "e69de29bb2d1d6434b8b29ae775ad8c2e48c5391";

const MANY: [File<'static>; 8] = [
    ("/w/.datalad/config", b"two\n"),
    ("/w/.dlrepo/HEAD", b"one\n"),
    ("/w/.git/config", b"one\n"),
    ("/w/a/b", b"one\n"),
    ("/w/a.b", b"two\n"),
    ("/w/a0", b""),
    ("/w/x/.git/y", b"one\n"),
    ("/v", b"one\n"),
];

fn is_file(rt: &impl Abort, file: &WorkingFile, row: &(&str, &str)) {
    is_text(rt, file.path.as_str(), row.0);
    holds(rt, file.id.to_hex().as_slice() == row.1.as_bytes(), row.0);
}

// By an empty snapshot, where git keeps new files.
fn by_git(alloc: Global) -> Keeping {
    Keeping::new(Snapshot::of_ordered(Vec::new(alloc)), Vec::new(alloc), true)
}

// The walk finds these files, by path and id.
fn finds(rt: &impl Abort, alloc: Global, files: &mut MemFiles, root: &str, rows: &[(&str, &str)]) {
    let root = place(rt, alloc, root);
    let repo = repo(alloc, &root).expect(rt, "a repository");
    let by = by_git(alloc);
    let paths = working_files(alloc, files, &root, &by).expect(rt, "paths");
    let found = keep_files(alloc, files, &root, &repo, &by, paths.as_slice());
    let found = found.expect(rt, "working files");
    is_size(rt, found.len(), rows.len());
    for (file, row) in found.iter().zip(rows) {
        is_file(rt, file, row);
    }
}

fn refusal(rt: &impl Abort, alloc: Global, files: &mut MemFiles) -> Fault {
    let by = by_git(alloc);
    fault(
        rt,
        working_files(alloc, files, &place(rt, alloc, "/w"), &by),
    )
}

#[test]
fn files_by_path(rt: HostRuntime) {
    let (rt, alloc) = (&rt, rt.alloc());
    let mut files = memory_of(rt, alloc, &MANY);
    let rows = [
        (".datalad/config", TWO),
        ("a.b", TWO),
        ("a/b", ONE),
        ("a0", EMPTY),
    ];
    finds(rt, alloc, &mut files, "/w", &rows);
    finds(rt, alloc, &mut files, "/w/x", &[]);
    finds(rt, alloc, &mut files, "/none", &[]);
}

#[test]
fn files_of_the_root(rt: HostRuntime) {
    let (rt, alloc) = (&rt, rt.alloc());
    let mut files = memory_of(rt, alloc, &[("/a", b"one\n"), ("/b/c", b"two\n")]);
    finds(rt, alloc, &mut files, "/", &[("a", ONE), ("b/c", TWO)]);
}

#[test]
fn datasets_within(rt: HostRuntime) {
    let (rt, alloc) = (&rt, rt.alloc());
    let rows: [File<'_>; 2] = [("/w/s.txt", b"one\n"), ("/w/s/.dlrepo/HEAD", b"")];
    let mut files = memory_of(rt, alloc, &rows);
    let fault = refusal(rt, alloc, &mut files);
    let is = matches!(&fault, Fault::OddKind { path } if path.as_str() == "s");
    drop(fault);
    holds(rt, is, "a dataset");
}

// A file of that many bytes.
fn file_of(rt: &impl Abort, alloc: Global, size: usize) -> MemFiles {
    let mut bytes = Vec::new(alloc);
    bytes.resize(size, 0u8).expect(rt, "memory");
    memory_of(rt, alloc, &[("/w/d/f", bytes.as_slice())])
}

#[test]
fn large_files(rt: HostRuntime) {
    let (rt, alloc) = (&rt, rt.alloc());
    // `head -c 16777216 /dev/zero | git hash-object --stdin`
    let id = "dba78e916eb90ec648eeb3f7db10f73f2112e776";
    let mut files = file_of(rt, alloc, 16777216);
    finds(rt, alloc, &mut files, "/w", &[("d/f", id)]);
}

#[test]
fn a_file_too_large(rt: HostRuntime) {
    let (rt, alloc) = (&rt, rt.alloc());
    let mut files = file_of(rt, alloc, 16777217);
    let fault = refusal(rt, alloc, &mut files);
    let is = matches!(&fault, Fault::TooLarge { path, size: 16777217 } if path.as_str() == "d/f");
    drop(fault);
    holds(rt, is, "a file too large");
}
