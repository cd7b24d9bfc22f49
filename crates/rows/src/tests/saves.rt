// `save` as a whole call: the commit's id is the one that git gives the same files and message.
use super::calls::{Row, code_of, is_code, is_text, place, says, words_of};
use super::create::MADE;
use datalad_cli::datalad;
use file_store::{Files, MemFiles, MemSink};
use std::alloc::Global;
use std::process::Abort;

const WORDS: &str = "save -m a --to-git";

// A call at 1700000100, from this working directory, answers as its row says.
pub(super) fn says_in(
    rt: &impl Abort,
    alloc: Global,
    files: &mut MemFiles,
    cwd: &str,
    row: &Row<'_>,
) {
    let mut out = MemSink::new(alloc);
    let mut err = MemSink::new(alloc);
    let words = words_of(rt, alloc, row.words);
    let cwd = place(rt, alloc, cwd);
    let status = datalad(
        alloc,
        words.as_slice(),
        &cwd,
        1700000100,
        [7; 16],
        files,
        &mut out,
        &mut err,
    );
    is_code(rt, row.words, code_of(status), row.code);
    is_text(rt, row.words, out.bytes(), row.out);
    is_text(rt, row.words, err.bytes(), row.err);
}

// A save with the message `a`.
pub(super) fn save(
    rt: &impl Abort,
    alloc: Global,
    files: &mut MemFiles,
    cwd: &str,
    code: u8,
    texts: (&str, &str),
) {
    let row = Row {
        words: WORDS,
        code,
        out: texts.0,
        err: texts.1,
    };
    says_in(rt, alloc, files, cwd, &row);
}

// A file with nothing in it.
pub(super) fn put(rt: &impl Abort, alloc: Global, files: &mut MemFiles, text: &str) {
    files
        .write(alloc, &place(rt, alloc, text), b"")
        .expect(rt, "written");
}

// The commit of the dataset's branch.
pub(super) fn is_tip(rt: &impl Abort, alloc: Global, files: &mut MemFiles, digits: &[u8]) {
    let main = files.read(alloc, &place(rt, alloc, "/w/ds/.dlrepo/refs/heads/main"));
    let main = main.expect(rt, "read").expect(rt, "a file");
    assert_eq!(rt; main.as_slice(), digits);
}

#[test]
fn saves_a_file(rt: HostRuntime) {
    let alloc = rt.alloc();
    let mut files = MemFiles::new(alloc);
    says(&rt, alloc, &mut files, &MADE);
    put(&rt, alloc, &mut files, "/w/ds/e");
    save(
        &rt,
        alloc,
        &mut files,
        "/w",
        1,
        ("", "datalad: no dataset at /w\n"),
    );
    save(
        &rt,
        alloc,
        &mut files,
        "/w/ds",
        0,
        ("add(ok): e (file)\nsave(ok): . (dataset)\n", ""),
    );
    is_tip(
        &rt,
        alloc,
        &mut files,
        b"f321631f761632c225ed2c4f3a6512fef0ef9082\n",
    );

    // and from below, once more: nothing has changed
    save(
        &rt,
        alloc,
        &mut files,
        "/w/ds/below",
        0,
        ("save(notneeded): . (dataset)\n", ""),
    );
}

/// A save that is given no message.
pub(super) const UNTOLD: Row<'static> = Row {
    words: "save --to-git",
    code: 0,
    out: "add(ok): e (file)\nsave(ok): . (dataset)\n",
    err: "",
};

#[test]
fn saves_without_a_message(rt: HostRuntime) {
    let alloc = rt.alloc();
    let mut files = MemFiles::new(alloc);
    says(&rt, alloc, &mut files, &MADE);
    put(&rt, alloc, &mut files, "/w/ds/e");
    says_in(&rt, alloc, &mut files, "/w/ds", &UNTOLD);
    is_tip(
        &rt,
        alloc,
        &mut files,
        b"b70b316f9f783f08faadbdbec8ccb6a24feb3fbd\n",
    );
}
