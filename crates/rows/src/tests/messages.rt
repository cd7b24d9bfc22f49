// `save` with a message from a file: the commit's id is the one that git gives the same message.
use super::calls::{Row, says};
use super::create::{DATASET, MADE};
use super::files::{File, holds, list_of, memory_of, rows_of};
use super::saves::{is_tip, put, says_in};
use file_store::MemFiles;
use std::alloc::Global;
use std::process::Abort;

// A message's file, the words that name it from `/w/ds`, and the commit's digits.
#[derive(Drop)]
struct Case<'a> {
    bytes: &'a [u8],
    words: &'a str,
    digits: &'a [u8],
}

const CASES: [Case<'static>; 5] = [
    Case {
        bytes: b"a",
        words: "save -F /w/msg.txt --to-git",
        digits: b"f321631f761632c225ed2c4f3a6512fef0ef9082\n",
    },
    Case {
        bytes: b"a\n",
        words: "save --to-git -F ../msg.txt",
        digits: b"f321631f761632c225ed2c4f3a6512fef0ef9082\n",
    },
    Case {
        bytes: b"a\n",
        words: "save -d . -F/w/msg.txt --to-git",
        digits: b"f321631f761632c225ed2c4f3a6512fef0ef9082\n",
    },
    Case {
        bytes: b"",
        words: "save -F /w/msg.txt --to-git",
        digits: b"36788117547c77b0296ac3171d08f2cf27286501\n",
    },
    Case {
        bytes: b"one\n\ntwo",
        words: "save -F /w/msg.txt --to-git",
        digits: b"32305d962815a64261357da85cd93172854e4f1a\n",
    },
];

fn saves(rt: &impl Abort, alloc: Global, case: &Case<'_>) {
    let mut ground = Vec::new(alloc);
    for file in &DATASET {
        ground.push(*file).expect(rt, "memory");
    }
    let place = "/w/msg.txt";
    let bytes = case.bytes;
    ground.push(File { place, bytes }).expect(rt, "memory");
    let mut files = memory_of(rt, alloc, ground.as_slice());
    put(rt, alloc, &mut files, "/w/ds/e");
    let row = Row {
        words: case.words,
        code: 0,
        out: "add(ok): e (file)\nsave(ok): . (dataset)\n",
        err: "",
    };
    says_in(rt, alloc, &mut files, "/w/ds", &row);
    is_tip(rt, alloc, &mut files, case.digits);
}

#[test]
fn saves_with_a_message_of_a_file(rt: HostRuntime) {
    let alloc = rt.alloc();
    for case in &CASES {
        saves(&rt, alloc, case);
    }
}

// A call from this directory is refused, and nothing has changed.
fn is_refused(
    rt: &impl Abort,
    alloc: Global,
    files: &mut MemFiles,
    cwd: &str,
    words: &str,
    err: &str,
) {
    let list = list_of(rt, alloc, files);
    let rows = rows_of(rt, alloc, list.as_slice());
    let row = Row {
        words,
        code: 1,
        out: "",
        err,
    };
    says_in(rt, alloc, files, cwd, &row);
    holds(rt, alloc, files, rows.as_slice());
}

#[test]
fn lacks_a_message(rt: HostRuntime) {
    let alloc = rt.alloc();
    let mut files = MemFiles::new(alloc);
    says(&rt, alloc, &mut files, &MADE);
    put(&rt, alloc, &mut files, "/w/ds/e");
    for (words, err) in [
        (
            "save -F msg.txt --to-git",
            "datalad: no such path: /w/ds/msg.txt\n",
        ),
        (
            "save -F .datalad --to-git",
            "datalad: no such path: /w/ds/.datalad\n",
        ),
        ("save -F  --to-git", "datalad: bad path in word 2\n"),
        ("save -d x -F  --to-git", "datalad: no dataset at /w/ds/x\n"),
    ] {
        is_refused(&rt, alloc, &mut files, "/w/ds", words, err);
    }
    is_refused(
        &rt,
        alloc,
        &mut files,
        "/w",
        "save -F none --to-git",
        "datalad: no dataset at /w\n",
    );

    // the message lacks before the dataset is looked at
    put(&rt, alloc, &mut files, "/w/ds/.dlrepo/config");
    is_refused(
        &rt,
        alloc,
        &mut files,
        "/w/ds",
        "save -F none --to-git",
        "datalad: no such path: /w/ds/none\n",
    );
}

#[test]
fn message_is_too_large(rt: HostRuntime) {
    let alloc = rt.alloc();
    let text = "a".repeat(alloc, 1048577).expect(&rt, "memory");
    let mut ground = Vec::new(alloc);
    for file in &DATASET {
        ground.push(*file).expect(&rt, "memory");
    }
    let place = "/w/msg.txt";
    let bytes = text.as_str().as_bytes();
    ground.push(File { place, bytes }).expect(&rt, "memory");
    let mut files = memory_of(&rt, alloc, ground.as_slice());
    is_refused(
        &rt,
        alloc,
        &mut files,
        "/w/ds",
        "save -F ../msg.txt --to-git",
        "datalad: too large: /w/msg.txt, 1048577\n",
    );
}
