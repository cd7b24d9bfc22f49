// `status` of a dataset, clean and after each kind of change.
use super::calls::{Row, place, says};
use super::create::MADE;
use super::saves::{put, save, says_in};
use file_store::{Files, MemFiles};
use std::alloc::Global;
use std::process::Abort;

fn says_status(
    rt: &impl Abort,
    alloc: Global,
    files: &mut MemFiles,
    code: u8,
    texts: (&str, &str),
) {
    let row = Row {
        words: "status",
        code,
        out: texts.0,
        err: texts.1,
    };
    says_in(rt, alloc, files, "/w/ds", &row);
}

const CLEAN: &str = "nothing to save, working tree clean\n";

// A file with other bytes, a new one, and one that is gone.
fn change(rt: &impl Abort, alloc: Global, files: &mut MemFiles) {
    let written = files.write(alloc, &place(rt, alloc, "/w/ds/e"), b"other");
    written.expect(rt, "written");
    put(rt, alloc, files, "/w/ds/d/new");
    let removed = files.remove(alloc, &place(rt, alloc, "/w/ds/d.x"));
    removed.expect(rt, "removed");
}

// The dataset with two files that are saved.
fn saved(rt: &impl Abort, alloc: Global) -> MemFiles {
    let mut files = MemFiles::new(alloc);
    says(rt, alloc, &mut files, &MADE);
    says_status(rt, alloc, &mut files, 0, (CLEAN, ""));
    put(rt, alloc, &mut files, "/w/ds/e");
    put(rt, alloc, &mut files, "/w/ds/d.x");
    says_status(
        rt,
        alloc,
        &mut files,
        0,
        ("untracked: d.x (file)\nuntracked: e (file)\n", ""),
    );
    let said = "add(ok): d.x (file)\nadd(ok): e (file)\nsave(ok): . (dataset)\n";
    save(rt, alloc, &mut files, "/w/ds", 0, (said, ""));
    files
}

#[test]
fn states_of_paths(rt: HostRuntime) {
    let alloc = rt.alloc();
    let mut files = saved(&rt, alloc);
    says_status(&rt, alloc, &mut files, 0, (CLEAN, ""));
    change(&rt, alloc, &mut files);
    let said = "  deleted: d.x (file)\nuntracked: d/new (file)\n modified: e (file)\n";
    says_status(&rt, alloc, &mut files, 0, (said, ""));
}

#[test]
fn a_status_is_refused(rt: HostRuntime) {
    let alloc = rt.alloc();
    let mut files = saved(&rt, alloc);
    let outside = Row {
        words: "status",
        code: 1,
        out: "",
        err: "datalad: no dataset at /w\n",
    };
    says_in(&rt, alloc, &mut files, "/w", &outside);
    let nested = files.write(alloc, &place(&rt, alloc, "/w/ds/n/.dlrepo/HEAD"), b"");
    nested.expect(&rt, "written");
    let said = ("", "datalad: neither file nor directory: n\n");
    says_status(&rt, alloc, &mut files, 1, said);
}

// Calls from the working directory `/w` that name a dataset.
const NAMED: [Row<'static>; 7] = [
    Row {
        words: "status -d ds",
        code: 0,
        out: CLEAN,
        err: "",
    },
    Row {
        words: "status --dataset=/w/x/../ds/",
        code: 0,
        out: CLEAN,
        err: "",
    },
    Row {
        words: "log -dds HEAD~1",
        code: 0,
        out: "6149941c1fcb7a565aced3bb19722e854a8a15b3 [DATALAD] new dataset\n",
        err: "",
    },
    Row {
        words: "save --to-git -d ds",
        code: 0,
        out: "save(notneeded): . (dataset)\n",
        err: "",
    },
    Row {
        words: "status -d ds/d",
        code: 1,
        out: "",
        err: "datalad: no dataset at /w/ds/d\n",
    },
    Row {
        words: "save --to-git -d .",
        code: 1,
        out: "",
        err: "datalad: no dataset at /w\n",
    },
    Row {
        words: "log --dataset=",
        code: 1,
        out: "",
        err: "datalad: bad path in word 1\n",
    },
];

#[test]
fn datasets_are_named(rt: HostRuntime) {
    let alloc = rt.alloc();
    let mut files = saved(&rt, alloc);
    for row in &NAMED {
        says_in(&rt, alloc, &mut files, "/w", row);
    }
}
