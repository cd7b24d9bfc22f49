// `log` of a dataset with two saves: the lines are those that `git log --format='%H %s'` prints of the same commits.
use super::calls::{Row, says};
use super::create::MADE;
use super::saves::{UNTOLD, put, save, says_in};
use file_store::MemFiles;
use std::alloc::Global;
use std::process::Abort;

const ROWS: [Row<'static>; 4] = [
    Row {
        words: "log",
        code: 0,
        out: "e0bfe0a6cf820a41ad4fd655a813cb7d0ff2efac a\n\
              b70b316f9f783f08faadbdbec8ccb6a24feb3fbd [DATALAD] Recorded changes\n\
              6149941c1fcb7a565aced3bb19722e854a8a15b3 [DATALAD] new dataset\n",
        err: "",
    },
    Row {
        words: "log HEAD~1",
        code: 0,
        out: "b70b316f9f783f08faadbdbec8ccb6a24feb3fbd [DATALAD] Recorded changes\n\
              6149941c1fcb7a565aced3bb19722e854a8a15b3 [DATALAD] new dataset\n",
        err: "",
    },
    Row {
        words: "log -- main~2",
        code: 0,
        out: "6149941c1fcb7a565aced3bb19722e854a8a15b3 [DATALAD] new dataset\n",
        err: "",
    },
    Row {
        words: "log nothing",
        code: 1,
        out: "",
        err: "datalad: no such revision: nothing\n",
    },
];

// The dataset with two saves, of which the first is given no message.
fn saved_twice(rt: &impl Abort, alloc: Global) -> MemFiles {
    let mut files = MemFiles::new(alloc);
    says(rt, alloc, &mut files, &MADE);
    put(rt, alloc, &mut files, "/w/ds/e");
    says_in(rt, alloc, &mut files, "/w/ds", &UNTOLD);
    put(rt, alloc, &mut files, "/w/ds/f");
    let said = ("add(ok): f (file)\nsave(ok): . (dataset)\n", "");
    save(rt, alloc, &mut files, "/w/ds", 0, said);
    files
}

#[test]
fn logs_two_saves(rt: HostRuntime) {
    let alloc = rt.alloc();
    let mut files = saved_twice(&rt, alloc);
    for row in &ROWS {
        says_in(&rt, alloc, &mut files, "/w/ds", row);
    }
    let outside = Row {
        words: "log",
        code: 1,
        out: "",
        err: "datalad: no dataset at /w\n",
    };
    says_in(&rt, alloc, &mut files, "/w", &outside);
}
