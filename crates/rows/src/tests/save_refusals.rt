// What refuses a save: a file of the dataset is gone or other than it was. Nothing has changed then.
use super::create::DATASET;
use super::files::{File, holds, list_of, memory_of, rows_of};
use super::saves::save;
use std::alloc::Global;
use std::process::Abort;

// A file that takes the place of one of the dataset's, or is added to them, and the refusal.
#[derive(Drop)]
struct Case<'a> {
    place: &'a str,
    bytes: Option<&'a [u8]>,
    err: &'a str,
}

const HEAD: &str = "/w/ds/.dlrepo/HEAD";

const SETTINGS: &str = "/w/ds/.dlrepo/config";

const COMMIT: &str = "/w/ds/.dlrepo/objects/61/49941c1fcb7a565aced3bb19722e854a8a15b3";

const TREE: &str = "/w/ds/.dlrepo/objects/2f/128274e4da73db7f0b8270f0863d2c034bbe8c";

const CASES: [Case<'static>; 9] = [
    Case {
        place: HEAD,
        bytes: Some(b"refs/heads/main\n"),
        err: "datalad: damaged: /w/ds/.dlrepo/HEAD\n",
    },
    Case {
        place: HEAD,
        bytes: Some(b"ref: refs/heads/side\n"),
        err: "datalad: damaged: /w/ds/.dlrepo/refs/heads/side\n",
    },
    Case {
        place: HEAD,
        bytes: Some(b"1111111111111111111111111111111111111111\n"),
        err: "datalad: missing object: 1111111111111111111111111111111111111111\n",
    },
    Case {
        place: HEAD,
        bytes: None,
        err: "datalad: no dataset at /w/ds\n",
    },
    Case {
        place: COMMIT,
        bytes: None,
        err: "datalad: missing object: 6149941c1fcb7a565aced3bb19722e854a8a15b3\n",
    },
    Case {
        place: TREE,
        bytes: Some(b"tree 35\0"),
        err: "datalad: damaged: /w/ds/.dlrepo/objects/2f/128274e4da73db7f0b8270f0863d2c034bbe8c\n",
    },
    Case {
        place: SETTINGS,
        bytes: Some(b"uuid = 1\n"),
        err: "datalad: bad line: /w/ds/.dlrepo/config:1\n",
    },
    Case {
        place: SETTINGS,
        bytes: None,
        err: "datalad: bad line: /w/ds/.dlrepo/config:0\n",
    },
    Case {
        place: "/w/ds/n/.dlrepo/HEAD",
        bytes: Some(b""),
        err: "datalad: neither file nor directory: n\n",
    },
];

// The dataset with a new file `e`, and with the case's file in place of its own.
fn ground_of(rt: &impl Abort, alloc: Global, case: &Case<'static>) -> Vec<File<'static>> {
    let mut ground = Vec::new(alloc);
    for file in &DATASET {
        if file.place != case.place {
            ground.push(*file).expect(rt, "memory");
        }
    }
    let place = "/w/ds/e";
    let bytes = b"".as_slice();
    ground.push(File { place, bytes }).expect(rt, "memory");
    if let Some(bytes) = case.bytes {
        let place = case.place;
        ground.push(File { place, bytes }).expect(rt, "memory");
    }
    ground
}

fn is_refused(rt: &impl Abort, alloc: Global, ground: &[File<'_>], err: &str) {
    let mut files = memory_of(rt, alloc, ground);
    let list = list_of(rt, alloc, &files);
    let rows = rows_of(rt, alloc, list.as_slice());
    save(rt, alloc, &mut files, "/w/ds", 1, ("", err));
    holds(rt, alloc, &files, rows.as_slice());
}

#[test]
fn save_is_refused(rt: HostRuntime) {
    let alloc = rt.alloc();
    for case in &CASES {
        let ground = ground_of(&rt, alloc, case);
        is_refused(&rt, alloc, ground.as_slice(), case.err);
    }
}
