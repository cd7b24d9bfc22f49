// What stands after `create ds`: the ids are those of Python's `uuid`, the objects' names those of
// `git hash-object`, the index is that of `git update-index`.
use super::calls::{Row, says};
use super::files::{File, holds};
use file_store::MemFiles;

/// The call that makes `/w/ds`.
pub(super) const MADE: Row<'static> = Row {
    words: "create ds",
    code: 0,
    out: "create(ok): /w/ds (dataset)\n",
    err: "",
};

/// The same call where something stands there.
pub(super) const THERE: Row<'static> = Row {
    words: "create ds",
    code: 1,
    out: "",
    err: "datalad: something is already at /w/ds\n",
};

// In byte order of the places.
pub(super) const DATASET: [File<'static>; 9] = [
    File {
        place: "/w/ds/.datalad/config",
        bytes: b"[datalad \"dataset\"]\n\tid = 7ca59145-b5ac-5ef3-90ad-600653b12e0d\n",
    },
    File {
        place: "/w/ds/.dlrepo/HEAD",
        bytes: b"ref: refs/heads/main\n",
    },
    File {
        place: "/w/ds/.dlrepo/config",
        bytes: b"[annex]\n\
              \tuuid = 490cbdc2-0d82-5cbd-94d8-aba5bedae8d0\n\
              \tnumcopies = 1\n\
              [user]\n\
              \tname = DataLad User\n\
              \temail = user@localhost\n",
    },
    File {
        place: "/w/ds/.dlrepo/index",
        bytes: b"DIRC\0\0\0\x02\0\0\0\x01\
              \0\0\0\0\0\0\0\0\0\0\0\0\0\0\0\0\0\0\0\0\0\0\0\0\
              \0\0\x81\xa4\0\0\0\0\0\0\0\0\0\0\0\0\
              \xd4\x18]/\xf8Q\xe1\xa9\x97\xee#a\xff\x8c\xba\xd6M{\xe1\xa2\
              \0\x0f.datalad/config\0\0\0\
              \xb8Z\xae\xd0\xfe\x8c\xfa\x90&\xda\x08\xc0lD\xfb\x02s:Q\xa5",
    },
    File {
        place: "/w/ds/.dlrepo/objects/2f/128274e4da73db7f0b8270f0863d2c034bbe8c",
        bytes: b"tree 35\0\
              40000 .datalad\0\
              \xc1\xe5\xd9\xf9\x14\x05\x73\x16\x25\x8a\x74\x78\x34\xda\x83\xc8\xe2\x6e\x38\x94",
    },
    File {
        place: "/w/ds/.dlrepo/objects/61/49941c1fcb7a565aced3bb19722e854a8a15b3",
        bytes: b"commit 180\0\
              tree 2f128274e4da73db7f0b8270f0863d2c034bbe8c\n\
              author DataLad User <user@localhost> 1700000000 +0000\n\
              committer DataLad User <user@localhost> 1700000000 +0000\n\
              \n\
              [DATALAD] new dataset\n",
    },
    File {
        place: "/w/ds/.dlrepo/objects/c1/e5d9f914057316258a747834da83c8e26e3894",
        bytes: b"tree 34\0\
              100644 config\0\
              \xd4\x18\x5d\x2f\xf8\x51\xe1\xa9\x97\xee\x23\x61\xff\x8c\xba\xd6\x4d\x7b\xe1\xa2",
    },
    File {
        place: "/w/ds/.dlrepo/objects/d4/185d2ff851e1a997ee2361ff8cbad64d7be1a2",
        bytes: b"blob 63\0[datalad \"dataset\"]\n\tid = 7ca59145-b5ac-5ef3-90ad-600653b12e0d\n",
    },
    File {
        place: "/w/ds/.dlrepo/refs/heads/main",
        bytes: b"6149941c1fcb7a565aced3bb19722e854a8a15b3\n",
    },
];

#[test]
fn makes_a_dataset(rt: HostRuntime) {
    let alloc = rt.alloc();
    let mut files = MemFiles::new(alloc);
    says(&rt, alloc, &mut files, &MADE);
    holds(&rt, alloc, &files, &DATASET);

    // and not a second time
    says(&rt, alloc, &mut files, &THERE);
    holds(&rt, alloc, &files, &DATASET);
}
