// `save` of two files is stopped at each of its calls of the files, and a crash follows. The ids and the objects are
// those that git makes of the same files.
use super::courses::is_along;
use super::create::DATASET;
use super::files::{File, memory_of};
use super::saves::save;
use std::alloc::Global;
use std::process::Abort;

const TIP: &str = "/w/ds/.dlrepo/refs/heads/main";

const INDEX: &str = "/w/ds/.dlrepo/index";

// The working files.
const WORK: [File<'static>; 2] = [
    File {
        place: "/w/ds/a",
        bytes: b"a\n",
    },
    File {
        place: "/w/ds/b/c",
        bytes: b"c\n",
    },
];

// The objects that a save of them makes.
const OBJECTS: [File<'static>; 5] = [
    File {
        place: "/w/ds/.dlrepo/objects/78/981922613b2afb6025042ff6bd878ac1994e85",
        bytes: b"blob 2\0a\n",
    },
    File {
        place: "/w/ds/.dlrepo/objects/f2/ad6c76f0115a6ba5b00456a849810e7ec0af20",
        bytes: b"blob 2\0c\n",
    },
    File {
        place: "/w/ds/.dlrepo/objects/19/33da329284aca10dab8dc2fdd54213acd39be5",
        bytes: b"tree 29\0\
              100644 c\0\xf2\xad\x6c\x76\xf0\x11\x5a\x6b\xa5\xb0\x04\x56\xa8\x49\x81\x0e\x7e\xc0\xaf\x20",
    },
    File {
        place: "/w/ds/.dlrepo/objects/79/1a3f8adc43fae9148a80c46846fb7e696dffad",
        bytes: b"tree 92\0\
              40000 .datalad\0\
              \xc1\xe5\xd9\xf9\x14\x05\x73\x16\x25\x8a\x74\x78\x34\xda\x83\xc8\xe2\x6e\x38\x94\
              100644 a\0\x78\x98\x19\x22\x61\x3b\x2a\xfb\x60\x25\x04\x2f\xf6\xbd\x87\x8a\xc1\x99\x4e\x85\
              40000 b\0\x19\x33\xda\x32\x92\x84\xac\xa1\x0d\xab\x8d\xc2\xfd\xd5\x42\x13\xac\xd3\x9b\xe5",
    },
    File {
        place: "/w/ds/.dlrepo/objects/86/f434388abe1c672e8a4f51743f62204ee1d94e",
        bytes: b"commit 208\0\
              tree 791a3f8adc43fae9148a80c46846fb7e696dffad\n\
              parent 6149941c1fcb7a565aced3bb19722e854a8a15b3\n\
              author DataLad User <user@localhost> 1700000100 +0000\n\
              committer DataLad User <user@localhost> 1700000100 +0000\n\
              \n\
              a\n",
    },
];

const NEW_TIP: File<'static> = File {
    place: TIP,
    bytes: b"86f434388abe1c672e8a4f51743f62204ee1d94e\n",
};

const NEW_INDEX: File<'static> = File {
    place: INDEX,
    bytes: b"DIRC\0\0\0\x02\0\0\0\x03\
          \0\0\0\0\0\0\0\0\0\0\0\0\0\0\0\0\0\0\0\0\0\0\0\0\
          \0\0\x81\xa4\0\0\0\0\0\0\0\0\0\0\0\0\
          \xd4\x18]/\xf8Q\xe1\xa9\x97\xee#a\xff\x8c\xba\xd6M{\xe1\xa2\
          \0\x0f.datalad/config\0\0\0\
          \0\0\0\0\0\0\0\0\0\0\0\0\0\0\0\0\0\0\0\0\0\0\0\0\
          \0\0\x81\xa4\0\0\0\0\0\0\0\0\0\0\0\0\
          x\x98\x19\x22a;*\xfb`%\x04/\xf6\xbd\x87\x8a\xc1\x99N\x85\
          \0\x01a\0\
          \0\0\0\0\0\0\0\0\0\0\0\0\0\0\0\0\0\0\0\0\0\0\0\0\
          \0\0\x81\xa4\0\0\0\0\0\0\0\0\0\0\0\0\
          \xf2\xadlv\xf0\x11Zk\xa5\xb0\x04V\xa8I\x81\x0e~\xc0\xaf \
          \0\x03b/c\0\0\0\0\0\0\0\
          Zo\xaf\xa7\x22\xe0\x8e2\xfa\xeb\xd6:\xa80E\x84;[z\xb3",
};

const SAVED: (&str, &str) = (
    "add(ok): a (file)\nadd(ok): b/c (file)\nsave(ok): . (dataset)\n",
    "",
);

const CUT_OFF: (&str, &str) = ("", "datalad: a device failed\n");

// The files of two lists.
fn joined(
    rt: &impl Abort,
    alloc: Global,
    one: &[File<'static>],
    two: &[File<'static>],
) -> Vec<File<'static>> {
    let mut files = Vec::new(alloc);
    for file in one {
        files.push(*file).expect(rt, "memory");
    }
    for file in two {
        files.push(*file).expect(rt, "memory");
    }
    files
}

// The same files with this one in the place of that which stands there.
pub(super) fn with(
    rt: &impl Abort,
    alloc: Global,
    files: &[File<'static>],
    new: File<'static>,
) -> Vec<File<'static>> {
    let mut list = Vec::new(alloc);
    for file in files {
        let file = if file.place == new.place { new } else { *file };
        list.push(file).expect(rt, "memory");
    }
    list
}

// What stands before the save; once its objects are put; once its tip is set; and after it.
fn course_of_save(rt: &impl Abort, alloc: Global) -> [Vec<File<'static>>; 4] {
    let before = joined(rt, alloc, &DATASET, &WORK);
    let put = joined(rt, alloc, before.as_slice(), &OBJECTS);
    let set = with(rt, alloc, put.as_slice(), NEW_TIP);
    let after = with(rt, alloc, set.as_slice(), NEW_INDEX);
    [before, put, set, after]
}

// A save that is stopped at this call, whatever a crash then leaves.
fn is_stopped(
    rt: &impl Abort,
    alloc: Global,
    before: &[File<'_>],
    course: &[Vec<File<'_>>],
    stop: u64,
) {
    let mut files = memory_of(rt, alloc, before);
    files.stop_at(stop);
    save(rt, alloc, &mut files, "/w/ds", 4, CUT_OFF);
    is_along(rt, alloc, &files, course);
}

#[test]
fn save_is_stopped(rt: HostRuntime) {
    let alloc = rt.alloc();
    let course = course_of_save(&rt, alloc);
    let mut files = memory_of(&rt, alloc, course[0].as_slice());
    save(&rt, alloc, &mut files, "/w/ds", 0, SAVED);
    for stop in 1..=files.calls() {
        is_stopped(&rt, alloc, course[0].as_slice(), &course, stop);
    }
}
