// Files that are annexed: their contents under keys, the logs of these, and pointers in commits. The ids are those that
// git gives the same trees and commits.
use super::calls::{Row, place, says};
use super::create::{DATASET, MADE};
use super::files::{File, holds, memory_of};
use super::save_stops::with;
use super::saves::says_in;
use file_store::{Files, MemFiles};
use std::alloc::Global;
use std::process::Abort;

/// `hello.txt`, its bytes and its pointer.
pub(super) const HELLO: File<'static> = File {
    place: "/w/ds/hello.txt",
    bytes: b"hello\n",
};

const POINTER: &[u8] =
    b"/annex/objects/SHA256E-s6--5891b5b522d5df086d0ff0b110fbd9d21bb4fc7163af34d08286a2e846f6be03.txt\n";

// The object of its bytes.
const IN_GIT: &[u8] = b"blob 6\0hello\n";

/// Its content, under the first six digits of its key's MD5.
pub(super) const CONTENT: File<'static> = File {
    place: "/w/ds/.dlrepo/annex/objects/d91/b11/SHA256E-s6--5891b5b522d5df086d0ff0b110fbd9d21bb4fc7163af34d08286a2e846f6be03.txt",
    bytes: b"hello\n",
};

/// Its log, once it is saved at 1700000100.
pub(super) const LOG: File<'static> = File {
    place: "/w/ds/.dlrepo/annex/logs/d91/b11/SHA256E-s6--5891b5b522d5df086d0ff0b110fbd9d21bb4fc7163af34d08286a2e846f6be03.txt.log",
    bytes: b"1700000100s 1 490cbdc2-0d82-5cbd-94d8-aba5bedae8d0\n",
};

/// The objects of its save: the pointer, the tree and the commit.
pub(super) const OBJECTS: [File<'static>; 3] = [
    File {
        place: "/w/ds/.dlrepo/objects/39/b3ecb685e7d01850073c97ecc20aeeb699a30c",
        bytes: b"blob 96\0\
              /annex/objects/SHA256E-s6--5891b5b522d5df086d0ff0b110fbd9d21bb4fc7163af34d08286a2e846f6be03.txt\n",
    },
    File {
        place: "/w/ds/.dlrepo/objects/1f/91a0de39b98fe60987ff11d3c46d472a5311fa",
        bytes: b"tree 72\0\
              40000 .datalad\0\
              \xc1\xe5\xd9\xf9\x14\x05\x73\x16\x25\x8a\x74\x78\x34\xda\x83\xc8\xe2\x6e\x38\x94\
              100644 hello.txt\0\
              \x39\xb3\xec\xb6\x85\xe7\xd0\x18\x50\x07\x3c\x97\xec\xc2\x0a\xee\xb6\x99\xa3\x0c",
    },
    File {
        place: "/w/ds/.dlrepo/objects/ca/612f923187ce8cfcaed3c94e2c5c9ec3f8b3e4",
        bytes: b"commit 208\0\
              tree 1f91a0de39b98fe60987ff11d3c46d472a5311fa\n\
              parent 6149941c1fcb7a565aced3bb19722e854a8a15b3\n\
              author DataLad User <user@localhost> 1700000100 +0000\n\
              committer DataLad User <user@localhost> 1700000100 +0000\n\
              \n\
              a\n",
    },
];

/// The branch after it.
pub(super) const TIP: File<'static> = File {
    place: "/w/ds/.dlrepo/refs/heads/main",
    bytes: b"ca612f923187ce8cfcaed3c94e2c5c9ec3f8b3e4\n",
};

/// The index after it.
pub(super) const INDEX: File<'static> = File {
    place: "/w/ds/.dlrepo/index",
    bytes: b"DIRC\0\0\0\x02\0\0\0\x02\
          \0\0\0\0\0\0\0\0\0\0\0\0\0\0\0\0\0\0\0\0\0\0\0\0\
          \0\0\x81\xa4\0\0\0\0\0\0\0\0\0\0\0\0\
          \xd4\x18]/\xf8Q\xe1\xa9\x97\xee#a\xff\x8c\xba\xd6M{\xe1\xa2\
          \0\x0f.datalad/config\0\0\0\
          \0\0\0\0\0\0\0\0\0\0\0\0\0\0\0\0\0\0\0\0\0\0\0\0\
          \0\0\x81\xa4\0\0\0\0\0\0\0\0\0\0\0\0\
          9\xb3\xec\xb6\x85\xe7\xd0\x18P\x07<\x97\xec\xc2\x0a\xee\xb6\x99\xa3\x0c\
          \0\x09hello.txt\0\
          T'\xdf\xa5\xbd0\xbe%a\xf8i\x13\x14\x89\x04\xa8\xa8\x12\x96\x1d",
};

/// The call that saves it.
pub(super) const SAVE: Row<'static> = Row {
    words: "save -m a",
    code: 0,
    out: "add(ok): hello.txt (file)\nsave(ok): . (dataset)\n",
    err: "",
};

const CLEAN: Row<'static> = Row {
    words: "status",
    code: 0,
    out: "nothing to save, working tree clean\n",
    err: "",
};

const UNCHANGED: Row<'static> = Row {
    words: "save",
    code: 0,
    out: "save(notneeded): . (dataset)\n",
    err: "",
};

const LACKED: Row<'static> = Row {
    words: "status",
    code: 0,
    out: " modified: hello.txt (file)\n",
    err: "",
};

const KEPT_AGAIN: Row<'static> = Row {
    words: "save",
    code: 0,
    out: "add(ok): hello.txt (file)\nsave(notneeded): . (dataset)\n",
    err: "",
};

fn call(rt: &impl Abort, alloc: Global, files: &mut MemFiles, row: &Row<'_>) {
    says_in(rt, alloc, files, "/w/ds", row);
}

fn write(rt: &impl Abort, alloc: Global, files: &mut MemFiles, file: &File<'_>) {
    let written = files.write(alloc, &place(rt, alloc, file.place), file.bytes);
    written.expect(rt, "written");
}

fn remove(rt: &impl Abort, alloc: Global, files: &mut MemFiles, text: &str) {
    let removed = files.remove(alloc, &place(rt, alloc, text));
    removed.expect(rt, "removed");
}

// The dataset with `hello.txt` saved.
fn saved(rt: &impl Abort, alloc: Global) -> MemFiles {
    let mut files = MemFiles::new(alloc);
    says(rt, alloc, &mut files, &MADE);
    write(rt, alloc, &mut files, &HELLO);
    call(rt, alloc, &mut files, &SAVE);
    files
}

// What stands with it saved: the dataset with its new branch and index, and the rest of it.
fn stands(rt: &impl Abort, alloc: Global, files: &MemFiles) {
    let set = with(rt, alloc, &DATASET, TIP);
    let mut list = with(rt, alloc, set.as_slice(), INDEX);
    for file in [HELLO, CONTENT, LOG].iter().chain(&OBJECTS) {
        list.push(*file).expect(rt, "memory");
    }
    let wanted = memory_of(rt, alloc, list.as_slice());
    let rows = super::files::list_of(rt, alloc, &wanted);
    let rows = super::files::rows_of(rt, alloc, rows.as_slice());
    holds(rt, alloc, files, rows.as_slice());
}

#[test]
fn a_file_is_annexed(rt: HostRuntime) {
    let (rt, alloc) = (&rt, rt.alloc());
    let mut files = saved(rt, alloc);
    stands(rt, alloc, &files);
    call(rt, alloc, &mut files, &CLEAN);
    call(rt, alloc, &mut files, &UNCHANGED);
    stands(rt, alloc, &files);
}

// An index that is none, or none at all, refuses nothing, and is whole after the next save.
#[test]
fn a_bad_index_is_made_whole(rt: HostRuntime) {
    let (rt, alloc) = (&rt, rt.alloc());
    let mut files = saved(rt, alloc);
    for bytes in [&INDEX.bytes[..10], &[], DATASET[3].bytes] {
        let file = File {
            place: INDEX.place,
            bytes,
        };
        write(rt, alloc, &mut files, &file);
        call(rt, alloc, &mut files, &CLEAN);
        call(rt, alloc, &mut files, &UNCHANGED);
        stands(rt, alloc, &files);
    }
    remove(rt, alloc, &mut files, INDEX.place);
    call(rt, alloc, &mut files, &UNCHANGED);
    stands(rt, alloc, &files);
}

#[test]
fn a_pointer_stands_for_its_content(rt: HostRuntime) {
    let (rt, alloc) = (&rt, rt.alloc());
    let mut files = saved(rt, alloc);
    for bytes in [POINTER, &POINTER[..95]] {
        let file = File {
            place: HELLO.place,
            bytes,
        };
        write(rt, alloc, &mut files, &file);
        call(rt, alloc, &mut files, &CLEAN);
        call(rt, alloc, &mut files, &UNCHANGED);
    }
}

#[test]
fn a_lacked_content_is_kept_again(rt: HostRuntime) {
    let (rt, alloc) = (&rt, rt.alloc());
    let mut files = saved(rt, alloc);
    remove(rt, alloc, &mut files, CONTENT.place);
    call(rt, alloc, &mut files, &LACKED);
    call(rt, alloc, &mut files, &KEPT_AGAIN);
    stands(rt, alloc, &files);
    call(rt, alloc, &mut files, &CLEAN);
}

#[test]
fn a_file_gives_way_to_a_directory(rt: HostRuntime) {
    let (rt, alloc) = (&rt, rt.alloc());
    let mut files = saved(rt, alloc);
    remove(rt, alloc, &mut files, HELLO.place);
    let file = File {
        place: "/w/ds/hello.txt/x",
        bytes: b"x",
    };
    write(rt, alloc, &mut files, &file);
    let row = Row {
        words: "save",
        code: 0,
        out: "delete(ok): hello.txt (file)\nadd(ok): hello.txt/x (file)\nsave(ok): . (dataset)\n",
        err: "",
    };
    call(rt, alloc, &mut files, &row);
    call(rt, alloc, &mut files, &CLEAN);
}

// With `--to-git` the same file is a blob of its bytes, and nothing is annexed.
#[test]
fn a_file_is_kept_in_git(rt: HostRuntime) {
    let (rt, alloc) = (&rt, rt.alloc());
    let mut files = MemFiles::new(alloc);
    says(rt, alloc, &mut files, &MADE);
    write(rt, alloc, &mut files, &HELLO);
    let row = Row {
        words: "save -m a --to-git",
        ..SAVE
    };
    call(rt, alloc, &mut files, &row);
    let blob = place(
        rt,
        alloc,
        "/w/ds/.dlrepo/objects/ce/013625030ba8dba906f756967f9e9ca394464a",
    );
    let blob = files.read(alloc, &blob).expect(rt, "read");
    let blob = blob.expect(rt, "a blob");
    assert!(rt; blob.as_slice() == IN_GIT);
    let content = files.size(alloc, &place(rt, alloc, CONTENT.place));
    assert!(rt; content.expect(rt, "a size").is_none());
    // and it stays there without `--to-git`
    call(rt, alloc, &mut files, &UNCHANGED);
}
