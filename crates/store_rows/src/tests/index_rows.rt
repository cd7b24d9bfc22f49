// The index of a dataset: written as `git update-index` writes it, known again, and replaced where it is another's.
use super::common::{are_bytes, id, place, put};
use file_store::{Files, MemFiles, Place, Text};
use index_store::{has_index, keep_index};
use snapshot::{Entry, Leaf, Snapshot};
use std::alloc::Global;
use std::process::Abort;

const INDEX: &str = "/w/ds/.dlrepo/index";

// Of a file and an executable one, each `hello\n`.
const BYTES: &[u8] = b"DIRC\0\0\0\x02\0\0\0\x02\
      \0\0\0\0\0\0\0\0\0\0\0\0\0\0\0\0\0\0\0\0\0\0\0\0\
      \0\0\x81\xa4\0\0\0\0\0\0\0\0\0\0\0\0\
      \xce\x016%\x03\x0b\xa8\xdb\xa9\x06\xf7V\x96\x7f\x9e\x9c\xa3\x94FJ\
      \0\x0f.datalad/config\0\0\0\
      \0\0\0\0\0\0\0\0\0\0\0\0\0\0\0\0\0\0\0\0\0\0\0\0\
      \0\0\x81\xed\0\0\0\0\0\0\0\0\0\0\0\0\
      \xce\x016%\x03\x0b\xa8\xdb\xa9\x06\xf7V\x96\x7f\x9e\x9c\xa3\x94FJ\
      \0\x02a0\0\0\0\0\0\0\0\0\
      \x1c\xc8\x86\x5c@\xbbE~\0\x9d\x96\x99\x1c\x02|z:\x043\xe6";

fn entry(rt: &impl Abort, alloc: Global, path: &str, exec: bool) -> Entry {
    let id = id(rt, b"ce013625030ba8dba906f756967f9e9ca394464a");
    let path = String::from_str(alloc, path).expect(rt, "memory");
    Entry {
        path: Text::new(path),
        leaf: Leaf::Git { id, exec },
    }
}

fn snapshot(rt: &impl Abort, alloc: Global) -> Snapshot {
    let mut entries = Vec::new(alloc);
    let config = entry(rt, alloc, ".datalad/config", false);
    entries.push(config).expect(rt, "memory");
    entries
        .push(entry(rt, alloc, "a0", true))
        .expect(rt, "memory");
    Snapshot::new(entries).expect(rt, "a snapshot")
}

fn has(rt: &impl Abort, alloc: Global, files: &mut MemFiles, root: &Place) -> bool {
    has_index(alloc, files, root, &snapshot(rt, alloc)).expect(rt, "read")
}

// It is made that of the snapshot, and has these bytes then.
fn keeps(rt: &impl Abort, alloc: Global, files: &mut MemFiles, root: &Place, want: &[u8]) {
    let snapshot = snapshot(rt, alloc);
    let is = has_index(alloc, files, root, &snapshot).expect(rt, "read");
    keep_index(alloc, files, root, &snapshot, is).expect(rt, "kept");
    let found = files.read(alloc, &place(rt, alloc, INDEX));
    let found = found.expect(rt, "read").expect(rt, "a file");
    are_bytes(rt, found.as_slice(), want);
}

#[test]
fn an_index_is_made_that_of_a_snapshot(rt: HostRuntime) {
    let (rt, alloc) = (&rt, rt.alloc());
    let mut files = MemFiles::new(alloc);
    let root = place(rt, alloc, "/w/ds");
    assert!(rt; !has(rt, alloc, &mut files, &root));
    keeps(rt, alloc, &mut files, &root, BYTES);
    assert!(rt; has(rt, alloc, &mut files, &root));
    for bytes in [&BYTES[..10], &BYTES[..BYTES.len() - 1], b""] {
        put(rt, alloc, &mut files, INDEX, bytes);
        assert!(rt; !has(rt, alloc, &mut files, &root));
        keeps(rt, alloc, &mut files, &root, BYTES);
    }
}
