// Ids, trees and commits beside git's own (`git hash-object`, `git mktree`, `git commit-tree`).
ghost use Rattle.std.specs.Prelude.{◌≡◌};

use super::common::{are_bytes, holds, holds_at, is_text, text};
use git_objects::{
    Commit, Id, Mode, ObjErr, ObjKind, Person, Tree, TreeEntry, are_entries, blob_id, is_extra,
    is_person, object_id, object_text, read_object, reread_commit, reread_tree, rewrite_commit,
    rewrite_tree, texts_have_one_reading,
};
use places::Bytes;
use std::alloc::Global;
use std::process::Abort;

const HELLO: &[u8] = b"ce013625030ba8dba906f756967f9e9ca394464a";

const NO_TREE: &[u8] = b"4b825dc642cb6eb9a060e54bf8d69288fbee4904";

fn id(rt: &impl Abort, hex: &[u8]) -> Id {
    Id::from_hex(hex).expect(rt, "an id")
}

fn bytes(rt: &impl Abort, alloc: Global, value: &[u8]) -> Bytes
    ensures { result ≡ value.now }
{
    Bytes::new(Vec::from_slice(alloc, value).expect(rt, "memory"))
}

fn is_id(rt: &impl Abort, got: Id, hex: &[u8]) {
    are_bytes(rt, &got.to_hex(), hex);
}

#[test]
fn ids_are_gits(rt: HostRuntime) {
    let (rt, alloc) = (&rt, rt.alloc());
    is_id(
        rt,
        blob_id(b""),
        b"e69de29bb2d1d6434b8b29ae775ad8c2e48c5391",
    );
    is_id(rt, blob_id(b"hello\n"), HELLO);
    is_id(rt, object_id(ObjKind::Tree, b""), NO_TREE);
    is_id(
        rt,
        id(rt, b"CE013625030BA8dba906f756967f9e9ca394464a"),
        HELLO,
    );
    holds_at(rt, id(rt, NO_TREE) < id(rt, HELLO), HELLO);
    let stored = object_text(alloc, ObjKind::Tag, b"body of ten").expect(rt, "memory");
    are_bytes(rt, stored.as_slice(), b"tag 11\0body of ten");
}

#[test]
fn ids_are_refused(rt: HostRuntime) {
    for hex in [
        b"ce013625030ba8dba906f756967f9e9ca394464".as_slice(),
        b"ce013625030ba8dba906f756967f9e9ca394464a0",
        b"ge013625030ba8dba906f756967f9e9ca394464a",
        b"",
    ] {
        holds_at(&rt, Id::from_hex(hex).is_none(), hex);
    }
}

fn reads_to(rt: &impl Abort, text: &[u8], read: Option<(ObjKind, usize)>) {
    holds_at(rt, read_object(text) == read, text);
}

#[test]
fn texts_are_read(rt: HostRuntime) {
    reads_to(&rt, b"blob 1\0x", Some((ObjKind::Blob, 7)));
    reads_to(&rt, b"tag 0\0", Some((ObjKind::Tag, 6)));
    reads_to(&rt, b"tree 3\0a\0b", Some((ObjKind::Tree, 7)));
    reads_to(&rt, b"commit 2\0ab", Some((ObjKind::Commit, 9)));
    for text in [
        b"blob 01\0x".as_slice(),
        b"blob 2\0x",
        b"blob 1 \0x",
        b"blob\0",
        b"blobs 0\0",
        b"blob 0",
        b"",
    ] {
        reads_to(&rt, text, None);
    }
}

fn entry(rt: &impl Abort, alloc: Global, row: &(Mode, &str, &[u8])) -> TreeEntry {
    TreeEntry {
        mode: row.0,
        name: text(rt, alloc, row.1),
        id: id(rt, row.2),
    }
}

fn entries(rt: &impl Abort, alloc: Global, rows: &[(Mode, &str, &[u8])]) -> Vec<TreeEntry> {
    let mut entries = Vec::new(alloc);
    for row in rows {
        entries.push(entry(rt, alloc, row)).expect(rt, "memory");
    }
    entries
}

fn tree(rt: &impl Abort, alloc: Global, rows: &[(Mode, &str, &[u8])]) -> Tree {
    let entries = entries(rt, alloc, rows);
    if !are_entries(entries.as_slice()) {
        rt.abort();
    }
    Tree { entries }
}

#[test]
fn trees_are_gits(rt: HostRuntime) {
    let (rt, alloc) = (&rt, rt.alloc());
    let rows = [
        (Mode::File, "a.b", HELLO),
        (Mode::Dir, "a", b"e31a96220fbfbe7601ecc086a36b96dc27a8867e"),
        (Mode::File, "a0", HELLO),
        (Mode::Exec, "e", HELLO),
        (Mode::Link, "l", b"f6f28df96c2b40c951164286e08be7c38ec74851"),
    ];
    let tree = tree(rt, alloc, &rows);
    let body = tree.encode(alloc).expect(rt, "memory");
    let body = body.as_slice();
    is_id(
        rt,
        object_id(ObjKind::Tree, body),
        b"327677597d2b8ac27d8ea295cc1ce141de4b4845",
    );
    let read = reread_tree(alloc, &tree).expect(rt, "memory");
    assert_eq!(rt; read.entries.len(), 5);
    is_text(rt, read.entries[1].name.as_str(), "a");
    let written = rewrite_tree(alloc, body).expect(rt, "a tree");
    are_bytes(rt, written.as_slice(), body);
    texts_have_one_reading();
}

const NO_TREES: [[(Mode, &str); 3]; 10] = [
    [(Mode::Dir, "a"), (Mode::File, "a.b"), (Mode::File, "a0")],
    [(Mode::File, "b"), (Mode::File, "a"), (Mode::File, "c")],
    [(Mode::File, "a"), (Mode::File, "a.b"), (Mode::Dir, "a")],
    [(Mode::File, "a"), (Mode::Exec, "a"), (Mode::File, "b")],
    [(Mode::File, ""), (Mode::File, "a"), (Mode::File, "b")],
    [(Mode::Dir, "."), (Mode::File, "a"), (Mode::File, "b")],
    [(Mode::Dir, ".."), (Mode::File, "a"), (Mode::File, "b")],
    [(Mode::Dir, ".git"), (Mode::File, "a"), (Mode::File, "b")],
    [(Mode::Pin, ".dlrepo"), (Mode::File, "a"), (Mode::File, "b")],
    [(Mode::File, "a"), (Mode::File, "a/b"), (Mode::File, "b")],
];

fn is_no_tree(rt: &impl Abort, alloc: Global, row: &[(Mode, &str); 3]) {
    let [one, two, three] = row;
    let rows = [
        (one.0, one.1, HELLO),
        (two.0, two.1, HELLO),
        (three.0, three.1, HELLO),
    ];
    let entries = entries(rt, alloc, &rows);
    holds(rt, !are_entries(entries.as_slice()), one.1);
}

#[test]
fn trees_refuse(rt: HostRuntime) {
    for row in &NO_TREES {
        is_no_tree(&rt, rt.alloc(), row);
    }
}

fn person(
    rt: &impl Abort,
    alloc: Global,
    name: &str,
    email: &str,
    secs: u64,
    zone: &[u8; 5],
) -> Person {
    if !is_person(name, email, zone) {
        rt.abort();
    }
    Person {
        name: text(rt, alloc, name),
        email: text(rt, alloc, email),
        secs,
        zone: *zone,
    }
}

// A commit on one parent, with two further lines.
fn commit(rt: &impl Abort, alloc: Global) -> Commit {
    let extra = b"encoding latin1\ngpgsig -----BEGIN\n line two\n -----END\n";
    if !is_extra(extra) {
        rt.abort();
    }
    Commit {
        tree: id(rt, NO_TREE),
        parents: [id(rt, HELLO)].to_vec(alloc).expect(rt, "memory"),
        author: person(rt, alloc, "A U Thor", "a@b.c", 1700000000, b"+0130"),
        committer: person(rt, alloc, "C O Mitter", "", 0, b"-0500"),
        extra: bytes(rt, alloc, extra),
        message: bytes(rt, alloc, b"First line\n\nsecond\n"),
    }
}

#[test]
fn commits_are_gits(rt: HostRuntime) {
    let (rt, alloc) = (&rt, rt.alloc());
    let body = commit(rt, alloc).encode(alloc).expect(rt, "memory");
    let known = b"87a2fea348b8ab39dda5fefa3b198366d4bb1ddb";
    is_id(rt, object_id(ObjKind::Commit, body.as_slice()), known);
}

#[test]
fn people(rt: HostRuntime) {
    holds(&rt, is_person("", "", b"+0000"), "no name");
    for (name, email, zone) in [
        ("a<b", "c", b"+0000".as_slice()),
        ("a", "b>c", b"+0000"),
        ("a\nb", "c", b"+0000"),
        ("a", "b\0c", b"+0000"),
        ("a", "b", b" 0000"),
        ("a", "b", b"+000"),
        ("a", "b", b"+00000"),
        ("a", "b", b"-00a0"),
    ] {
        holds(&rt, !is_person(name, email, zone), name);
    }
}

#[test]
fn further_lines(rt: HostRuntime) {
    for extra in [b"".as_slice(), b"encoding latin1\n", b"gpgsig a\n b\n"] {
        holds_at(&rt, is_extra(extra), extra);
    }
    for extra in [
        b"encoding latin1".as_slice(),
        b" b\n",
        b"\n",
        b"a b\n\n",
        b"a b\0\n",
        b"a b\ntree c\n",
        b"parent c\n",
        b"author c\n",
        b"committer c\n",
    ] {
        holds_at(&rt, !is_extra(extra), extra);
    }
}

// Where a body stops being an object's. None where it is one.
fn stop(rt: &impl Abort, error: Option<ObjErr>) -> Option<u64> {
    match error {
        None => None,
        Some(ObjErr::BadTree { at } | ObjErr::BadCommit { at }) => Some(at),
        _ => rt.abort(),
    }
}

fn tree_stops(rt: &impl Abort, alloc: Global, body: &[u8], at: Option<u64>) {
    let error = Tree::decode(alloc, body).err();
    holds_at(rt, stop(rt, error) == at, body);
}

#[test]
fn trees_are_read(rt: HostRuntime) {
    for (body, stop) in [
        (b"".as_slice(), None),
        (b"40000 a\012345678901234567890", None),
        (b"100644 a\01234567890", Some(0)),
        (b"100664 a\012345678901234567890", Some(0)),
        (b"040000 a\012345678901234567890", Some(0)),
        (
            b"100644 a\012345678901234567890100644 a\012345678901234567890",
            Some(29),
        ),
        (
            b"100644 b\012345678901234567890100644 a\012345678901234567890",
            Some(29),
        ),
        (b"100644 a\0123456789012345678901", Some(29)),
    ] {
        tree_stops(&rt, rt.alloc(), body, stop);
    }
}

const TREE: &[u8] = b"tree 4b825dc642cb6eb9a060e54bf8d69288fbee4904\n";

const PARENT: &[u8] = b"parent d4ff1b068fcc129f2ca38c278e6590bb0c239fef\n";

const AUTHOR: &[u8] = b"author A U Thor <a@b.c> 1700000000 +0130\n";

const COMMITTER: &[u8] = b"committer C O Mitter <c@d> 1700000060 -0500\n";

const SIGNED: &[u8] =
    b"encoding latin1\ngpgsig -----BEGIN SIGNATURE-----\n \n iQE=\n -----END SIGNATURE-----\n";

#[test]
fn commits_are_read(rt: HostRuntime) {
    let (rt, alloc) = (&rt, rt.alloc());
    let parts = [
        TREE,
        PARENT,
        AUTHOR,
        COMMITTER,
        SIGNED,
        b"\nSecond\n\nbody\n",
    ];
    let body = parts.concat(alloc).expect(rt, "memory");
    let body = body.as_slice();
    is_id(
        rt,
        object_id(ObjKind::Commit, body),
        b"4e3d585d4a17469627f020f43fa5ac560e1ffe06",
    );
    let commit = Commit::decode(alloc, body).expect(rt, "a commit");
    holds(rt, commit.parents.len() == 1, "one parent");
    holds(rt, commit.author.secs == 1700000000, "seconds");
    is_text(rt, commit.committer.email.as_str(), "c@d");
    are_bytes(rt, commit.message.as_slice(), b"Second\n\nbody\n");
    let again = reread_commit(alloc, &commit).expect(rt, "memory");
    are_bytes(rt, again.extra.as_slice(), SIGNED);
    let written = rewrite_commit(alloc, body).expect(rt, "a commit");
    are_bytes(rt, written.as_slice(), body);
}

fn commit_stops(rt: &impl Abort, alloc: Global, body: &[u8], at: Option<u64>) {
    let error = Commit::decode(alloc, body).err();
    holds_at(rt, stop(rt, error) == at, body);
}

// The same after the lines of a tree, a parent and an author.
fn later_stops(rt: &impl Abort, alloc: Global, more: &[u8], stop: Option<u64>) {
    let parts = [TREE, PARENT, AUTHOR, more];
    let body = parts.concat(alloc).expect(rt, "memory");
    commit_stops(rt, alloc, body.as_slice(), stop);
}

#[test]
fn commits_stop(rt: HostRuntime) {
    for (more, stop) in [
        (b"".as_slice(), Some(135)),
        (b"committer C <> 0 +0000\n\n", None),
        (b"committer C <> 0 +0000\na b\n\nm", None),
        (b"committer C <> 0 +0000", Some(135)),
        (b"committer C <> 0 +0000\n", Some(158)),
        (b"committer C <> 0 +0000\na b\n", Some(162)),
        (b"committer C <> 0 +0000\ntree 4\n\n", Some(158)),
        (b"committer C <> 0 +0000\n a\n\n", Some(158)),
        (b"committer C <> 00 +0000\n\n", Some(135)),
        (b"committer C <> 18446744073709551616 +0000\n\n", Some(135)),
        (b"committer C  0 +0000\n\n", Some(135)),
        (b"author C <> 0 +0000\n\n", Some(135)),
    ] {
        later_stops(&rt, rt.alloc(), more, stop);
    }
}

#[test]
fn first_lines_stop(rt: HostRuntime) {
    for (body, stop) in [
        (b"".as_slice(), 0),
        (b"tree 4b825dc642cb6eb9a060e54bf8d69288fbee490\n", 0),
        (b"tree 4B825dc642cb6eb9a060e54bf8d69288fbee4904\n", 0),
        (
            b"tree 4b825dc642cb6eb9a060e54bf8d69288fbee4904\ntree 4b",
            46,
        ),
    ] {
        commit_stops(&rt, rt.alloc(), body, Some(stop));
    }
}
