// Logs of commits that git has made of the same fields: whole texts, and what is refused.
use super::*;
use crate::logs::log_from;
use faults::{Fault, Trouble};
use file_store::{Bytes, MemFiles, Place};
use git_objects::{Id, ObjKind};
use object_store::{NewObject, put_all};
use std::alloc::Global;
use std::process::Abort;
use std::test::Fail;

// `git hash-object -t tree /dev/null`
const NO_TREE: &[u8] = b"4b825dc642cb6eb9a060e54bf8d69288fbee4904";

// `git hash-object -t commit` of commits of that tree, each by A <a@b> at 1700000000 +0000; each but the first has the
// one before as its parent, and the fifth has the side's as its second one
const FIRST: &[u8] = b"26e710412843c76ebb91294e399a0ecf46ff2e2c";

const SECOND: &[u8] = b"cfa8747ca2c5a8607491703faacd6749068cf178";

const THIRD: &[u8] = b"18ec8c40b48ec1bfe46796b959a2874d1cac8e2f";

const FOURTH: &[u8] = b"f6a17923039801e69127ebdf7dc9dedb3dd62a86";

const SIDE: &[u8] = b"f04d193dfd21d14feaeb93aeda809b3008115985";

const MERGED: &[u8] = b"fcac530e828a181c23f1770c25c8115981164ed7";

const LAST: &[u8] = b"b67dc44db7afa977453fc2dfa09d0926010185b2";

// The parents and the message of each.
const COMMITS: [(&[&[u8]], &[u8]); 7] = [
    (&[], b"first\n\nbody\n"),
    (&[FIRST], b"no newline"),
    (&[SECOND], b"\xff\xfe title\nmore"),
    (&[THIRD], b""),
    (&[], b"side\n"),
    (&[FOURTH, SIDE], b"merged\n"),
    (&[MERGED], b"\nsecond line\n"),
];

const FIRST_LOG: &[u8] = b"26e710412843c76ebb91294e399a0ecf46ff2e2c first\n";

const SIDE_LOG: &[u8] = b"f04d193dfd21d14feaeb93aeda809b3008115985 side\n";

const THIRD_LOG: &[u8] = b"18ec8c40b48ec1bfe46796b959a2874d1cac8e2f \xff\xfe title
cfa8747ca2c5a8607491703faacd6749068cf178 no newline
26e710412843c76ebb91294e399a0ecf46ff2e2c first
";

const LAST_LOG: &[u8] = b"b67dc44db7afa977453fc2dfa09d0926010185b2 
fcac530e828a181c23f1770c25c8115981164ed7 merged
f6a17923039801e69127ebdf7dc9dedb3dd62a86 
18ec8c40b48ec1bfe46796b959a2874d1cac8e2f \xff\xfe title
cfa8747ca2c5a8607491703faacd6749068cf178 no newline
26e710412843c76ebb91294e399a0ecf46ff2e2c first
";

// HEAD and its branch.
const REFS: [(&str, &[u8]); 2] = [
    ("/r/.dlrepo/HEAD", b"ref: refs/heads/main\n"),
    (
        "/r/.dlrepo/refs/heads/main",
        b"b67dc44db7afa977453fc2dfa09d0926010185b2\n",
    ),
];

fn id(rt: &impl Abort, hex: &[u8]) -> Id {
    Id::from_hex(hex).expect(rt, "an id")
}

fn place(rt: &impl Abort, alloc: Global, text: &str) -> Place {
    Place::parse(alloc, text).expect(rt, "a place")
}

// The object of a commit with these parents and this message.
fn object(alloc: Global, parents: &[&[u8]], message: &[u8]) -> Result<NewObject, Fail> {
    let mut body = Vec::from_slice(alloc, b"tree 4b825dc642cb6eb9a060e54bf8d69288fbee4904\n")?;
    for parent in parents {
        body.extend_from_slice(b"parent ")?;
        body.extend_from_slice(parent)?;
        body.push(b'\n')?;
    }
    body.extend_from_slice(b"author A <a@b> 1700000000 +0000\n")?;
    body.extend_from_slice(b"committer A <a@b> 1700000000 +0000\n\n")?;
    body.extend_from_slice(message)?;
    Ok(NewObject {
        kind: ObjKind::Commit,
        body: Bytes::new(body),
    })
}

// A repository that holds all of them but this one, on a branch at the last.
fn held(rt: &impl Abort, alloc: Global, repo: &Place, lost: &[u8]) -> Result<MemFiles, Fail> {
    let mut objects = Vec::new(alloc);
    for (parents, message) in COMMITS {
        let object = object(alloc, parents, message)?;
        if object.id() != id(rt, lost) {
            objects.push(object)?;
        }
    }
    let mut list = Vec::new(alloc);
    for (at, text) in REFS {
        list.push((place(rt, alloc, at), text.to_vec(alloc)?))?;
    }
    let mut files = MemFiles::from_list(alloc, list).expect(rt, "files");
    assert!(rt; put_all(alloc, &mut files, repo, objects.as_slice()).is_ok());
    Ok(files)
}

#[test]
fn logs_of_commits(rt: HostRuntime) -> Result<(), Fail> {
    let alloc = rt.alloc();
    let repo = place(&rt, alloc, "/r/.dlrepo");
    let mut files = held(&rt, alloc, &repo, NO_TREE)?;
    for (start, text) in [
        (FIRST, FIRST_LOG),
        (SIDE, SIDE_LOG),
        (THIRD, THIRD_LOG),
        (LAST, LAST_LOG),
    ] {
        let log = log_from(alloc, &mut files, &repo, &id(&rt, start)).expect(&rt, "a log");
        assert_eq!(&rt; log.as_slice(), text);
    }
    Ok(())
}

// The commit that is missing for the log from another.
fn missed(rt: &impl Abort, alloc: Global, start: &[u8], lost: &[u8]) -> Result<Option<Id>, Fail> {
    let repo = place(rt, alloc, "/r/.dlrepo");
    let mut files = held(rt, alloc, &repo, lost)?;
    match log_from(alloc, &mut files, &repo, &id(rt, start)) {
        Ok(_) => Ok(None),
        Err(Trouble::Refused(Fault::Missing { id })) => Ok(Some(Id(id))),
        Err(_) => Err(Fail::from("missing")),
    }
}

#[test]
fn lost_commits(rt: HostRuntime) -> Result<(), Fail> {
    let alloc = rt.alloc();
    for (start, lost, is_missed) in [
        (FIRST, FIRST, true),
        (LAST, SECOND, true),
        (LAST, SIDE, false),
        (SECOND, THIRD, false),
    ] {
        let missed = missed(&rt, alloc, start, lost)?;
        assert!(&rt; missed == is_missed.then_some(id(&rt, lost)));
    }
    Ok(())
}

#[test]
fn logs_of_words(rt: HostRuntime) -> Result<(), Fail> {
    let alloc = rt.alloc();
    let repo = place(&rt, alloc, "/r/.dlrepo");
    let mut files = held(&rt, alloc, &repo, NO_TREE)?;
    for (word, text) in [
        ("HEAD", LAST_LOG),
        ("main", LAST_LOG),
        ("HEAD~3", THIRD_LOG),
        ("main^~2", THIRD_LOG),
        ("f04d193dfd21d14feaeb93aeda809b3008115985", SIDE_LOG),
    ] {
        let log = log(alloc, &mut files, &repo, word).expect(&rt, "a log");
        assert_eq!(&rt; log.as_slice(), text);
    }
    for word in ["HEAD~6", "side"] {
        match log(alloc, &mut files, &repo, word) {
            Err(Trouble::Refused(Fault::NoSuchRevision { word: named })) => {
                assert_eq!(&rt; named.as_str(), word);
            }
            _ => return Err(Fail::from("no such revision")),
        }
    }
    Ok(())
}
