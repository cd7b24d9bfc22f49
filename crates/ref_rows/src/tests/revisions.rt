// Revision words, and the commits to which they lead: three commits one after the other, as git names them.
use super::{ON_MAIN, bytes, place};
use faults::{Fault, Trouble};
use file_store::{Bytes, MemFiles};
use git_objects::{Id, ObjKind};
use object_store::{NewObject, put_all};
use ref_store::resolve;
use std::alloc::Global;
use std::process::Abort;

// `git commit-tree` of the empty tree, at 1700000000 and the two seconds after it, each with the one before as parent
const FIRST: &str = "6d8fa54579de5809bc40ed59be8c0af800aab82b";

const SECOND: &str = "09617376f1c9d12393c90a7fe5a64b613f7fa1d6";

const THIRD: &str = "97813dbc360de4d7a82a79005fe8afa2f8dedb5c";

// the same at 1700000003, with a parent that isn't held
const LOST: &str = "382bd5f7368bf0d8aa5e727c1cffe5369967604b";

const GONE: &str = "1111111111111111111111111111111111111111";

// the same without a parent at 1700000566 and 1700000858
const TWIN: &str = "df6a3a5622535fca73b36bbb53724292de9e1dde";

const OTHER_TWIN: &str = "df6aad61898a1c76fe1fa5203cbd738e671a0bf8";

// A commit of the empty tree by its moment and its parent's line.
fn commit(rt: &impl Abort, alloc: Global, secs: &str, parent: &str) -> NewObject {
    let tree = "4b825dc642cb6eb9a060e54bf8d69288fbee4904";
    let person = "A <a@b>";
    let body = format!(in alloc;
        "tree {tree}\n{parent}author {person} {secs} +0000\ncommitter {person} {secs} +0000\n\nm\n"
    ).expect(rt, "memory");
    NewObject {
        kind: ObjKind::Commit,
        body: Bytes::new(bytes(rt, alloc, body.as_str())),
    }
}

fn add(rt: &impl Abort, list: &mut Vec<NewObject>, object: NewObject) {
    let pushed = list.push(object);
    assert!(rt; pushed.is_ok());
}

// The commits, and the blob `hello\n`.
fn objects(rt: &impl Abort, alloc: Global) -> Vec<NewObject> {
    let mut list = Vec::new(alloc);
    add(rt, &mut list, commit(rt, alloc, "1700000000", ""));
    let parent = "parent 6d8fa54579de5809bc40ed59be8c0af800aab82b\n";
    add(rt, &mut list, commit(rt, alloc, "1700000001", parent));
    let parent = "parent 09617376f1c9d12393c90a7fe5a64b613f7fa1d6\n";
    add(rt, &mut list, commit(rt, alloc, "1700000002", parent));
    let parent = "parent 1111111111111111111111111111111111111111\n";
    add(rt, &mut list, commit(rt, alloc, "1700000003", parent));
    add(rt, &mut list, commit(rt, alloc, "1700000566", ""));
    add(rt, &mut list, commit(rt, alloc, "1700000858", ""));
    let body = Bytes::new(bytes(rt, alloc, "hello\n"));
    let kind = ObjKind::Blob;
    add(rt, &mut list, NewObject { kind, body });
    list
}

// HEAD on `main`, which is at the third commit; `first` at the first, `lost` at the lost one, and a branch with the
// second one's digits for a name, which is at the first.
fn dataset(rt: &impl Abort, alloc: Global) -> MemFiles {
    let mut list = Vec::new(alloc);
    let places = [
        ("/r/.dlrepo/HEAD", ON_MAIN),
        (
            "/r/.dlrepo/refs/heads/main",
            "97813dbc360de4d7a82a79005fe8afa2f8dedb5c\n",
        ),
        (
            "/r/.dlrepo/refs/heads/first",
            "6d8fa54579de5809bc40ed59be8c0af800aab82b\n",
        ),
        (
            "/r/.dlrepo/refs/heads/lost",
            "382bd5f7368bf0d8aa5e727c1cffe5369967604b\n",
        ),
        (
            "/r/.dlrepo/refs/heads/09617376f1c9d12393c90a7fe5a64b613f7fa1d6",
            "6d8fa54579de5809bc40ed59be8c0af800aab82b\n",
        ),
        ("/r/.dlrepo/refs/heads/damaged", "97813dbc\n"),
    ];
    for (at, text) in places {
        let pushed = list.push((place(rt, alloc, at), bytes(rt, alloc, text)));
        assert!(rt; pushed.is_ok());
    }
    let mut files = MemFiles::from_list(alloc, list).expect(rt, "files");
    let repo = place(rt, alloc, "/r/.dlrepo");
    let put = put_all(alloc, &mut files, &repo, objects(rt, alloc).as_slice());
    assert!(rt; put.is_ok());
    files
}

fn id_of(rt: &impl Abort, digits: &str) -> Id {
    Id::from_hex(digits.as_bytes()).expect(rt, "an id")
}

#[test]
fn words_lead(rt: HostRuntime) {
    let alloc = rt.alloc();
    let repo = place(&rt, alloc, "/r/.dlrepo");
    let mut files = dataset(&rt, alloc);
    for (word, want) in [
        ("HEAD", THIRD),
        ("HEAD^", SECOND),
        ("HEAD~", SECOND),
        ("HEAD~1", SECOND),
        ("HEAD~2", FIRST),
        ("HEAD^^", FIRST),
        ("HEAD^~1", FIRST),
        ("HEAD~0~1^", FIRST),
        ("main~0", THIRD),
        ("first", FIRST),
        ("lost", LOST),
        ("97813DBC360DE4D7A82A79005FE8AFA2F8DEDB5C", THIRD),
        ("09617376f1c9d12393c90a7fe5a64b613f7fa1d6", SECOND),
        ("9781", THIRD),
        ("97813DBC~1", SECOND),
        ("df6a3", TWIN),
        ("df6aa", OTHER_TWIN),
    ] {
        let found = resolve(alloc, &mut files, &repo, word).expect(&rt, word);
        assert!(&rt; found == id_of(&rt, want), "{word}");
    }
}

fn leads_nowhere(rt: &impl Abort, alloc: Global, files: &mut MemFiles, word: &str) {
    let repo = place(rt, alloc, "/r/.dlrepo");
    match resolve(alloc, files, &repo, word) {
        Err(Trouble::Refused(Fault::NoSuchRevision { word: other })) => {
            assert_eq!(rt; other.as_str(), word);
        }
        _ => panic!(rt; "{word}"),
    }
}

#[test]
fn words_lead_nowhere(rt: HostRuntime) {
    let alloc = rt.alloc();
    let mut files = dataset(&rt, alloc);
    for word in [
        "",
        "^",
        "first~1",
        "HEAD~3",
        "HEAD~100000",
        "HEAD~01",
        "HEAD^2",
        "HEAD~+1",
        "HEAD~1x",
        "none",
        "978",
        "ffff",
        "ce0136",
        "ce013625030ba8dba906f756967f9e9ca394464a",
        "1111111111111111111111111111111111111111",
    ] {
        leads_nowhere(&rt, alloc, &mut files, word);
    }
}

// The id that a refusal names.
fn refused_id(trouble: Trouble) -> Option<Id> {
    match trouble {
        Trouble::Refused(Fault::TooLong { commit }) => Some(Id(commit)),
        Trouble::Refused(Fault::Missing { id }) => Some(Id(id)),
        _ => None,
    }
}

#[test]
fn words_too_far(rt: HostRuntime) {
    let alloc = rt.alloc();
    let repo = place(&rt, alloc, "/r/.dlrepo");
    let mut files = dataset(&rt, alloc);
    for (word, want) in [
        ("HEAD~100001", THIRD),
        ("first~100000^", FIRST),
        ("main~99999999999999999999999999999999999999999", THIRD),
        ("lost~1", GONE),
        ("lost^^", GONE),
    ] {
        match resolve(alloc, &mut files, &repo, word) {
            Ok(_) => panic!(&rt; "{word}"),
            Err(trouble) => {
                let id = refused_id(trouble).expect(&rt, word);
                assert!(&rt; id == id_of(&rt, want), "{word}");
            }
        }
    }
}

#[test]
fn two_commits(rt: HostRuntime) {
    let alloc = rt.alloc();
    let repo = place(&rt, alloc, "/r/.dlrepo");
    let mut files = dataset(&rt, alloc);
    match resolve(alloc, &mut files, &repo, "DF6A~2") {
        Err(
            Trouble::Refused(
                Fault::Ambiguous {
                    word,
                    first,
                    second,
                },
            ),
        ) => {
            assert_eq!(&rt; word.as_str(), "DF6A~2");
            assert!(&rt; Id(first) == id_of(&rt, TWIN));
            assert!(&rt; Id(second) == id_of(&rt, OTHER_TWIN));
        }
        _ => panic!(&rt; "two"),
    }
}

#[test]
fn damaged_branches(rt: HostRuntime) {
    let alloc = rt.alloc();
    let repo = place(&rt, alloc, "/r/.dlrepo");
    let mut files = dataset(&rt, alloc);
    match resolve(alloc, &mut files, &repo, "damaged^") {
        Err(Trouble::Refused(Fault::Damaged { place })) => {
            assert_eq!(&rt; place.as_str(), "/r/.dlrepo/refs/heads/damaged");
        }
        _ => panic!(&rt; "damaged"),
    }
}
