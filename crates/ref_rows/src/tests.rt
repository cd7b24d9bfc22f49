// Heads in git's own forms: what is read, what is refused, and what stands after a setting.
mod branches;
mod revisions;

use faults::{Fault, Trouble};
use file_store::{Files, MemFiles};
use git_objects::Id;
use places::{Place, Text};
use ref_store::{Head, branches, is_branch, make_branch, read_head, set_head, set_tip, tip};
use std::alloc::{AllocError, Global};
use std::process::Abort;

const REPO: &str = "/r/.dlrepo";

const HEAD: &str = "/r/.dlrepo/HEAD";

const MAIN: &str = "/r/.dlrepo/refs/heads/main";

const ON_MAIN: &str = "ref: refs/heads/main\n";

// `printf 'hello\n' | git hash-object --stdin`
const HELLO: &str = "ce013625030ba8dba906f756967f9e9ca394464a\n";

// `git hash-object -t tree /dev/null`
const NO_TREE: &str = "4b825dc642cb6eb9a060e54bf8d69288fbee4904\n";

fn place(rt: &impl Abort, alloc: Global, text: &str) -> Place {
    Place::parse(alloc, text).expect(rt, "a place")
}

fn id_of(rt: &impl Abort, text: &str) -> Id {
    let digits = text.as_bytes().strip_suffix(b"\n").expect(rt, "a line");
    Id::from_hex(digits).expect(rt, "an id")
}

fn bytes(rt: &impl Abort, alloc: Global, text: &str) -> Vec<u8> {
    text.as_bytes().to_vec(alloc).expect(rt, "memory")
}

// A repository with this HEAD, and this file of the branch `main` where it isn't empty.
fn files_with(rt: &impl Abort, alloc: Global, head: &str, main: &str) -> MemFiles {
    let mut list = Vec::new(alloc);
    let pushed = list.push((place(rt, alloc, HEAD), bytes(rt, alloc, head)));
    assert!(rt; pushed.is_ok());
    if !main.is_empty() {
        let pushed = list.push((place(rt, alloc, MAIN), bytes(rt, alloc, main)));
        assert!(rt; pushed.is_ok());
    }
    MemFiles::from_list(alloc, list).expect(rt, "files")
}

// The place that is damaged.
fn damaged(trouble: Trouble) -> Option<Place> {
    match trouble {
        Trouble::Refused(Fault::Damaged { place }) => Some(place),
        _ => None,
    }
}

fn has(rt: &impl Abort, alloc: Global, files: &mut MemFiles, at: &str, text: &str) {
    let place = place(rt, alloc, at);
    let found = files
        .read(alloc, &place)
        .expect(rt, "read")
        .expect(rt, "a file");
    assert_eq!(rt; found.as_slice(), text.as_bytes());
}

fn is_name(rt: &impl Abort, name: &str) {
    assert!(rt; is_branch(name.as_bytes()), "{name}");
}

fn is_none(rt: &impl Abort, name: &str) {
    assert!(rt; !is_branch(name.as_bytes()), "{name}");
}

#[test]
fn names_of_branches(rt: HostRuntime) {
    is_name(&rt, "main");
    is_name(&rt, "a");
    is_name(&rt, "feature/x.y_z-1+2");
    is_name(&rt, "a.lockx");
    is_name(&rt, "HEAD/x");
    assert!(&rt; is_branch(&[b'a'; 200]));
}

#[test]
fn names_of_none(rt: HostRuntime) {
    is_none(&rt, "");
    is_none(&rt, ".a");
    is_none(&rt, "a/.b");
    is_none(&rt, "a..b");
    is_none(&rt, "a.");
    is_none(&rt, "a/");
    is_none(&rt, "/a");
    is_none(&rt, "a//b");
    is_none(&rt, "a/-b");
    is_none(&rt, "a.lock/b");
    is_none(&rt, "HEAD");
    is_none(&rt, "a b");
    assert!(&rt; !is_branch(&[b'a'; 201]));
}

// The tip with this HEAD and this file of the branch `main`; else the place that is damaged.
fn leads(rt: &impl Abort, alloc: Global, head: &str, main: &str, want: &str) {
    let repo = place(rt, alloc, REPO);
    let mut files = files_with(rt, alloc, head, main);
    match tip(alloc, &mut files, &repo) {
        Ok(id) => assert!(rt; id == id_of(rt, want)),
        Err(trouble) => {
            let place = damaged(trouble).expect(rt, "damaged");
            assert_eq!(rt; place.as_str(), want);
        }
    }
}

#[test]
fn tips_of_branches(rt: HostRuntime) {
    let alloc = rt.alloc();
    leads(&rt, alloc, ON_MAIN, HELLO, HELLO);
    leads(&rt, alloc, ON_MAIN, "", MAIN);
    let short = "e013625030ba8dba906f756967f9e9ca394464a\n";
    leads(&rt, alloc, ON_MAIN, short, MAIN);
    let capital = "CE013625030BA8DBA906F756967F9E9CA394464A\n";
    leads(&rt, alloc, ON_MAIN, capital, MAIN);
    let unended = "ce013625030ba8dba906f756967f9e9ca394464a";
    leads(&rt, alloc, ON_MAIN, unended, MAIN);
    let blank = "ce013625030ba8dba906f756967f9e9ca394464a\n\n";
    leads(&rt, alloc, ON_MAIN, blank, MAIN);
}

#[test]
fn tips_of_heads(rt: HostRuntime) {
    let alloc = rt.alloc();
    leads(&rt, alloc, HELLO, "", HELLO);
    leads(&rt, alloc, "", HELLO, HEAD);
    leads(&rt, alloc, "ref: refs/heads/main", HELLO, HEAD);
    leads(&rt, alloc, "ref: refs/heads/a..b\n", HELLO, HEAD);
    leads(&rt, alloc, "ref: refs/heads/.a\n", HELLO, HEAD);
    leads(&rt, alloc, "ref: refs/tags/main\n", HELLO, HEAD);
    let short = "e013625030ba8dba906f756967f9e9ca394464a\n";
    leads(&rt, alloc, short, HELLO, HEAD);
}

// The branch that HEAD names, None where it is detached at the commit of that text.
fn read(rt: &impl Abort, alloc: Global, head: &str) -> Option<Text> {
    let repo = place(rt, alloc, REPO);
    let mut files = files_with(rt, alloc, head, "");
    match read_head(alloc, &mut files, &repo).expect(rt, "a head") {
        Head::Branch(name) => Some(name),
        Head::Detached(id) => {
            assert!(rt; id == id_of(rt, head));
            None
        }
    }
}

#[test]
fn heads(rt: HostRuntime) {
    let alloc = rt.alloc();
    let name = read(&rt, alloc, "ref: refs/heads/a/b\n").expect(&rt, "a branch");
    assert_eq!(&rt; name.as_str(), "a/b");
    assert!(&rt; read(&rt, alloc, NO_TREE).is_none());
}

#[test]
fn no_head(rt: HostRuntime) {
    let alloc = rt.alloc();
    let repo = place(&rt, alloc, REPO);
    let mut files = MemFiles::new(alloc);
    match read_head(alloc, &mut files, &repo) {
        Ok(_) => panic!(&rt; "a head"),
        Err(trouble) => {
            let place = damaged(trouble).expect(&rt, "damaged");
            assert_eq!(&rt; place.as_str(), HEAD);
        }
    }
}

// More than 1,000,000 bytes, which begin as the file of an id.
fn long_text(alloc: Global) -> Result<String, AllocError> {
    let mut text = String::from_str(alloc, HELLO)?;
    for _ in 0..25_000 {
        text.push_str(HELLO)?;
    }
    Ok(text)
}

#[test]
fn long_files(rt: HostRuntime) {
    let alloc = rt.alloc();
    let text = long_text(alloc).expect(&rt, "memory");
    leads(&rt, alloc, text.as_str(), "", HEAD);
    leads(&rt, alloc, ON_MAIN, text.as_str(), MAIN);
}

// Sets the tip to the commit of a text, and looks at one of the files.
fn sets(rt: &impl Abort, alloc: Global, head: &str, main: &str, id: &str, at: &str, want: &str) {
    let repo = place(rt, alloc, REPO);
    let mut files = files_with(rt, alloc, head, main);
    let set = set_tip(alloc, &mut files, &repo, &id_of(rt, id)).is_ok();
    assert!(rt; set == (head != "damaged"));
    has(rt, alloc, &mut files, at, want);
}

#[test]
fn set_tips(rt: HostRuntime) {
    let alloc = rt.alloc();
    sets(&rt, alloc, ON_MAIN, HELLO, NO_TREE, MAIN, NO_TREE);
    sets(&rt, alloc, ON_MAIN, HELLO, NO_TREE, HEAD, ON_MAIN);
    sets(&rt, alloc, ON_MAIN, "damaged", NO_TREE, MAIN, NO_TREE);
    sets(&rt, alloc, ON_MAIN, "", NO_TREE, MAIN, NO_TREE);
    sets(&rt, alloc, HELLO, HELLO, NO_TREE, HEAD, NO_TREE);
    sets(&rt, alloc, HELLO, HELLO, NO_TREE, MAIN, HELLO);
    sets(&rt, alloc, "damaged", HELLO, NO_TREE, MAIN, HELLO);
}

fn on_branch(rt: &impl Abort, alloc: Global, name: &str) -> Text {
    Text::new(String::from_str(alloc, name).expect(rt, "memory"))
}

#[test]
fn set_heads(rt: HostRuntime) {
    let alloc = rt.alloc();
    let repo = place(&rt, alloc, REPO);
    let mut files = files_with(&rt, alloc, ON_MAIN, "");
    let head = Head::Detached(id_of(&rt, HELLO));
    assert!(&rt; set_head(alloc, &mut files, &repo, &head).is_ok());
    has(&rt, alloc, &mut files, HEAD, HELLO);
}

#[test]
fn set_branches(rt: HostRuntime) {
    let alloc = rt.alloc();
    let repo = place(&rt, alloc, REPO);
    let mut files = files_with(&rt, alloc, HELLO, "");
    let name = on_branch(&rt, alloc, "topic/a");
    assert!(&rt; is_branch(name.as_str().as_bytes()));
    let head = Head::Branch(name);
    assert!(&rt; set_head(alloc, &mut files, &repo, &head).is_ok());
    has(&rt, alloc, &mut files, HEAD, "ref: refs/heads/topic/a\n");
}
