// Branches that are made, and those that are listed.
use super::*;

// Makes a branch at the blob's id; else why not.
fn make(rt: &impl Abort, alloc: Global, files: &mut MemFiles, name: &str) -> Option<Trouble> {
    let repo = place(rt, alloc, REPO);
    match make_branch(alloc, files, &repo, name, &id_of(rt, HELLO)) {
        Ok(()) => None,
        Err(trouble) => Some(trouble),
    }
}

// The name that no branch may have.
fn bad_name(trouble: Trouble) -> Option<Text> {
    match trouble {
        Trouble::Refused(Fault::BadBranch { name }) => Some(name),
        _ => None,
    }
}

// The name that a branch has.
fn taken_name(trouble: Trouble) -> Option<Text> {
    match trouble {
        Trouble::Refused(Fault::BranchThere { name }) => Some(name),
        _ => None,
    }
}

// The place at which something is in the way.
fn blocked(trouble: Trouble) -> Option<Place> {
    match trouble {
        Trouble::Refused(Fault::Blocked { place }) => Some(place),
        _ => None,
    }
}

fn is_bad(rt: &impl Abort, alloc: Global, name: &str) {
    let mut files = files_with(rt, alloc, ON_MAIN, HELLO);
    let trouble = make(rt, alloc, &mut files, name).expect(rt, "a refusal");
    let told = bad_name(trouble).expect(rt, "a bad name");
    assert_eq!(rt; told.as_str(), name);
}

#[test]
fn bad_names_are_refused(rt: HostRuntime) {
    let alloc = rt.alloc();
    is_bad(&rt, alloc, "a..b");
    is_bad(&rt, alloc, "x.lock");
}

#[test]
fn branches_are_made_once(rt: HostRuntime) {
    let alloc = rt.alloc();
    let mut files = files_with(&rt, alloc, ON_MAIN, HELLO);
    assert!(&rt; make(&rt, alloc, &mut files, "side").is_none());
    has(&rt, alloc, &mut files, "/r/.dlrepo/refs/heads/side", HELLO);
    has(&rt, alloc, &mut files, HEAD, ON_MAIN);
    let trouble = make(&rt, alloc, &mut files, "side").expect(&rt, "a refusal");
    let told = taken_name(trouble).expect(&rt, "a branch there");
    assert_eq!(&rt; told.as_str(), "side");
}

#[test]
fn a_branch_is_in_the_way(rt: HostRuntime) {
    let alloc = rt.alloc();
    let mut files = files_with(&rt, alloc, ON_MAIN, HELLO);
    assert!(&rt; make(&rt, alloc, &mut files, "a").is_none());
    let trouble = make(&rt, alloc, &mut files, "a/b").expect(&rt, "a refusal");
    let place = blocked(trouble).expect(&rt, "a place in the way");
    assert_eq!(&rt; place.as_str(), "/r/.dlrepo/refs/heads/a/b");
}

fn lists(rt: &impl Abort, alloc: Global, files: &mut MemFiles, expected: &[&str]) {
    let repo = place(rt, alloc, REPO);
    let names = branches(alloc, files, &repo).expect(rt, "names");
    assert_eq!(rt; names.len(), expected.len());
    for (name, want) in names.iter().zip(expected) {
        assert_eq!(rt; name.as_str(), *want);
    }
}

// Files of HEAD's text at these places.
fn files_at(rt: &impl Abort, alloc: Global, places: &[&str]) -> MemFiles {
    let mut list = Vec::new(alloc);
    for text in places {
        let pushed = list.push((place(rt, alloc, text), bytes(rt, alloc, HELLO)));
        assert!(rt; pushed.is_ok());
    }
    MemFiles::from_list(alloc, list).expect(rt, "files")
}

#[test]
fn a_made_branch_is_listed(rt: HostRuntime) {
    let alloc = rt.alloc();
    let mut files = files_with(&rt, alloc, ON_MAIN, HELLO);
    lists(&rt, alloc, &mut files, &["main"]);
    assert!(&rt; make(&rt, alloc, &mut files, "side").is_none());
    lists(&rt, alloc, &mut files, &["main", "side"]);
}

#[test]
fn no_branches_are_listed(rt: HostRuntime) {
    let alloc = rt.alloc();
    let mut files = files_with(&rt, alloc, ON_MAIN, "");
    lists(&rt, alloc, &mut files, &[]);
    let mut files = files_at(&rt, alloc, &["/r/.dlrepo/refs/heads"]);
    lists(&rt, alloc, &mut files, &[]);
}

#[test]
fn branches_ascend_by_whole_names(rt: HostRuntime) {
    let alloc = rt.alloc();
    let mut files = files_at(
        &rt,
        alloc,
        &[
            "/r/.dlrepo/refs/heads/a/d/e",
            "/r/.dlrepo/refs/heads/a/c",
            "/r/.dlrepo/refs/heads/a.b",
            "/r/.dlrepo/refs/heads/a0",
        ],
    );
    lists(&rt, alloc, &mut files, &["a.b", "a/c", "a/d/e", "a0"]);
}

#[test]
fn other_names_are_passed_over(rt: HostRuntime) {
    let alloc = rt.alloc();
    let mut files = files_at(
        &rt,
        alloc,
        &[
            "/r/.dlrepo/refs/heads/main",
            "/r/.dlrepo/refs/heads/x.lock",
            "/r/.dlrepo/refs/heads/.x/main",
            "/r/.dlrepo/refs/heads/HEAD",
            "/r/.dlrepo/refs/tags/v1",
            "/r/.dlrepo/HEAD",
        ],
    );
    lists(&rt, alloc, &mut files, &["main"]);
}
