// Where the files of a dataset stand, with the id of git's blob `hello\n`.
use super::common::{id, is_text, place};
use file_store::Place;
use repository::{
    REPO_LIMIT, config_place, head_place, index_place, object_place, repo_place, repo_place_text,
    settings_place, tmp_place,
};
use std::alloc::AllocError;
use std::process::Abort;

fn stands_at(rt: &impl Abort, found: Result<Place, AllocError>, want: &str) {
    let place = found.expect(rt, "memory");
    is_text(rt, place.as_str(), want);
}

#[test]
fn places_of_a_dataset(rt: HostRuntime) {
    let (rt, alloc) = (&rt, rt.alloc());
    let root = place(rt, alloc, "/w/ds");
    let text = repo_place_text(alloc, &root).expect(rt, "memory");
    if REPO_LIMIT < text.len() {
        rt.abort();
    }
    is_text(rt, text.as_str(), "/w/ds/.dlrepo");
    stands_at(rt, repo_place(alloc, &root), "/w/ds/.dlrepo");
    stands_at(rt, config_place(alloc, &root), "/w/ds/.datalad/config");
    stands_at(rt, settings_place(alloc, &root), "/w/ds/.dlrepo/config");
    stands_at(rt, index_place(alloc, &root), "/w/ds/.dlrepo/index");
    stands_at(rt, head_place(alloc, &root), "/w/ds/.dlrepo/HEAD");
}

#[test]
fn places_in_a_repository(rt: HostRuntime) {
    let (rt, alloc) = (&rt, rt.alloc());
    let repo = Place::parse(alloc, "/r/.dlrepo").expect(rt, "a place");
    let id = id(rt, b"ce013625030ba8dba906f756967f9e9ca394464a");
    let object = object_place(alloc, &repo, &id);
    stands_at(
        rt,
        object,
        "/r/.dlrepo/objects/ce/013625030ba8dba906f756967f9e9ca394464a",
    );
    stands_at(rt, tmp_place(alloc, &repo, 12), "/r/.dlrepo/tmp/12");
}
