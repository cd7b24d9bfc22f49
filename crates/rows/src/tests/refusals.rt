// Words and files with which nothing is made.
use super::calls::{Row, says};
use super::create::THERE;
use super::files::{File, count_of, holds, is_count, memory_of};
use file_store::MemFiles;
use std::alloc::Global;
use std::process::Abort;

// A call that prints only this on the second output.
fn refused<'a>(words: &'a str, code: u8, err: &'a str) -> Row<'a> {
    Row {
        words,
        code,
        out: "",
        err,
    }
}

// A call that changes nothing where nothing stands.
fn is_refused(rt: &impl Abort, alloc: Global, row: &Row<'_>) {
    let mut files = MemFiles::new(alloc);
    says(rt, alloc, &mut files, row);
    is_count(rt, count_of(rt, alloc, &files), 0);
}

#[test]
fn words_without_a_reading(rt: HostRuntime) {
    let alloc = rt.alloc();
    for (words, err) in [
        ("", "datalad: usage: word 0\n"),
        ("crate x", "datalad: usage: word 0\n"),
        ("statu", "datalad: usage: word 0\n"),
        ("get", "datalad: usage: word 1\n"),
        ("get x", "datalad: usage: word 0\n"),
        ("save -r -m a", "datalad: usage: word 0\n"),
        ("save -m a -m b", "datalad: usage: word 3\n"),
        ("log a b", "datalad: usage: word 2\n"),
        ("create", "datalad: usage: word 1\n"),
        ("create a b", "datalad: usage: word 2\n"),
        ("create -x", "datalad: usage: word 1\n"),
    ] {
        is_refused(&rt, alloc, &refused(words, 2, err));
    }
}

// Slashes before names of these lengths.
fn long(rt: &impl Abort, alloc: Global, lengths: &[usize]) -> String {
    let mut text = String::new(alloc);
    for length in lengths {
        let name = "n".repeat(alloc, *length).expect(rt, "memory");
        text.push_str("/").expect(rt, "memory");
        text.push_str(name.as_str()).expect(rt, "memory");
    }
    text
}

fn create_of(rt: &impl Abort, alloc: Global, place: &str) -> String {
    format!(in alloc; "create {place}").expect(rt, "memory")
}

#[test]
fn words_that_lead_nowhere(rt: HostRuntime) {
    let alloc = rt.alloc();
    let name = long(&rt, alloc, &[256]);
    let words = create_of(&rt, alloc, name.as_str());
    for words in [
        "create ",
        "create .dlrepo/x",
        "create a/.dlrepo",
        words.as_str(),
    ] {
        is_refused(
            &rt,
            alloc,
            &refused(words, 1, "datalad: bad path in word 1\n"),
        );
    }
    let behind = "create -- .dlrepo/x";
    is_refused(
        &rt,
        alloc,
        &refused(behind, 1, "datalad: bad path in word 2\n"),
    );
}

// A call that makes a dataset where nothing stands.
fn is_made(rt: &impl Abort, alloc: Global, words: &str, out: &str) {
    let mut files = MemFiles::new(alloc);
    let row = Row {
        words,
        code: 0,
        out,
        err: "",
    };
    says(rt, alloc, &mut files, &row);
    is_count(rt, count_of(rt, alloc, &files), 9);
}

// `create` of a place whose repository's place has 3,584 bytes, and of one with a byte more.
fn just_fits(rt: &impl Abort, alloc: Global, place: &str) {
    let words = create_of(rt, alloc, place);
    let out = format!(in alloc; "create(ok): {place} (dataset)\n").expect(rt, "memory");
    is_made(rt, alloc, words.as_str(), out.as_str());
}

fn is_too_large(rt: &impl Abort, alloc: Global, place: &str) {
    let words = create_of(rt, alloc, place);
    let err = format!(in alloc; "datalad: too large: {place}/.dlrepo, 3585\n").expect(rt, "memory");
    is_refused(rt, alloc, &refused(words.as_str(), 1, err.as_str()));
}

#[test]
fn places(rt: HostRuntime) {
    let alloc = rt.alloc();
    let mut lengths = [255; 14];
    lengths[13] = 247;
    just_fits(&rt, alloc, long(&rt, alloc, &lengths).as_str());
    lengths[13] = 248;
    is_too_large(&rt, alloc, long(&rt, alloc, &lengths).as_str());

    // above `/` is `/`
    is_made(
        &rt,
        alloc,
        "create ../../../x",
        "create(ok): /x (dataset)\n",
    );
    is_made(&rt, alloc, "create -- x", "create(ok): /w/x (dataset)\n");
}

// Where one file stands `create ds` is refused so, and nothing changes.
fn is_in_the_way(rt: &impl Abort, alloc: Global, at: &str, row: &Row<'_>) {
    let file = [File {
        place: at,
        bytes: b"x",
    }];
    let mut files = memory_of(rt, alloc, &file);
    says(rt, alloc, &mut files, row);
    holds(rt, alloc, &files, &file);
}

#[test]
fn files_in_the_way(rt: HostRuntime) {
    let alloc = rt.alloc();
    is_in_the_way(&rt, alloc, "/w/ds", &THERE);
    is_in_the_way(&rt, alloc, "/w/ds/a", &THERE);
    let above = refused("create ds", 1, "datalad: in the way: /w/ds/.dlrepo/tmp/0\n");
    is_in_the_way(&rt, alloc, "/w", &above);
}
