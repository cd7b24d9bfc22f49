// Contents and logs of keys: what is kept and what is read of it.
use annex_keys::{Key, from_text, matches};
use annex_store::{LOG_LIMIT, content, has, keep, log_of, set_log};
use faults::{Fault, Trouble};
use file_store::{Files, MemFiles};
use location_log::{LogLine, present, print, read};
use places::Place;
use std::alloc::Global;
use std::process::Abort;
use uuid::Uuid;

pub(crate) const REPO: &str = "/r/.dlrepo";

// `printf 'hello\n' | sha256sum`
pub(crate) const KEY: &str =
    "SHA256E-s6--5891b5b522d5df086d0ff0b110fbd9d21bb4fc7163af34d08286a2e846f6be03.txt";

// The first six digits of the MD5 of that text are d91b11.
pub(crate) const CONTENT: &str =
    "/r/.dlrepo/annex/objects/d91/b11/SHA256E-s6--5891b5b522d5df086d0ff0b110fbd9d21bb4fc7163af34d08286a2e846f6be03.txt";

pub(crate) const LOG: &str =
    "/r/.dlrepo/annex/logs/d91/b11/SHA256E-s6--5891b5b522d5df086d0ff0b110fbd9d21bb4fc7163af34d08286a2e846f6be03.txt.log";

pub(crate) const OWN: &str = "490cbdc2-0d82-5cbd-94d8-aba5bedae8d0";

const OTHER: &str = "5s 1 01234567-89ab-5cde-8f01-23456789abcd\n";

pub(crate) fn place(rt: &impl Abort, alloc: Global, text: &str) -> Place {
    Place::parse(alloc, text).expect(rt, "a place")
}

fn key(rt: &impl Abort, alloc: Global) -> Key {
    from_text(alloc, KEY).expect(rt, "a key")
}

pub(crate) fn own(rt: &impl Abort) -> Uuid {
    Uuid::try_parse_ascii(OWN.as_bytes()).expect(rt, "a uuid")
}

// Files with this content and this log, each where it isn't empty.
fn files_with(rt: &impl Abort, alloc: Global, content: &str, log: &str) -> MemFiles {
    let mut list = Vec::new(alloc);
    for (at, text) in [(CONTENT, content), (LOG, log)] {
        if !text.is_empty() {
            let bytes = text.as_bytes().to_vec(alloc).expect(rt, "memory");
            let pushed = list.push((place(rt, alloc, at), bytes));
            assert!(rt; pushed.is_ok());
        }
    }
    MemFiles::from_list(alloc, list).expect(rt, "files")
}

// The content that is read, as text; "none" where none is.
fn read_content(rt: &impl Abort, alloc: Global, files: &mut MemFiles) -> String {
    let repo = place(rt, alloc, REPO);
    match content(alloc, files, &repo, &key(rt, alloc)).expect(rt, "read") {
        Some(bytes) => String::from_utf8(bytes).expect(rt, "a text"),
        None => String::from_str(alloc, "none").expect(rt, "memory"),
    }
}

fn stands(rt: &impl Abort, alloc: Global, files: &mut MemFiles) -> bool {
    let repo = place(rt, alloc, REPO);
    has(alloc, files, &repo, &key(rt, alloc)).expect(rt, "a look")
}

fn read_log(rt: &impl Abort, alloc: Global, files: &mut MemFiles) -> Result<Vec<LogLine>, Trouble> {
    let repo = place(rt, alloc, REPO);
    log_of(alloc, files, &repo, &key(rt, alloc))
}

// The bytes of the log's file.
fn log_text(rt: &impl Abort, alloc: Global, files: &mut MemFiles) -> String {
    let at = place(rt, alloc, LOG);
    let found = files.read(alloc, &at).expect(rt, "read");
    String::from_utf8(found.expect(rt, "a file")).expect(rt, "a text")
}

fn keep_hello(rt: &impl Abort, alloc: Global, files: &mut MemFiles) -> Result<(), Trouble> {
    let repo = place(rt, alloc, REPO);
    let key = key(rt, alloc);
    if !matches(&key, b"hello\n") {
        rt.abort();
    }
    keep(alloc, files, &repo, &own(rt), &key, b"hello\n", 7)
}

// The fault of a refusal.
pub(crate) fn fault<T: Drop>(rt: &impl Abort, end: Result<T, Trouble>) -> Fault {
    match end {
        Err(Trouble::Refused(fault)) => fault,
        _ => rt.abort(),
    }
}

pub(crate) fn is_text(rt: &impl Abort, got: &str, want: &str) {
    assert_eq!(rt; got, want);
}

pub(crate) fn is_number(rt: &impl Abort, got: u64, want: u64) {
    assert_eq!(rt; got, want);
}

fn is_full(rt: &impl Abort, fault: Fault) {
    match fault {
        Fault::TimeFull { key } => is_text(rt, key.as_str(), KEY),
        _ => rt.abort(),
    }
}

fn told_line(rt: &impl Abort, place: &str, line: u64, want: u64) {
    is_text(rt, place, LOG);
    is_number(rt, line, want);
}

pub(crate) fn is_bad(rt: &impl Abort, fault: Fault, want: u64) {
    match fault {
        Fault::BadLog { place, line } => told_line(rt, place.as_str(), line, want),
        _ => rt.abort(),
    }
}

fn is_too_large(rt: &impl Abort, fault: Fault, want: u64) {
    match fault {
        Fault::TooLarge { path, size } => told_line(rt, path.as_str(), size, want),
        _ => rt.abort(),
    }
}

#[test]
fn contents_that_are_read(rt: HostRuntime) {
    let alloc = rt.alloc();
    let rows = [
        ("hello\n", "hello\n", true),
        ("hallo\n", "none", true),
        ("hello", "none", true),
        ("hello\n\n", "none", true),
        ("", "none", false),
    ];
    for (stored, want, there) in rows {
        let mut files = files_with(&rt, alloc, stored, "");
        assert_eq!(&rt; read_content(&rt, alloc, &mut files).as_str(), want);
        assert_eq!(&rt; stands(&rt, alloc, &mut files), there);
    }
}

#[test]
fn contents_that_are_kept(rt: HostRuntime) {
    let alloc = rt.alloc();
    for stored in ["", "hallo\n", "hello\n"] {
        let mut files = files_with(&rt, alloc, stored, OTHER);
        let kept = keep_hello(&rt, alloc, &mut files);
        assert!(&rt; kept.is_ok());
        assert_eq!(&rt; read_content(&rt, alloc, &mut files).as_str(), "hello\n");
        let want = format!(in alloc; "{OTHER}7s 1 {OWN}\n").expect(&rt, "memory");
        assert_eq!(&rt; log_text(&rt, alloc, &mut files).as_str(), want.as_str());
    }
}

#[test]
fn kept_again(rt: HostRuntime) {
    let alloc = rt.alloc();
    let log = format!(in alloc; "5s 1 {OWN}\n").expect(&rt, "memory");
    let mut files = files_with(&rt, alloc, "hello\n", log.as_str());
    let four_more = files.calls().checked_add(4).expect(&rt, "few calls");
    let kept = keep_hello(&rt, alloc, &mut files);
    assert!(&rt; kept.is_ok());

    // two sizes and two reads, and nothing is written
    assert_eq!(&rt; files.calls(), four_more);
    assert_eq!(&rt; log_text(&rt, alloc, &mut files).as_str(), log.as_str());
}

#[test]
fn no_later_second(rt: HostRuntime) {
    let alloc = rt.alloc();
    let log = format!(in alloc; "18446744073709551615s 0 {OWN}\n").expect(&rt, "memory");
    let mut files = files_with(&rt, alloc, "", log.as_str());
    let told = fault(&rt, keep_hello(&rt, alloc, &mut files));
    is_full(&rt, told);
    assert!(&rt; !stands(&rt, alloc, &mut files));
}

#[test]
fn bad_logs(rt: HostRuntime) {
    let alloc = rt.alloc();
    let log = format!(in alloc; "{OTHER}\nx\n").expect(&rt, "memory");
    let mut files = files_with(&rt, alloc, "", log.as_str());
    let told = fault(&rt, keep_hello(&rt, alloc, &mut files));
    is_bad(&rt, told, 3);
    assert!(&rt; !stands(&rt, alloc, &mut files));
}

#[test]
fn large_logs(rt: HostRuntime) {
    let alloc = rt.alloc();
    let mut text = String::new(alloc);
    for _ in 0..LOG_LIMIT + 1 {
        text.push_str("\n").expect(&rt, "memory");
    }
    let mut files = files_with(&rt, alloc, "", text.as_str());
    let told = fault(&rt, read_log(&rt, alloc, &mut files));
    is_too_large(&rt, told, LOG_LIMIT + 1);
}

#[test]
fn logs_that_are_set(rt: HostRuntime) {
    let alloc = rt.alloc();
    let repo = place(&rt, alloc, REPO);
    let mut files = files_with(&rt, alloc, "", "");
    assert_eq!(&rt;
        read_log(&rt, alloc, &mut files).expect(&rt, "a log").len(),
        0
    );
    let lines = read(alloc, OTHER.as_bytes()).expect(&rt, "a log");
    let set = set_log(alloc, &mut files, &repo, &key(&rt, alloc), lines.as_slice());
    assert!(&rt; set.is_ok());
    let found = read_log(&rt, alloc, &mut files).expect(&rt, "a log");
    assert!(&rt; !present(found.as_slice(), &own(&rt)));
    let text = print(alloc, found.as_slice()).expect(&rt, "memory");
    assert_eq!(&rt; text.as_slice(), OTHER.as_bytes());
}
