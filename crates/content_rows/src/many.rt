// Many contents that are kept at once.
use crate::tests::{CONTENT, KEY, LOG, OWN, REPO, fault, is_bad, is_text, own, place};
use annex_keys::from_text;
use annex_store::{NewContent, keep_all};
use faults::{Fault, Trouble};
use file_store::{Files, MemFiles, Text};
use std::alloc::Global;
use std::process::Abort;

// `printf 'world\n' | sha256sum`
const WORLD: &str = "SHA256E-s6--e258d248fda94c63753607f7c4494ee0fcbe92f1a76bfdac795c9d84101eb317";

// The first six digits of the MD5 of that text are 46cf4d.
const WORLD_CONTENT: &str =
    "/r/.dlrepo/annex/objects/46c/f4d/SHA256E-s6--e258d248fda94c63753607f7c4494ee0fcbe92f1a76bfdac795c9d84101eb317";

const WORLD_LOG: &str =
    "/r/.dlrepo/annex/logs/46c/f4d/SHA256E-s6--e258d248fda94c63753607f7c4494ee0fcbe92f1a76bfdac795c9d84101eb317.log";

// `printf 'there\n' | sha256sum`
const THERE: &str = "SHA256E-s6--1ab094ade32450c63a421b4dda9fa4351896c54c8073795d64786ac97da000eb";

// The first six digits of the MD5 of that text are 5a94ec.
const THERE_CONTENT: &str =
    "/r/.dlrepo/annex/objects/5a9/4ec/SHA256E-s6--1ab094ade32450c63a421b4dda9fa4351896c54c8073795d64786ac97da000eb";

const THERE_LOG: &str =
    "/r/.dlrepo/annex/logs/5a9/4ec/SHA256E-s6--1ab094ade32450c63a421b4dda9fa4351896c54c8073795d64786ac97da000eb.log";

// Files in memory, of these texts.
fn files_of(rt: &impl Abort, alloc: Global, rows: &[(&str, &str)]) -> MemFiles {
    let mut list = Vec::new(alloc);
    for (at, text) in rows {
        let bytes = text.as_bytes().to_vec(alloc).expect(rt, "memory");
        let pushed = list.push((place(rt, alloc, at), bytes));
        assert!(rt; pushed.is_ok());
    }
    MemFiles::from_list(alloc, list).expect(rt, "files")
}

// A content of this key that stands at `/r/NAME`.
fn new_content(rt: &impl Abort, alloc: Global, key: &str, name: &str) -> NewContent {
    let at = format!(in alloc; "/r/{name}").expect(rt, "memory");
    NewContent {
        key: from_text(alloc, key).expect(rt, "a key"),
        path: Text::new(String::from_str(alloc, name).expect(rt, "memory")),
        source: place(rt, alloc, at.as_str()),
    }
}

fn keep_these(
    rt: &impl Abort,
    alloc: Global,
    files: &mut MemFiles,
    rows: &[(&str, &str)],
) -> Result<(), Trouble> {
    let mut list = Vec::new(alloc);
    for (key, name) in rows {
        let pushed = list.push(new_content(rt, alloc, key, name));
        assert!(rt; pushed.is_ok());
    }
    let repo = place(rt, alloc, REPO);
    keep_all(alloc, files, &repo, &own(rt), list.as_slice(), 7)
}

// The file at this place has this text, where it isn't empty, and else none stands there.
fn has_text(rt: &impl Abort, alloc: Global, files: &mut MemFiles, at: &str, want: &str) {
    let at = place(rt, alloc, at);
    match files.read(alloc, &at).expect(rt, "read") {
        Some(bytes) => {
            let text = String::from_utf8(bytes).expect(rt, "a text");
            is_text(rt, text.as_str(), want);
        }
        None => is_text(rt, "", want),
    }
}

#[test]
fn two_new_and_one_that_stands(rt: HostRuntime) {
    let alloc = rt.alloc();
    let log = format!(in alloc; "5s 1 {OWN}\n").expect(&rt, "memory");
    let note = format!(in alloc; "7s 1 {OWN}\n").expect(&rt, "memory");
    let rows = [
        (CONTENT, "hello\n"),
        (LOG, log.as_str()),
        ("/r/world", "world\n"),
        ("/r/there", "there\n"),
    ];
    let mut files = files_of(&rt, alloc, rows.as_slice());
    let list = [(WORLD, "world"), (KEY, "hello"), (THERE, "there")];

    // four look at logs and four at contents; then each of the two is looked at, read and staged; a barrier, two moves
    // and a barrier; and two logs are written, a barrier, two moves and a barrier
    let calls = files.calls().checked_add(24).expect(&rt, "few calls");
    let kept = keep_these(&rt, alloc, &mut files, list.as_slice());
    assert!(&rt; kept.is_ok());
    assert_eq!(&rt; files.calls(), calls);
    has_text(&rt, alloc, &mut files, WORLD_CONTENT, "world\n");
    has_text(&rt, alloc, &mut files, THERE_CONTENT, "there\n");
    has_text(&rt, alloc, &mut files, WORLD_LOG, note.as_str());
    has_text(&rt, alloc, &mut files, THERE_LOG, note.as_str());
    has_text(&rt, alloc, &mut files, LOG, log.as_str());

    // again: after the five reads above, six calls look at logs and six at contents, and nothing is written
    let calls = calls.checked_add(17).expect(&rt, "few calls");
    let kept = keep_these(&rt, alloc, &mut files, list.as_slice());
    assert!(&rt; kept.is_ok());
    assert_eq!(&rt; files.calls(), calls);
}

#[test]
fn equal_contents(rt: HostRuntime) {
    let alloc = rt.alloc();
    let note = format!(in alloc; "7s 1 {OWN}\n").expect(&rt, "memory");
    let rows = [("/r/one", "world\n"), ("/r/two", "world\n")];
    let mut files = files_of(&rt, alloc, rows.as_slice());
    let list = [(WORLD, "one"), (WORLD, "two")];

    // as for one of them: a log, a content, the source twice, a write, a barrier, a move and a barrier, and the log
    let calls = files.calls().checked_add(12).expect(&rt, "few calls");
    let kept = keep_these(&rt, alloc, &mut files, list.as_slice());
    assert!(&rt; kept.is_ok());
    assert_eq!(&rt; files.calls(), calls);
    has_text(&rt, alloc, &mut files, WORLD_CONTENT, "world\n");
    has_text(&rt, alloc, &mut files, WORLD_LOG, note.as_str());
}

fn is_dirty(rt: &impl Abort, fault: Fault, want: &str) {
    match fault {
        Fault::Dirty { path } => is_text(rt, path.as_str(), want),
        _ => rt.abort(),
    }
}

#[test]
fn sources_that_have_changed(rt: HostRuntime) {
    let alloc = rt.alloc();
    for text in ["whole\n", "there", "there\n\n", ""] {
        let rows = [("/r/world", "world\n"), ("/r/there", text)];
        let mut files = files_of(&rt, alloc, rows.as_slice());
        let list = [(WORLD, "world"), (THERE, "there")];
        let told = fault(&rt, keep_these(&rt, alloc, &mut files, list.as_slice()));
        is_dirty(&rt, told, "there");
        has_text(&rt, alloc, &mut files, WORLD_CONTENT, "");
        has_text(&rt, alloc, &mut files, WORLD_LOG, "");
    }
}

#[test]
fn a_source_that_is_gone(rt: HostRuntime) {
    let alloc = rt.alloc();
    let mut files = files_of(&rt, alloc, [("/r/world", "world\n")].as_slice());
    let list = [(THERE, "there"), (WORLD, "world")];
    let told = fault(&rt, keep_these(&rt, alloc, &mut files, list.as_slice()));
    is_dirty(&rt, told, "there");
    has_text(&rt, alloc, &mut files, WORLD_CONTENT, "");
}

#[test]
fn a_bad_log_before_any_write(rt: HostRuntime) {
    let alloc = rt.alloc();
    let rows = [
        ("/r/world", "world\n"),
        ("/r/hello", "hello\n"),
        (LOG, "x\n"),
    ];
    let mut files = files_of(&rt, alloc, rows.as_slice());
    let list = [(WORLD, "world"), (KEY, "hello")];
    let told = fault(&rt, keep_these(&rt, alloc, &mut files, list.as_slice()));
    is_bad(&rt, told, 1);
    has_text(&rt, alloc, &mut files, "/r/.dlrepo/tmp/0", "");
    has_text(&rt, alloc, &mut files, WORLD_CONTENT, "");
}
