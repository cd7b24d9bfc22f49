// Places by their texts and by words, what lies above what, and values that hold texts and bytes.
use super::common::{are_bytes, holds, is_text, place};
use places::{Bytes, Place, PlaceErr, Text, is_path};
use std::alloc::Global;
use std::process::Abort;

fn reads_to(rt: &impl Abort, alloc: Global, cwd: &Place, word: &str, to: &str) {
    let found = Place::from_word(alloc, cwd, word).expect(rt, "a word");
    holds(rt, found.as_str() == to, word);
}

fn is_refused(rt: &impl Abort, read: Result<Place, PlaceErr>, at: &str) {
    holds(rt, matches!(read, Err(PlaceErr::Bad)), at);
}

#[test]
fn words(rt: HostRuntime) {
    let (rt, alloc) = (&rt, rt.alloc());
    let cwd = place(rt, alloc, "/w/a");
    for (word, to) in [
        ("../b/./c", "/w/b/c"),
        ("../../..", "/"),
        ("../../../../x", "/x"),
        ("/x/", "/x"),
        (".", "/w/a"),
        ("b//c/", "/w/a/b/c"),
        ("/", "/"),
        ("a.b/...", "/w/a/a.b/..."),
    ] {
        reads_to(rt, alloc, &cwd, word, to);
    }
    for word in ["", "a\0"] {
        is_refused(rt, Place::from_word(alloc, &cwd, word), word);
    }
}

fn is_place(rt: &impl Abort, alloc: Global, text: &str) {
    is_text(rt, place(rt, alloc, text).as_str(), text);
}

#[test]
fn texts(rt: HostRuntime) {
    let (rt, alloc) = (&rt, rt.alloc());
    for text in ["/", "/a", "/a/b", "/.a", "/a b", "/ä"] {
        is_place(rt, alloc, text);
    }
    for text in ["", "a", "//", "/a/", "/a//b", "/.", "/..", "/a/../b", "/\0"] {
        is_refused(rt, Place::parse(alloc, text), text);
    }
}

// A slash, and a name of that length.
fn push_name(rt: &impl Abort, text: &mut String, length: usize) {
    text.push_str("/").expect(rt, "memory");
    for _ in 0..length {
        text.push_str("n").expect(rt, "memory");
    }
}

// A slash before each name of these lengths. The text's own length is given too.
fn text_of(rt: &impl Abort, alloc: Global, lengths: &[usize], length: usize) -> String {
    let mut text = String::new(alloc);
    for name in lengths {
        push_name(rt, &mut text, *name);
    }
    holds(rt, text.len() == length, "names");
    text
}

fn is_place_of(rt: &impl Abort, alloc: Global, lengths: &[usize], length: usize) {
    let text = text_of(rt, alloc, lengths, length);
    is_place(rt, alloc, text.as_str());
}

fn is_refused_of(rt: &impl Abort, alloc: Global, lengths: &[usize], length: usize) {
    let text = text_of(rt, alloc, lengths, length);
    is_refused(rt, Place::parse(alloc, text.as_str()), "long names");
}

#[test]
fn longest(rt: HostRuntime) {
    let (rt, alloc) = (&rt, rt.alloc());
    is_place_of(rt, alloc, &[255], 256);
    is_refused_of(rt, alloc, &[256], 257);

    let mut lengths = [255; 17];
    is_place_of(rt, alloc, &lengths[..16], 4096);
    lengths[15] = 1;
    lengths[16] = 254;
    is_refused_of(rt, alloc, &lengths, 4097);
}

fn has_path(rt: &impl Abort, alloc: Global, text: &str, root: &Place, path: Option<&str>) {
    let below = place(rt, alloc, text).path_below(alloc, root);
    let found = below.expect(rt, "memory");
    match found {
        None => holds(rt, path.is_none(), text),
        Some(found) => holds(rt, path == Some(found.as_str()), text),
    }
}

#[test]
fn below(rt: HostRuntime) {
    let (rt, alloc) = (&rt, rt.alloc());
    let root = place(rt, alloc, "/w");
    for (text, path) in [
        ("/w/a/b", Some("a/b")),
        ("/w", Some(".")),
        ("/x", None),
        ("/wa", None),
        ("/", None),
    ] {
        has_path(rt, alloc, text, &root, path);
    }
}

#[test]
fn joined(rt: HostRuntime) {
    let (rt, alloc) = (&rt, rt.alloc());
    let root = place(rt, alloc, "/w");
    is_refused(rt, root.join(alloc, "../b"), "../b");
    is_refused(rt, root.join(alloc, ""), "");
    let joined = root.join(alloc, "a/b").expect(rt, "joined");
    assert_eq!(rt; joined.as_str(), "/w/a/b");
    let path = "b/c";
    assert!(rt; is_path(path.as_bytes()));
    let below = root.below(alloc, path).expect(rt, "memory");
    is_text(rt, below.as_str(), "/w/b/c");
}

fn is_above(rt: &impl Abort, alloc: Global, high: &str, low: &str, is: bool) {
    let (high, low) = (place(rt, alloc, high), place(rt, alloc, low));
    holds(rt, high.is_above(&low) == is, low.as_str());
}

#[test]
fn above(rt: HostRuntime) {
    let (rt, alloc) = (&rt, rt.alloc());
    for (high, low, is) in [
        ("/", "/a", true),
        ("/a", "/a", false),
        ("/a", "/ab", false),
        ("/a", "/a/b/c", true),
    ] {
        is_above(rt, alloc, high, low, is);
    }
}

#[test]
fn parents(rt: HostRuntime) {
    let (rt, alloc) = (&rt, rt.alloc());
    let found = place(rt, alloc, "/a").parent(alloc).expect(rt, "memory");
    let root = found.expect(rt, "a parent");
    is_text(rt, root.as_str(), "/");
    holds(rt, root.parent(alloc).expect(rt, "memory").is_none(), "/");
}

fn has_git(rt: &impl Abort, alloc: Global, text: &str, has: bool) {
    let place = place(rt, alloc, text);
    holds(rt, place.has_name(".git") == has, text);
}

#[test]
fn named(rt: HostRuntime) {
    let (rt, alloc) = (&rt, rt.alloc());
    for (text, has) in [
        ("/.git", true),
        ("/w/.git/config", true),
        ("/w/.gitignore", false),
        ("/w/a.git", false),
        ("/", false),
    ] {
        has_git(rt, alloc, text, has);
    }
}

fn is_before(rt: &impl Abort, alloc: Global, low: &str, high: &str) {
    let (low, high) = (place(rt, alloc, low), place(rt, alloc, high));
    holds(rt, low < high, high.as_str());
}

#[test]
fn order(rt: HostRuntime) {
    let (rt, alloc) = (&rt, rt.alloc());
    for (low, high) in [("/a.b", "/a/b"), ("/", "/a"), ("/a", "/a/b"), ("/Z", "/a")] {
        is_before(rt, alloc, low, high);
    }
    let a = place(rt, alloc, "/a");
    holds(rt, a == a.try_clone(alloc).expect(rt, "memory"), "/a");
    is_text(rt, a.text(alloc).expect(rt, "memory").as_str(), "/a");
}

#[test]
fn values(rt: HostRuntime) {
    let (rt, alloc) = (&rt, rt.alloc());
    let text = Text::new(String::from_str(alloc, "ä").expect(rt, "memory"));
    is_text(rt, text.as_str(), "ä");
    is_text(rt, text.into_string().as_str(), "ä");
    let bytes = Bytes::new([0, 255].to_vec(alloc).expect(rt, "memory"));
    are_bytes(rt, bytes.as_slice(), &[0, 255]);
    are_bytes(rt, bytes.into_vec().as_slice(), &[0, 255]);
}

fn prints(rt: &impl Abort, alloc: Global, error: PlaceErr, want: &str) {
    let text = format!(in alloc; "{error}").expect(rt, "memory");
    is_text(rt, text.as_str(), want);
}

#[test]
fn errors(rt: HostRuntime) {
    prints(&rt, rt.alloc(), PlaceErr::Bad, "not a place");
    prints(&rt, rt.alloc(), PlaceErr::NoMemory, "no memory");
}
