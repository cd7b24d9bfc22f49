// Files that are kept, by their old leaf, path and bytes; the digests are those of `sha256sum`, the ids those of
// `git hash-object`.
use annex_keys::{Key, from_text, key_of, to_text};
use git_objects::{Id, blob_id};
use kept_files::{Kept, how_kept, size_limit};
use std::process::Abort;
use std::test::Fail;

const HELLO: &str =
    "SHA256E-s6--5891b5b522d5df086d0ff0b110fbd9d21bb4fc7163af34d08286a2e846f6be03.txt";

const BARE: &str = "SHA256E-s6--5891b5b522d5df086d0ff0b110fbd9d21bb4fc7163af34d08286a2e846f6be03";

const HALLO: &str =
    "SHA256E-s6--622cb3371c1a08096eaac564fb59acccda1fcdbe13a9dd10b486e6463c8c2525.txt";

const LONGER: &str =
    "SHA256E-s12--a948904f2f0f479b8f8197694b30184b0d2ed1c1cd2a1ec0fb85d299a192a447.txt";

const EMPTY: &str =
    "SHA256E-s0--e3b0c44298fc1c149afbf4c8996fb92427ae41e4649b934ca495991b7852b855.txt";

const POINTER: &str =
    "/annex/objects/SHA256E-s6--5891b5b522d5df086d0ff0b110fbd9d21bb4fc7163af34d08286a2e846f6be03.txt\n";

const LINE: &str =
    "/annex/objects/SHA256E-s6--5891b5b522d5df086d0ff0b110fbd9d21bb4fc7163af34d08286a2e846f6be03.txt";

const OTHER: &str =
    "/annex/objects/SHA256E-s6--622cb3371c1a08096eaac564fb59acccda1fcdbe13a9dd10b486e6463c8c2525.txt\n";

// How a file is kept, in words: a pointer by its text, and a content that has its pointer by its key.
fn told(rt: &HostRuntime, kept: &Kept) -> Result<String, Fail> {
    match kept {
        Kept::Same { is_content: true } => Ok(String::from_str(rt.alloc(), "same content")?),
        Kept::Same { is_content: false } => Ok(String::from_str(rt.alloc(), "same")?),
        Kept::InGit => Ok(String::from_str(rt.alloc(), "in git")?),
        Kept::Pointer { text } => Ok(String::from_str(rt.alloc(), text.as_str())?),
        Kept::Content { text, key } => {
            let name = to_text(rt.alloc(), key)?;
            let name = name.as_str();
            let pointer = format!(in rt.alloc(); "/annex/objects/{name}\n")?;
            if text.as_str() != pointer.as_str() {
                return Ok(String::from_str(rt.alloc(), "another pointer")?);
            }
            Ok(String::from_str(rt.alloc(), name)?)
        }
    }
}

// How a new file is kept.
fn new_file(rt: &HostRuntime, path: &str, bytes: &str, to_git: bool) -> Result<String, Fail> {
    let kept = how_kept(rt.alloc(), None, None, path, bytes.as_bytes(), to_git)?;
    told(rt, &kept)
}

#[test]
fn new_files(rt: HostRuntime) -> Result<(), Fail> {
    let rows = [
        ("hello.txt", HELLO),
        ("a/b/hello.txt", HELLO),
        ("hello", BARE),
        ("a.txt/hello", BARE),
        (".gitmodules", "in git"),
        ("a/.gitattributes", "in git"),
        (".git", "in git"),
        ("a/.gitx", "in git"),
        (".gitx/hello.txt", HELLO),
        ("a.git/hello.txt", HELLO),
        (
            "x.git.txt",
            "SHA256E-s6--5891b5b522d5df086d0ff0b110fbd9d21bb4fc7163af34d08286a2e846f6be03.git.txt",
        ),
        ("git", BARE),
        (".datalad", "in git"),
        (".datalad/x", "in git"),
        (".datalad/a/hello.txt", "in git"),
        ("x/.datalad/hello.txt", HELLO),
        ("x/.datalad", BARE),
        (".dataladx/hello.txt", HELLO),
        ("datalad/hello.txt", HELLO),
    ];
    for (path, want) in rows {
        assert_eq!(&rt;
            new_file(&rt, path, "hello\n", false)?.as_str(),
            want,
            "{path}"
        );
        assert_eq!(&rt;
            new_file(&rt, path, "hello\n", true)?.as_str(),
            "in git",
            "{path}"
        );
    }
    Ok(())
}

#[test]
fn pointers(rt: HostRuntime) -> Result<(), Fail> {
    for path in ["hello.txt", ".gitmodules", ".datalad/x"] {
        for to_git in [false, true] {
            assert_eq!(&rt;
                new_file(&rt, path, POINTER, to_git)?.as_str(),
                POINTER,
                "{path}"
            );
            assert_eq!(&rt;
                new_file(&rt, path, LINE, to_git)?.as_str(),
                POINTER,
                "{path}"
            );
        }
    }
    for end in ["\n\n", "\nx", "xy", " ", ".a.b\n"] {
        let text = format!(in rt.alloc(); "{LINE}{end}")?;
        assert_eq!(&rt;
            new_file(&rt, ".gitx", text.as_str(), false)?.as_str(),
            "in git",
            "{end}"
        );
    }
    Ok(())
}

// How a file is kept whose old leaf is kept in git with these bytes.
fn in_git(rt: &HostRuntime, old: &str, bytes: &str, to_git: bool) -> Result<String, Fail> {
    let id = blob_id(old.as_bytes());
    let kept = how_kept(
        rt.alloc(),
        Some(id),
        None,
        "hello.txt",
        bytes.as_bytes(),
        to_git,
    )?;
    told(rt, &kept)
}

#[test]
fn files_in_git(rt: HostRuntime) -> Result<(), Fail> {
    let rows = [
        ("hello\n", "hello\n", "same"),
        ("hello\n", "hallo\n", "in git"),
        ("hello\n", "", "in git"),
        ("", "", "same"),
        ("hello\n", POINTER, POINTER),
        ("hello\n", LINE, POINTER),
        (LINE, LINE, "same"),
        (LINE, POINTER, POINTER),
    ];
    for (old, bytes, want) in rows {
        assert_eq!(&rt; in_git(&rt, old, bytes, false)?.as_str(), want, "{old}");
        assert_eq!(&rt; in_git(&rt, old, bytes, true)?.as_str(), want, "{old}");
    }
    Ok(())
}

// How a file is kept whose old leaf is annexed with this key.
fn annexed(rt: &HostRuntime, key: &Key, path: &str, bytes: &str) -> Result<String, Fail> {
    let id = blob_id(POINTER.as_bytes());
    let kept = how_kept(
        rt.alloc(),
        Some(id),
        Some(key),
        path,
        bytes.as_bytes(),
        true,
    )?;
    told(rt, &kept)
}

#[test]
fn annexed_files(rt: HostRuntime) -> Result<(), Fail> {
    let key = from_text(rt.alloc(), HELLO)?;
    let rows = [
        ("hello.txt", POINTER, "same"),
        ("hello.txt", LINE, "same"),
        ("hello.txt", "hello\n", "same content"),
        ("a/hello.md", "hello\n", "same content"),
        (".gitx", "hello\n", "same content"),
        ("hello.txt", "hallo\n", HALLO),
        ("hello.txt", "hello world\n", LONGER),
        ("hello.txt", "", EMPTY),
        (
            ".datalad/.git.txt",
            "hallo\n",
            "SHA256E-s6--622cb3371c1a08096eaac564fb59acccda1fcdbe13a9dd10b486e6463c8c2525.git.txt",
        ),
        ("hello.txt", OTHER, OTHER),
    ];
    for (path, bytes, want) in rows {
        assert_eq!(&rt; annexed(&rt, &key, path, bytes)?.as_str(), want, "{bytes}");
    }
    Ok(())
}

// A content that is itself a pointer: that it matches comes first.
#[test]
fn contents_that_are_pointers(rt: HostRuntime) -> Result<(), Fail> {
    let key = key_of(rt.alloc(), OTHER.as_bytes(), "a")?;
    assert_eq!(&rt; annexed(&rt, &key, "a", OTHER)?.as_str(), "same content");
    assert_eq!(&rt; annexed(&rt, &key, "a", POINTER)?.as_str(), POINTER);
    Ok(())
}

// Tests how many bytes a file's new blob has, and the id of its new leaf.
fn blob_is(rt: &impl Abort, kept: &Kept, bytes: &str, size: usize, hex: &str) {
    let body = kept.new_blob(bytes.as_bytes()).unwrap_or(b"");
    assert_eq!(rt; body.len(), size);
    let id = kept.leaf_id(None, bytes.as_bytes()).unwrap_or(Id([0; 20]));
    assert_eq!(rt; id.to_hex().as_slice(), hex.as_bytes());
}

#[test]
fn blobs(rt: HostRuntime) -> Result<(), Fail> {
    let pointer = "39b3ecb685e7d01850073c97ecc20aeeb699a30c";
    let content = how_kept(rt.alloc(), None, None, "hello.txt", b"hello\n", false)?;
    blob_is(&rt, &content, "hello\n", 96, pointer);
    let line = how_kept(rt.alloc(), None, None, "hello.txt", LINE.as_bytes(), false)?;
    blob_is(&rt, &line, LINE, 96, pointer);
    let plain = how_kept(rt.alloc(), None, None, ".gitx", b"hello\n", false)?;
    blob_is(
        &rt,
        &plain,
        "hello\n",
        6,
        "ce013625030ba8dba906f756967f9e9ca394464a",
    );
    let old = blob_id(b"hello\n");
    let same = how_kept(rt.alloc(), Some(old), None, "hello.txt", b"hello\n", false)?;
    assert!(&rt; same.new_blob(b"hello\n").is_none());
    assert!(&rt; same.leaf_id(Some(old), b"hello\n") == Some(old));
    Ok(())
}

#[test]
fn limits(rt: HostRuntime) -> Result<(), Fail> {
    let key = from_text(rt.alloc(), HELLO)?;
    let id = blob_id(POINTER.as_bytes());
    assert_eq!(&rt; size_limit(Some(id), Some(&key), ".gitx", true), 67_108_864);
    assert_eq!(&rt; size_limit(Some(id), None, "hello.txt", false), 16_777_216);
    let rows = [
        ("hello.txt", false, 67_108_864),
        ("hello.txt", true, 16_777_216),
        ("a/.gitx", false, 16_777_216),
        (".datalad/x", false, 16_777_216),
        ("x/.datalad/y", false, 67_108_864),
    ];
    for (path, to_git, limit) in rows {
        assert_eq!(&rt; size_limit(None, None, path, to_git), limit, "{path}");
    }
    Ok(())
}
