// Keys, pointers and hash directories beside texts worked by hand.
mod logs;

use annex_keys::{
    Backend, KeyErr, from_text, hash_dir, key_of, matches, pointer_text, read_pointer, reread_key,
    reread_pointer, rewrite_key, to_text,
};
use std::test::Fail;

// The extension that a name gives.
fn ext_under(rt: &HostRuntime, name: &str) -> Result<String, Fail> {
    let key = key_of(rt.alloc(), b"", name)?;
    Ok(String::from_str(rt.alloc(), key.ext())?)
}

#[test]
fn extensions(rt: HostRuntime) -> Result<(), Fail> {
    let rows = [
        ("x.tar.gz", ".tar.gz"),
        ("x.1.nii.gz", ".nii.gz"),
        ("hello.txt", ".txt"),
        ("x.backup1", ""),
        (".hidden", ""),
        ("a.b c", ""),
        ("x.gz.", ""),
        ("noext", ""),
    ];
    for (name, ext) in rows {
        assert_eq!(rt; ext_under(&rt, name)?.as_str(), ext);
    }
    Ok(())
}

#[test]
fn keys_of_bytes(rt: HostRuntime) -> Result<(), Fail> {
    let hello = "SHA256E-s6--5891b5b522d5df086d0ff0b110fbd9d21bb4fc7163af34d08286a2e846f6be03.txt";
    let empty = "SHA256E-s0--e3b0c44298fc1c149afbf4c8996fb92427ae41e4649b934ca495991b7852b855";
    let key = key_of(rt.alloc(), b"hello\n", "hello.txt")?;
    assert_eq!(rt; to_text(rt.alloc(), &key)?.as_str(), hello);
    let pointer = pointer_text(rt.alloc(), &key)?;
    assert_eq!(rt; pointer.as_str().len(), 96);
    assert!(rt; matches(&key, b"hello\n"));
    assert!(rt; !matches(&key, b"hallo\n"));
    let key = key_of(rt.alloc(), b"", "noext")?;
    assert_eq!(rt; to_text(rt.alloc(), &key)?.as_str(), empty);
    Ok(())
}

#[test]
fn directories(rt: HostRuntime) -> Result<(), Fail> {
    let rows = [
        (
            "SHA256E-s6--5891b5b522d5df086d0ff0b110fbd9d21bb4fc7163af34d08286a2e846f6be03.txt",
            "d91/b11",
        ),
        (
            "SHA256E-s0--e3b0c44298fc1c149afbf4c8996fb92427ae41e4649b934ca495991b7852b855",
            "f87/4d5",
        ),
    ];
    for (text, dir) in rows {
        let key = from_text(rt.alloc(), text)?;
        assert_eq!(rt; hash_dir(rt.alloc(), &key)?.as_str(), dir);
        assert_eq!(rt; to_text(rt.alloc(), &key)?.as_str(), text);
    }
    Ok(())
}

// Where a text stops being a key's, or its length where it is one.
fn stop(rt: &HostRuntime, front: &str, digits: usize, end: &str) -> Result<u64, Fail> {
    let mut text = String::from_str(rt.alloc(), front)?;
    for _ in 0..digits {
        text.push_str("a")?;
    }
    text.push_str(end)?;
    match from_text(rt.alloc(), text.as_str()) {
        Ok(_) => Ok(1000),
        Err(KeyErr::BadKey { at }) => Ok(at),
        Err(KeyErr::NoMemory) => Ok(2000),
    }
}

#[test]
fn texts_of_no_key(rt: HostRuntime) -> Result<(), Fail> {
    let rows = [
        ("SHA256E-s6--", 64, ".a.b", 1000),
        ("SHA256E-s18446744073709551615--", 64, ".a1b2", 1000),
        ("SHA256E-s06--", 64, "", 10),
        ("SHA256E-s18446744073709551616--", 64, "", 28),
        ("SHA256E-s", 0, "", 9),
        ("SHA256E-s--", 64, "", 9),
        ("SHA256-s6--", 64, "", 6),
        ("SHA256E-s6-", 64, "", 11),
        ("SHA256E-s6--", 63, ".txt", 75),
        ("SHA256E-s6--", 64, "A", 76),
        ("SHA256E-s6--", 64, ".", 77),
        ("SHA256E-s6--", 64, ".abcde", 81),
        ("SHA256E-s6--", 64, ".a.b.c", 80),
        ("SHA256E-s6--", 64, ".a\n", 78),
    ];
    for (front, digits, end, at) in rows {
        assert_eq!(rt; stop(&rt, front, digits, end)?, at, "{front}");
    }
    Ok(())
}

// Whether bytes are a pointer to the key with this text.
fn points(rt: &HostRuntime, front: &str, key: &str, end: &str) -> Result<bool, Fail> {
    let text = format!(in rt.alloc(); "{front}{key}{end}")?;
    match read_pointer(rt.alloc(), text.as_str().as_bytes())? {
        Some(found) => Ok(to_text(rt.alloc(), &found)?.as_str() == key),
        None => Ok(false),
    }
}

#[test]
fn pointers(rt: HostRuntime) -> Result<(), Fail> {
    let key = "SHA256E-s6--5891b5b522d5df086d0ff0b110fbd9d21bb4fc7163af34d08286a2e846f6be03.txt";
    assert!(rt; points(&rt, "/annex/objects/", key, "\n")?);
    assert!(rt; points(&rt, "/annex/objects/", key, "")?);
    assert!(rt; !points(&rt, "/annex/objects/", key, "\nx")?);
    assert!(rt; !points(&rt, "/annex/objects/", key, "\n\n")?);
    assert!(rt; !points(&rt, "annex/objects/", key, "\n")?);
    let read = from_text(rt.alloc(), key)?;
    assert_eq!(rt; reread_key(rt.alloc(), &read)?.ext(), ".txt");
    assert_eq!(rt; rewrite_key(rt.alloc(), key)?.as_str(), key);
    let pointed = reread_pointer(rt.alloc(), &read)?;
    assert!(rt; pointed.is_some());
    Ok(())
}
