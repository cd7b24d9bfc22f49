// Indexes beside bytes that are made here by hand.
mod making;

use git_objects::{Id, Mode};
use index_file::{IndexEntry, IndexErr, decode, encode, have_one_reading, is_index, reread};
use making::{body_of_two, changed, cut, entry, entry_bytes, head, id_of, signed};
use std::alloc::Global;
use std::process::Abort;

const CONFIG: &[u8] = b"3f24901c925d185da94f073ed284bd7e55eedb60";

const EMPTY: &[u8] = b"e69de29bb2d1d6434b8b29ae775ad8c2e48c5391";

const HELLO: &[u8] = b"ce013625030ba8dba906f756967f9e9ca394464a";

// Where the bytes stop being an index; 10000 and how many entries there are where they are one.
fn stop(rt: &impl Abort, alloc: Global, bytes: &[u8]) -> u64 {
    match decode(alloc, bytes) {
        Ok(list) => list.len().min(1000) as u64 + 10000,
        Err(IndexErr::BadIndex { at }) => at,
        Err(IndexErr::NoMemory) => rt.abort(),
    }
}

// The list is written as these bytes, and these bytes are read as the list.
fn is_text(rt: &impl Abort, alloc: Global, list: &[IndexEntry], bytes: &[u8]) {
    assert!(rt; is_index(list));
    let text = encode(alloc, list).expect(rt, "memory");
    assert_eq!(rt; text.as_slice(), bytes);
    let read = decode(alloc, bytes).expect(rt, "an index");
    assert_eq!(rt; read.len(), list.len());
    for (one, two) in list.iter().zip(read.iter()) {
        assert_eq!(rt; one.path.as_str(), two.path.as_str());
        assert!(rt; one.mode == two.mode && one.id == two.id);
    }
}

#[test]
fn empty(rt: HostRuntime) {
    // The index of 32 bytes that git writes for no files.
    let mut bytes = head(&rt, rt.alloc(), 0);
    let sum = id_of(&rt, b"39d890139ee5356c7ef572216cebcd27aa41f9df");
    bytes.extend_from_slice(&sum.0).expect(&rt, "memory");
    let list: Vec<IndexEntry> = Vec::new(rt.alloc());
    assert_eq!(rt; bytes.len(), 32);
    is_text(&rt, rt.alloc(), list.as_slice(), bytes.as_slice());
    have_one_reading();
}

#[test]
fn a_new_dataset(rt: HostRuntime) {
    let mut bytes = head(&rt, rt.alloc(), 1);
    bytes.extend_from_slice(&[0; 26]).expect(&rt, "memory");
    bytes.extend_from_slice(b"\x81\xa4").expect(&rt, "memory");
    bytes.extend_from_slice(&[0; 12]).expect(&rt, "memory");
    bytes
        .extend_from_slice(&id_of(&rt, CONFIG).0)
        .expect(&rt, "memory");
    bytes
        .extend_from_slice(b"\x00\x0f.datalad/config\0\0\0")
        .expect(&rt, "memory");
    let sum = id_of(&rt, b"f211026226c609883e29308a9cefde524f0ec393");
    bytes.extend_from_slice(&sum.0).expect(&rt, "memory");
    assert_eq!(rt; bytes.len(), 112);
    let alloc = rt.alloc();
    let list = vec![in alloc; entry(&rt, alloc, ".datalad/config", Mode::File, CONFIG)];
    let list = list.expect(&rt, "memory");
    is_text(&rt, alloc, list.as_slice(), bytes.as_slice());
}

#[test]
fn modes(rt: HostRuntime) {
    let rows = [
        (Mode::File, b"\x00\x00\x81\xa4"),
        (Mode::Exec, b"\x00\x00\x81\xed"),
        (Mode::Link, b"\x00\x00\xa0\x00"),
        (Mode::Pin, b"\x00\x00\xe0\x00"),
    ];
    let alloc = rt.alloc();
    for (mode, number) in rows {
        let mut bytes = head(&rt, alloc, 1);
        entry_bytes(
            &rt,
            &mut bytes,
            number,
            HELLO,
            b"\x00\x07",
            b"d\xc3\xa4/b c",
        );
        bytes.extend_from_slice(b"\0\0\0").expect(&rt, "memory");
        let bytes = signed(&rt, alloc, bytes.as_slice());
        let list = vec![in alloc; entry(&rt, alloc, "d\u{e4}/b c", mode, HELLO)];
        let list = list.expect(&rt, "memory");
        is_text(&rt, alloc, list.as_slice(), bytes.as_slice());
    }
}

#[test]
fn changed_bytes(rt: HostRuntime) {
    // A byte of the body, its new value, and where the index stops; 10002 where it is still one.
    let rows = [
        (0, b'X', 0),
        (7, 3, 0),
        (11, 1, 76),
        (11, 3, 148),
        (12, 9, 10002),
        (35, 9, 10002),
        (36, 1, 36),
        (38, 0x41, 36),
        (39, 0xA5, 36),
        (39, 0xB4, 36),
        (40, 9, 10002),
        (51, 9, 10002),
        (52, 9, 10002),
        (72, 0x80, 10002),
        (72, 0x40, 72),
        (72, 0x20, 72),
        (72, 0x10, 72),
        (72, 0x08, 74),
        (73, 0, 74),
        (73, 2, 74),
        (74, 0, 74),
        (74, 0xFF, 74),
        (74, b'b', 10002),
        (74, b'c', 138),
        (75, 1, 75),
        (103, 0xA4, 10002),
        (136, 0xC0, 136),
        (137, 2, 140),
        (138, b'a', 10002),
        (141, 5, 141),
        (147, 5, 141),
    ];
    let alloc = rt.alloc();
    let body = body_of_two(&rt, alloc);
    for (at, byte, place) in rows {
        let other = changed(&rt, alloc, body.as_slice(), at, byte);
        let bytes = signed(&rt, alloc, other.as_slice());
        assert_eq!(rt; stop(&rt, alloc, bytes.as_slice()), place, "byte {at}");
    }
}

#[test]
fn changed_sums(rt: HostRuntime) {
    let alloc = rt.alloc();
    let body = body_of_two(&rt, alloc);
    let bytes = signed(&rt, alloc, body.as_slice());
    assert_eq!(rt; stop(&rt, alloc, bytes.as_slice()), 10002);
    for at in [148, 155, 167] {
        for byte in [1, 2] {
            let other = changed(&rt, alloc, bytes.as_slice(), at, byte);
            if other.as_slice() != bytes.as_slice() {
                assert_eq!(rt; stop(&rt, alloc, other.as_slice()), 148);
            }
        }
    }
}

#[test]
fn short_texts(rt: HostRuntime) {
    // How many bytes of the body are left, and where the index stops.
    let rows = [
        (0, 0),
        (11, 0),
        (12, 12),
        (35, 12),
        (36, 36),
        (39, 36),
        (40, 40),
        (51, 40),
        (52, 52),
        (71, 52),
        (72, 72),
        (73, 72),
        (74, 74),
        (75, 75),
        (76, 76),
        (140, 138),
        (141, 141),
        (147, 141),
        (148, 10002),
    ];
    let alloc = rt.alloc();
    let body = body_of_two(&rt, alloc);
    for (size, place) in rows {
        let other = cut(&rt, alloc, body.as_slice(), size, b"");
        let bytes = signed(&rt, alloc, other.as_slice());
        assert_eq!(rt; stop(&rt, alloc, bytes.as_slice()), place, "{size} bytes");
    }
    assert_eq!(rt; stop(&rt, alloc, b""), 0);
    assert_eq!(rt; stop(&rt, alloc, b"DIRC\0\0\0\x02\0\0\0\0"), 0);
}

#[test]
fn extensions(rt: HostRuntime) {
    let rows = [
        (b"TREE\0\0\0\x02ab".as_slice(), 10002),
        (b"TREE\0\0\0\0".as_slice(), 10002),
        (b"Zzzz\0\0\0\x01aREUC\0\0\0\0".as_slice(), 10002),
        (b"link\0\0\0\0".as_slice(), 148),
        (b"TR3E\0\0\0\0".as_slice(), 148),
        (b"TREE\0\0\0\x03ab".as_slice(), 148),
        (b"TREE\0\0\0".as_slice(), 148),
        (b"TRE".as_slice(), 148),
        (b"TREE\0\0\0\x01alink\0\0\0\0".as_slice(), 157),
    ];
    let alloc = rt.alloc();
    let body = body_of_two(&rt, alloc);
    for (end, place) in rows {
        let other = cut(&rt, alloc, body.as_slice(), 148, end);
        let bytes = signed(&rt, alloc, other.as_slice());
        assert_eq!(rt; stop(&rt, alloc, bytes.as_slice()), place, "{end:?}");
    }
}

#[test]
fn long_paths(rt: HostRuntime) {
    // A path's length, what the flags say of it, and how many NULs follow.
    let rows = [
        (255, b"\x00\xff", 3),
        (256, b"\x01\x00", 2),
        (4094, b"\x0f\xfe", 4),
        (4095, b"\x0f\xff", 3),
        (4096, b"\x0f\xff", 2),
        (4098, b"\x0f\xff", 8),
        (5001, b"\x0f\xff", 1),
    ];
    let alloc = rt.alloc();
    for (size, flags, nuls) in rows {
        let path = "p".repeat(alloc, size).expect(&rt, "memory");
        let mut bytes = head(&rt, alloc, 1);
        let text = path.as_str();
        entry_bytes(
            &rt,
            &mut bytes,
            b"\0\0\xa0\x00",
            HELLO,
            flags,
            text.as_bytes(),
        );
        for _ in 0..nuls {
            bytes.push(0).expect(&rt, "memory");
        }
        let bytes = signed(&rt, alloc, bytes.as_slice());
        let list = vec![in alloc; entry(&rt, alloc, text, Mode::Link, HELLO)];
        let list = list.expect(&rt, "memory");
        is_text(&rt, alloc, list.as_slice(), bytes.as_slice());
    }
}

#[test]
fn wrong_lengths(rt: HostRuntime) {
    // A long path that the flags say too long or too short, with 8 NULs behind it, and where the
    // index stops.
    let rows = [
        (4094, b"\x0f\xff", 74),
        (4095, b"\x0f\xfe", 74 + 4094),
        (5000, b"\x0f\xfe", 74 + 4094),
        (5000, b"\x03\x88", 74 + 904),
    ];
    let alloc = rt.alloc();
    for (size, flags, place) in rows {
        let path = "p".repeat(alloc, size).expect(&rt, "memory");
        let mut bytes = head(&rt, alloc, 1);
        let text = path.as_str();
        entry_bytes(
            &rt,
            &mut bytes,
            b"\0\0\xa0\x00",
            HELLO,
            flags,
            text.as_bytes(),
        );
        bytes.extend_from_slice(&[0; 8]).expect(&rt, "memory");
        let bytes = signed(&rt, alloc, bytes.as_slice());
        assert_eq!(rt; stop(&rt, alloc, bytes.as_slice()), place, "{size}");
    }
}

#[test]
fn lists_without_an_index(rt: HostRuntime) {
    let rows = [
        ("a", Mode::File, "b", Mode::File, true),
        ("a", Mode::Dir, "b", Mode::File, false),
        ("a", Mode::File, "b", Mode::Dir, false),
        ("b", Mode::File, "a", Mode::File, false),
        ("a", Mode::File, "a", Mode::Exec, false),
        ("", Mode::File, "a", Mode::Exec, false),
        ("a", Mode::File, "b\0", Mode::File, false),
        ("a.b", Mode::File, "a/c", Mode::Pin, true),
        ("a/c", Mode::Pin, "a0", Mode::Link, true),
    ];
    let alloc = rt.alloc();
    for (one, mode, two, other, is) in rows {
        let list = vec![in alloc;
            entry(&rt, alloc, one, mode, EMPTY),
            entry(&rt, alloc, two, other, HELLO),
        ];
        let list = list.expect(&rt, "memory");
        assert!(rt; is_index(list.as_slice()) == is, "{one} {two}");
        if is_index(list.as_slice()) {
            let read = reread(alloc, list.as_slice()).expect(&rt, "memory");
            assert_eq!(rt; read.len(), 2);
        }
    }
}
