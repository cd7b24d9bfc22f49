// Indexes made by hand, piece by piece.
use git_objects::{Id, Mode};
use index_file::IndexEntry;
use places::Text;
use sha1::Sha1;
use std::alloc::Global;
use std::process::Abort;

pub(super) fn id_of(rt: &impl Abort, hex: &[u8]) -> Id {
    Id::from_hex(hex).expect(rt, "an id")
}

pub(super) fn entry(
    rt: &impl Abort,
    alloc: Global,
    path: &str,
    mode: Mode,
    hex: &[u8],
) -> IndexEntry {
    let path = Text::new(String::from_str(alloc, path).expect(rt, "memory"));
    let id = id_of(rt, hex);
    IndexEntry { path, mode, id }
}

// The head of an index with this many entries.
pub(super) fn head(rt: &impl Abort, alloc: Global, count: u8) -> Vec<u8> {
    let mut bytes = Vec::from_slice(alloc, b"DIRC\0\0\0\x02\0\0\0").expect(rt, "memory");
    bytes.push(count).expect(rt, "memory");
    bytes
}

// An entry but for its padding.
pub(super) fn entry_bytes(
    rt: &impl Abort,
    bytes: &mut Vec<u8>,
    number: &[u8],
    hex: &[u8],
    flags: &[u8],
    path: &[u8],
) {
    bytes.extend_from_slice(&[0; 24]).expect(rt, "memory");
    bytes.extend_from_slice(number).expect(rt, "memory");
    bytes.extend_from_slice(&[0; 12]).expect(rt, "memory");
    bytes
        .extend_from_slice(&id_of(rt, hex).0)
        .expect(rt, "memory");
    bytes.extend_from_slice(flags).expect(rt, "memory");
    bytes.extend_from_slice(path).expect(rt, "memory");
}

// The body with its SHA-1.
pub(super) fn signed(rt: &impl Abort, alloc: Global, body: &[u8]) -> Vec<u8> {
    let mut bytes = Vec::from_slice(alloc, body).expect(rt, "memory");
    let sum = Sha1::digest(body);
    bytes.extend_from_slice(&sum).expect(rt, "memory");
    bytes
}

// The body of an index of `a` and `b/c`. The first entry begins at 12, its mode stands at 36, its
// flags at 72, its path at 74, its one NUL at 75. Those of the second one are 76, 100, 136, 138 and
// 141, and the body ends at 148.
pub(super) fn body_of_two(rt: &impl Abort, alloc: Global) -> Vec<u8> {
    let hello = b"ce013625030ba8dba906f756967f9e9ca394464a";
    let mut bytes = head(rt, alloc, 2);
    entry_bytes(rt, &mut bytes, b"\0\0\x81\xa4", hello, b"\x00\x01", b"a");
    bytes.push(0).expect(rt, "memory");
    entry_bytes(rt, &mut bytes, b"\0\0\x81\xed", hello, b"\x00\x03", b"b/c");
    bytes.extend_from_slice(&[0; 7]).expect(rt, "memory");
    bytes
}

// The bytes with another one at this place.
pub(super) fn changed(
    rt: &impl Abort,
    alloc: Global,
    bytes: &[u8],
    at: usize,
    byte: u8,
) -> Vec<u8> {
    let mut made = Vec::new(alloc);
    for (place, old) in bytes.iter().enumerate() {
        let new = if place == at { byte } else { *old };
        made.push(new).expect(rt, "memory");
    }
    made
}

// The first bytes, and those of an end behind them.
pub(super) fn cut(
    rt: &impl Abort,
    alloc: Global,
    bytes: &[u8],
    size: usize,
    end: &[u8],
) -> Vec<u8> {
    let mut made = Vec::new(alloc);
    for byte in bytes.iter().take(size) {
        made.push(*byte).expect(rt, "memory");
    }
    made.extend_from_slice(end).expect(rt, "memory");
    made
}
