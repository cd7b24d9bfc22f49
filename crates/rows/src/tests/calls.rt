// Calls of the program at `/w`, with one moment and one draw of random bytes.
use datalad_cli::{Status, datalad};
use file_store::{MemFiles, MemSink, Place};
use std::alloc::Global;
use std::process::Abort;

/// The words of a call with a space after each but the last, and what it answers: an exit status
/// and the texts of both outputs.
#[derive(Drop)]
pub(super) struct Row<'a> {
    pub(super) words: &'a str,
    pub(super) code: u8,
    pub(super) out: &'a str,
    pub(super) err: &'a str,
}

pub(super) fn place(rt: &impl Abort, alloc: Global, text: &str) -> Place {
    Place::parse(alloc, text).expect(rt, "a place")
}

// No word where the text is empty.
pub(super) fn words_of(rt: &impl Abort, alloc: Global, text: &str) -> Vec<String> {
    let mut words = Vec::new(alloc);
    if !text.is_empty() {
        for word in text.split(' ') {
            let word = String::from_str(alloc, word).expect(rt, "memory");
            words.push(word).expect(rt, "memory");
        }
    }
    words
}

pub(super) fn code_of(status: Status) -> u8 {
    let code = status.code();
    drop(status);
    code
}

// The exit status of a call.
pub(super) fn call(
    rt: &impl Abort,
    alloc: Global,
    words: &str,
    files: &mut MemFiles,
    out: &mut MemSink,
    err: &mut MemSink,
) -> u8 {
    let words = words_of(rt, alloc, words);
    let cwd = place(rt, alloc, "/w");
    let words = words.as_slice();
    code_of(datalad(alloc, words, &cwd, 1700000000, [7; 16], files, out, err))
}

pub(super) fn is_text(rt: &impl Abort, words: &str, got: &[u8], want: &str) {
    assert_eq!(rt; got, want.as_bytes(), "{words}");
}

pub(super) fn is_code(rt: &impl Abort, words: &str, got: u8, want: u8) {
    assert_eq!(rt; got, want, "{words}");
}

// A call answers as its row says.
pub(super) fn says(rt: &impl Abort, alloc: Global, files: &mut MemFiles, row: &Row<'_>) {
    let mut out = MemSink::new(alloc);
    let mut err = MemSink::new(alloc);
    let code = call(rt, alloc, row.words, files, &mut out, &mut err);
    is_text(rt, row.words, err.bytes(), row.err);
    is_text(rt, row.words, out.bytes(), row.out);
    is_code(rt, row.words, code, row.code);
}
