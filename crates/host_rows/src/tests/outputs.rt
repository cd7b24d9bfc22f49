// Outputs: one suite over that of the host and that in memory, and writers that fail.
use super::common::are_bytes;
use file_store::{MemSink, Sink, SinkErr, write_whole};
use host_edge::HostSink;
use std::io::{self, Error, ErrorKind, Write};
use std::process::Abort;

fn takes<S: Sink>(rt: &impl Abort, sink: &mut S, piece: &[u8], wanted: Result<usize, SinkErr>) {
    assert!(rt; sink.write(piece) == wanted);
}

// What an output takes.
fn takes_all<S: Sink>(rt: &impl Abort, sink: &mut S) {
    takes(rt, sink, b"", Ok(0));
    assert!(rt; write_whole(sink, b"some bytes\n") == Ok(()));
}

#[test]
fn output_of_a_writer(rt: HostRuntime) {
    let mut sink = HostSink::new(rt.stdout());
    takes_all(&rt, &mut sink);
}

#[test]
fn output_in_memory(rt: HostRuntime) {
    let mut sink = MemSink::new(rt.alloc());
    takes_all(&rt, &mut sink);
    are_bytes(&rt, sink.bytes(), b"some bytes\n");
}

// A writer of which the first write ends so, and each later one takes all.
#[derive(Drop)]
struct Stumbling {
    first: Option<ErrorKind>,
}

impl Write for Stumbling {
    fn write(&mut self, piece: &[u8]) -> io::Result<usize> {
        match self.first.take() {
            Some(kind) => Err(Error::from(kind)),
            None => Ok(piece.len()),
        }
    }

    fn flush(&mut self) -> io::Result<()> {
        Ok(())
    }
}

fn ends_so(rt: &impl Abort, kind: ErrorKind, wanted: Result<usize, SinkErr>) {
    let mut sink = HostSink::new(Stumbling { first: Some(kind) });
    takes(rt, &mut sink, b"text", wanted);
    takes(rt, &mut sink, b"text", Ok(4));
}

#[test]
fn outputs_that_fail(rt: HostRuntime) {
    ends_so(&rt, ErrorKind::Interrupted, Ok(4));
    ends_so(&rt, ErrorKind::OutOfMemory, Err(SinkErr::NoMemory));
    ends_so(&rt, ErrorKind::StorageFull, Err(SinkErr::Failed));
}
