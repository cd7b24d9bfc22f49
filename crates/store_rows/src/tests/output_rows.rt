// Outputs: one that takes two bytes a call, and the one in memory.
ghost use Rattle.std.specs.Prelude.{true};

use super::common::{are_bytes, holds};
use file_store::{MemSink, Sink, SinkErr, write_whole};
use std::alloc::Global;
use std::process::Abort;

// Takes two bytes a call. The call with that number fails.
#[derive(Drop)]
struct Slow {
    taken: Vec<u8>,
    calls: u64,
    faults: u64,
    wants: u64,
    failing: u64,
}

impl Slow {
    fn new(alloc: Global, failing: u64) -> Slow {
        Slow {
            taken: Vec::new(alloc),
            calls: 0,
            faults: 0,
            wants: 0,
            failing,
        }
    }
}

impl Sink for Slow {
    ghost tells = { true };

    ghost tape = { λ sink. record { bytes = sink.taken.items; faults = sink.faults; wants = sink.wants } };

    fn write(&mut self, piece: &[u8]) -> Result<usize, SinkErr> {
        self.calls = self.calls.saturating_add(1);
        if self.calls == self.failing {
            self.faults = self.faults.saturating_add(1);
            return Err(SinkErr::Failed);
        }
        let count = if piece.len() < 2 { piece.len() } else { 2 };
        match self.taken.extend_from_slice(&piece[..count]) {
            Ok(()) => Ok(count),
            Err(_) => {
                self.wants = self.wants.saturating_add(1);
                Err(SinkErr::NoMemory)
            }
        }
    }
}

// A text is written whole, or that comes of it.
fn ends<S: Sink>(rt: &impl Abort, sink: &mut S, text: &[u8], end: Result<(), SinkErr>) {
    holds(rt, write_whole(sink, text) == end, "a text");
}

#[test]
fn whole_texts(rt: HostRuntime) {
    let mut slow = Slow::new(rt.alloc(), 0);
    ends(&rt, &mut slow, b"abcde", Ok(()));
    are_bytes(&rt, slow.taken.as_slice(), b"abcde");
    holds(&rt, slow.calls == 3, "three calls");

    // nothing is written of a text that is empty
    ends(&rt, &mut slow, b"", Ok(()));
    holds(&rt, slow.calls == 3, "three calls");
}

#[test]
fn second_write_fails(rt: HostRuntime) {
    let mut slow = Slow::new(rt.alloc(), 2);
    ends(&rt, &mut slow, b"abcd", Err(SinkErr::Failed));
    are_bytes(&rt, slow.taken.as_slice(), b"ab");
}

#[test]
fn output_in_memory(rt: HostRuntime) {
    let mut sink = MemSink::new(rt.alloc());
    ends(&rt, &mut sink, b"one\n", Ok(()));
    sink.fail_at([2].to_vec(rt.alloc()).expect(&rt, "memory"));
    ends(&rt, &mut sink, b"two\n", Err(SinkErr::Failed));
    ends(&rt, &mut sink, b"three\n", Ok(()));
    are_bytes(&rt, sink.bytes(), b"one\nthree\n");
}
