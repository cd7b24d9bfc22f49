// An output in memory: the bytes that it took, and the plan of the writes that fail.
ghost use Rattle.std.specs.Prelude.{◌≡◌, ◌≢◌, [], length, IfOk};
ghost use Rattle.file_store.specs.Memory.Plan.{turn_of, counted, NoneFails};
ghost use Rattle.file_store.specs.Memory.Sink.{tape_of};
ghost use Rattle.file_store.specs.declared.memory.plan.Turn.TheVariants.{Works};

use crate::errors::SinkErr;
use crate::memory::plan::{Plan, Turn};
use crate::sinks::Sink;
use std::alloc::Global;

/// An output in memory. It tells what it took.
#[derive(Drop)]
pub struct MemSink {
    bytes: Vec<u8>,
    plan: Plan,
    wants: u64,
}

impl MemSink {
    /// An output that took nothing, and of which no write fails.
    pub fn new(alloc: Global) -> MemSink
        ensures tape { tape_of result ≡ record { bytes = []; faults = 0; wants = 0 } }
        ensures plan { NoneFails result.plan }
    {
        MemSink {
            bytes: Vec::new(alloc),
            plan: Plan::new(alloc),
            wants: 0,
        }
    }

    /// The writes with these numbers, counted from 1, take nothing and answer Failed.
    pub fn fail_at(&mut self, calls: Vec<u64>)
        ensures tape { tape_of self.new ≡ tape_of self.old }
        ensures plan { self.new ≡ record self.old { plan = record self.old.plan { before = calls } } }
    {
        self.plan.fail_before(calls);
    }

    /// What it took.
    pub fn bytes(&self) -> &[u8]
        ensures { result.now ≡ (tape_of self.now).bytes }
    {
        self.bytes.as_slice()
    }
}

impl Sink for MemSink {
    ghost use Rattle.std.specs.Prelude.{true, ◌↔◌, Err};
    ghost use Rattle.file_store.specs.Tape.{CountsBoth, PieceEnds, sink_failed};
    ghost use Rattle.file_store.specs.declared.errors.SinkErr.TheVariants.{Failed, NoMemory};

    ghost tells = { true };

    ghost tape = { tape_of };

    fn write(&mut self, piece: &[u8]) -> Result<usize, SinkErr>
        ensures later { CountsBoth (tape_of self.old) (tape_of self.new) result }
        ensures ends { PieceEnds true piece.now (tape_of self.old) (tape_of self.new) result }
        ensures whole { IfOk result (λ count. count ≡ length piece.now) }
        ensures turn { (result ≡ Err Failed) ↔ (turn_of self.old.plan ≢ Works) }
        ensures count { self.new.plan ≡ counted (sink_failed result) self.old.plan }
        ensures wants { result ≢ Err NoMemory → self.new.wants ≡ self.old.wants }
    {
        if self.plan.next() != Turn::Works {
            self.plan.count_fault();
            return Err(SinkErr::Failed);
        }
        match self.bytes.extend_from_slice(piece) {
            Ok(()) => Ok(piece.len()),
            Err(_) => {
                self.wants = self.wants.saturating_add(1);
                Err(SinkErr::NoMemory)
            }
        }
    }
}
