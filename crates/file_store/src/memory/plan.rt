// Which calls fail.
ghost use Rattle.std.specs.Prelude.{◌≡◌, ◌≢◌, OnOk, OnErr, IfErr};
ghost use Rattle.file_store.specs.declared.memory.plan.Turn.TheVariants.{Works};
ghost use Rattle.file_store.specs.declared.errors.FileErr.TheVariants.{Failed};

use crate::errors::FileErr;
use std::alloc::Global;

/// What happens to a call.
#[derive(Clone, Copy, PartialEq, Eq)]
pub(crate) enum Turn {
    Works,
    FailsBefore,
    FailsAfter,
}

/// Which calls fail, without their effect or after it. They are counted from 1.
#[derive(Drop)]
pub(crate) struct Plan {
    calls: u64,
    faults: u64,
    before: Vec<u64>,
    after: Vec<u64>,
    stop: Option<u64>,
}

impl Plan {
    ghost use Rattle.file_store.specs.Memory.Plan.{NoneFails, is_stopped, turn_at, turn_of, with_call, with_fault};

    // None fails.
    pub(crate) fn new(alloc: Global) -> Plan
        ensures faults { result.faults ≡ 0 }
        ensures plan { NoneFails result }
    {
        Plan {
            calls: 0,
            faults: 0,
            before: Vec::new(alloc),
            after: Vec::new(alloc),
            stop: None,
        }
    }

    pub(crate) fn fail_at(&mut self, before: Vec<u64>, after: Vec<u64>)
        ensures { self.new ≡ record self.old { before = before; after = after } }
    {
        self.before = before;
        self.after = after;
    }

    pub(crate) fn fail_before(&mut self, before: Vec<u64>)
        ensures { self.new ≡ record self.old { before = before } }
    {
        self.before = before;
    }

    pub(crate) fn stop_at(&mut self, n: u64)
        ensures { self.new ≡ record self.old { stop = Some n } }
    {
        self.stop = Some(n);
    }

    // How many calls were counted.
    pub(crate) fn calls(&self) -> u64
        ensures { result ≡ self.now.calls }
    {
        self.calls
    }

    // Counts a call, and says what happens to it.
    pub(crate) fn next(&mut self) -> Turn
        ensures turn { result ≡ turn_of self.old }
        ensures plan { self.new ≡ with_call self.old }
    {
        self.calls = self.calls.saturating_add(1);
        self.turn()
    }

    // Counts a fault: the call that is counted is answered as failed.
    pub(crate) fn count_fault(&mut self)
        ensures { self.new ≡ with_fault self.old }
    {
        self.faults = self.faults.saturating_add(1);
    }

    // The answer of a call that has come to its end, with its fault counted.
    pub(crate) fn answer(&mut self, turn: Turn) -> Result<(), FileErr>
        ensures works { OnOk result (turn ≡ Works) }
        ensures same { OnOk result (self.new ≡ self.old) }
        ensures fails { IfErr result (λ e. (e ≡ Failed) × (turn ≢ Works)) }
        ensures fault { OnErr result (self.new ≡ with_fault self.old) }
    {
        match turn {
            Turn::Works => Ok(()),
            _ => {
                self.count_fault();
                Err(FileErr::Failed)
            }
        }
    }

    // What happens to the call that is counted.
    fn turn(&self) -> Turn
        ensures { result ≡ turn_at self.now self.now.calls }
    {
        if self.is_stopped() || self.before.contains(&self.calls) {
            Turn::FailsBefore
        } else if self.after.contains(&self.calls) {
            Turn::FailsAfter
        } else {
            Turn::Works
        }
    }

    fn is_stopped(&self) -> bool
        ensures { result ≡ is_stopped self.now.stop self.now.calls }
    {
        match self.stop {
            Some(n) => n <= self.calls,
            None => false,
        }
    }
}
