// A line of a location log.
ghost use Rattle.std.specs.Prelude.{◌≡◌, ◌<◌};
ghost use Rattle.config_text.specs.All.{IsUuid};
ghost use Rattle.location_log.specs.Plain.{IsLogLine};

use std::marker::Model;
use uuid::Uuid;

/// What is said of a repository's copy of a content. A dead repository is gone for good.
#[derive(Clone, Copy, Debug, PartialEq, Eq)]
pub enum Claim {
    Present,
    Absent,
    Dead,
}

impl Claim {
    ghost use Rattle.location_log.specs.Counting.{weight};
    ghost use Rattle.location_log.specs.Texts.{status_text};

    // Of two claims of one time the heavier counts.
    pub(crate) fn weight(self) -> u8
        ensures { result ≡ weight self }
    {
        match self {
            Claim::Present => 0,
            Claim::Absent => 1,
            Claim::Dead => 2,
        }
    }

    // What stands for it in a line.
    pub(crate) fn status(self) -> &'static str
        ensures { result.now ≡ status_text self }
    {
        match self {
            Claim::Present => "1",
            Claim::Absent => "0",
            Claim::Dead => "X",
        }
    }
}

/// At a time, in whole seconds and nanoseconds (below 1,000,000,000), what is said of a
/// repository's copy.
#[derive(Clone, Copy, Debug)]
pub struct LogLine {
    secs: u64,
    nanos: u32,
    claim: Claim,
    uuid: Uuid,
}

impl Model for LogLine {
    ghost use Rattle.location_log.specs.Plain.{IsLogLine, PlainLine};

    ghost Value = { PlainLine };

    ghost view = { λ l. record {
      secs = l.secs;
      nanos = l.nanos;
      claim = l.claim;
      uuid = l.uuid;
    } };

    ghost inverse = { λ l. record {
      secs = l.secs;
      nanos = l.nanos;
      claim = l.claim;
      uuid = l.uuid;
    } };

    ghost invariant = { λ l. IsLogLine (record {
      secs = l.secs;
      nanos = l.nanos;
      claim = l.claim;
      uuid = l.uuid;
    }) };
}

// The bytes of a UUID.
fn sixteen(bytes: [u8; 16]) -> [u8; 16]
    ensures value { result ≡ bytes }
    ensures stored { IsUuid result }
{
    bytes
}

impl LogLine {
    pub(crate) fn new(secs: u64, nanos: u32, claim: Claim, uuid: &Uuid) -> LogLine
        requires { nanos < 1000000000 }
        ensures { result
            ≡ record { secs = secs; nanos = nanos; claim = claim; uuid = uuid.now } }
    {
        LogLine {
            secs,
            nanos,
            claim,
            uuid: Uuid::from_bytes(sixteen(*uuid.as_bytes())),
        }
    }

    /// The whole seconds of its time.
    pub fn secs(&self) -> u64
        ensures value { result ≡ self.now.secs }
        ensures stored { IsLogLine self.now }
    {
        self.secs
    }

    /// The nanoseconds behind them.
    pub fn nanos(&self) -> u32
        ensures value { result ≡ self.now.nanos }
        ensures small { result < 1000000000 }
    {
        self.nanos
    }

    pub fn claim(&self) -> Claim
        ensures { result ≡ self.now.claim }
    {
        self.claim
    }

    /// The repository of which the line speaks.
    pub fn uuid(&self) -> Uuid
        ensures { result ≡ self.now.uuid }
    {
        self.uuid
    }
}
