// An output of the host, as a stream or a file.
ghost use Rattle.std.specs.Prelude.{◌≤◌, length, IfOk};

use file_store::{Sink, SinkErr};
use std::io::{self, Error, ErrorKind, Write};

/// An output of the host.
#[derive(Drop)]
pub struct HostSink<W: Write + Drop> {
    writer: W,
    faults: u64,
    wants: u64,
    reason: Option<Error>,
}

impl<W: Write + Drop> HostSink<W> {
    pub fn new(writer: W) -> HostSink<W> {
        HostSink {
            writer,
            faults: 0,
            wants: 0,
            reason: None,
        }
    }

    /// Why it failed last, if it did.
    pub fn reason(&self) -> Option<Error> {
        self.reason
    }
}

// One write, begun again where a signal cut it off.
fn write_once<W: Write>(writer: &mut W, piece: &[u8]) -> io::Result<usize>
    ensures { IfOk result (λ n. n ≤ length piece.now) }
{
    for _ in 0..u64::MAX {
        match writer.write(piece) {
            Ok(n) => return Ok(n),
            Err(e) => {
                if e.kind() != ErrorKind::Interrupted {
                    return Err(e);
                }
            }
        }
    }
    Err(Error::from(ErrorKind::Interrupted))
}

impl<W: Write + Drop> Sink for HostSink<W> {
    ghost use Rattle.std.specs.Prelude.{false, []};

    ghost tells = { false };

    ghost tape = { λ s. record { bytes = []; faults = s.faults; wants = s.wants } };

    fn write(&mut self, piece: &[u8]) -> Result<usize, SinkErr> {
        match write_once(&mut self.writer, piece) {
            Ok(n) => {
                // An output that takes nothing of a piece would be written to for ever.
                if n == 0 && !piece.is_empty() {
                    self.faults = self.faults.saturating_add(1);
                    self.reason = Some(Error::from(ErrorKind::WriteZero));
                    return Err(SinkErr::Failed);
                }
                Ok(n)
            }
            Err(e) => {
                if e.kind() == ErrorKind::OutOfMemory {
                    self.wants = self.wants.saturating_add(1);
                    return Err(SinkErr::NoMemory);
                }
                self.faults = self.faults.saturating_add(1);
                self.reason = Some(e);
                Err(SinkErr::Failed)
            }
        }
    }
}
