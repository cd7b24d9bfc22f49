// How a call of the program ends.
ghost use Rattle.std.specs.Prelude.{◌≡◌};

use faults::Fault;

/// How a call ended. A device failed only where a count of faults rose, and Done, Refused and Usage come only where
/// none did.
#[derive(Debug, Drop)]
pub enum Status {
    Done,
    Refused(Fault),
    Usage { at: u64 },
    NoMemory,
    Device,
    CommandFailed { got: i32 },
}

impl Status {
    ghost use Rattle.datalad_cli.specs.Codes.{code_of};

    /// The exit status.
    pub fn code(&self) -> u8
        ensures { result ≡ code_of self.now }
    {
        match self {
            Status::Done => 0,
            Status::Refused(_) => 1,
            Status::Usage { at: _ } => 2,
            Status::NoMemory => 3,
            Status::Device => 4,
            Status::CommandFailed { got: _ } => 5,
        }
    }
}
