// The end of one call of the program, as a value that only such a call can make.
//
// Of some endings more than one status would fit: want of memory is never ruled out. So the program hands on no status
// of its own choice, but this value, and exits with its number.
ghost use Rattle.std.specs.Prelude.{◌≡◌, map, string_bytes};
ghost use Rattle.datalad_cli.specs.Answer.{call_of};
ghost use Rattle.datalad_cli.specs.Answered.{Answered};
ghost use Rattle.datalad_cli.specs.Codes.{code_of};
ghost use Rattle.datalad_cli.specs.Ends.{telling_of, world_of};

use crate::status::Status;
use crate::top::datalad;
use file_store::{Files, Place, Sink};
use std::alloc::Global;
use std::marker::Model;

/// The end of one call, seen as the status by which it ended.
#[derive(Debug, Drop)]
pub struct Ended {
    status: Status,
}

impl Model for Ended {
    ghost use Rattle.datalad_cli.specs.declared.status.Status.{Status};

    ghost Value = { Status };

    ghost view = { λ ended. ended.status };
}

impl Ended {
    /// The exit status.
    pub fn code(&self) -> u8
        ensures { result ≡ code_of self.now }
    {
        self.status.code()
    }
}

/// One call of the program, as `datalad` makes it.
pub fn run<F: Files, O: Sink, E: Sink>(
    alloc: Global,
    words: &[String],
    cwd: &Place,
    moment: u64,
    fresh: [u8; 16],
    files: &mut F,
    out: &mut O,
    err: &mut E,
) -> Ended
    ensures { Answered (telling_of F.tells O.tells E.tells)
        (call_of (map string_bytes words.now) cwd.now moment fresh)
        (world_of (F.drive files.old) (O.tape out.old) (E.tape err.old))
        (world_of (F.drive files.new) (O.tape out.new) (E.tape err.new)) result }
{
    Ended {
        status: datalad(alloc, words, cwd, moment, fresh, files, out, err),
    }
}
