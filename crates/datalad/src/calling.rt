// One call of the program, over any files and outputs.
ghost use Rattle.std.specs.Prelude.{map, string_bytes};
ghost use Rattle.datalad_cli.specs.All.{Answered, call_of, telling_of, world_of};

use crate::start::Start;
use datalad_cli::{Ended, run};
use file_store::{Files, Sink};
use std::alloc::Global;

/// One call over these files and outputs. What it answers can't be made but by such a call.
pub(crate) fn call<F: Files, O: Sink, E: Sink>(
    alloc: Global,
    start: &Start,
    files: &mut F,
    out: &mut O,
    err: &mut E,
) -> Ended
    ensures { Answered (telling_of F.tells O.tells E.tells)
        (call_of (map string_bytes start.now.words.items) start.now.cwd start.now.moment start.now.fresh)
        (world_of (F.drive files.old) (O.tape out.old) (E.tape err.old))
        (world_of (F.drive files.new) (O.tape out.new) (E.tape err.new)) result }
{
    run(
        alloc,
        start.words.as_slice(),
        &start.cwd,
        start.moment,
        start.fresh,
        files,
        out,
        err,
    )
}
