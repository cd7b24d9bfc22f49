// What holds of every log.
ghost use Rattle.std.specs.Prelude.{◌≡◌, MatchResult};
ghost use Rattle.location_log.specs.Laws.{CountOnce, HaveOneReading, MergesAgree, NotesCount};
ghost use Rattle.location_log.specs.declared.errors.LogErr.TheVariants.{NoMemory};

use crate::errors::LogErr;
use crate::lines::LogLine;
use crate::printing::print;
use crate::reading::read;
use std::alloc::Global;

/// A text is of one log at most, or has one first bad line, and never both.
pub fn have_one_reading()
    ensures { HaveOneReading }
{}

/// A repository has one counting line at most, and the counting lines of a log are one list.
pub fn count_once()
    ensures { CountOnce }
{}

/// What is noted counts, and other repositories keep the line that counts.
pub fn notes_count()
    ensures { NotesCount }
{}

/// Logs are merged in either order, in any grouping, and with themselves.
pub fn merges_agree()
    ensures { MergesAgree }
{}

/// A log, read from its own print: the same lines.
pub fn reread(alloc: Global, lines: &[LogLine]) -> Result<Vec<LogLine>, LogErr>
    ensures { MatchResult result (λ read. read.items ≡ lines.now) (λ e. e ≡ NoMemory) }
{
    let text = print(alloc, lines)?;
    read(alloc, text.as_slice())
}
