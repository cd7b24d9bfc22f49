// Printing a log.
ghost use Rattle.std.specs.Prelude.{◌≡◌, ◌++◌, ◌∷◌, [], ◌<◌, MatchResult, OnOk, string_bytes};
ghost use Rattle.std.specs.List.{AllByRecursion};
ghost use Rattle.location_log.specs.Plain.{IsLogLine};
ghost use Rattle.location_log.specs.Printing.{line_text, log_text, time_text};
ghost use Rattle.location_log.specs.declared.errors.LogErr.TheVariants.{NoMemory};

use crate::errors::LogErr;
use crate::lines::LogLine;
use std::alloc::{AllocError, Global};
use std::fmt::Write;

fn append_time(text: &mut String, secs: u64, nanos: u32) -> Result<(), AllocError>
    requires { nanos < 1000000000 }
    ensures { OnOk result (string_bytes text.new ≡ string_bytes text.old ++ time_text secs nanos) }
{
    if nanos == 0 {
        write!(text, "{secs}")
    } else {
        write!(text, "{secs}.{nanos:09}")
    }
}

fn append_line(text: &mut String, line: &LogLine) -> Result<(), AllocError>
    ensures text { OnOk result (string_bytes text.new
        ≡ string_bytes text.old ++ (line_text line.now ++ 10 ∷ [])) }
    ensures stored { IsLogLine line.now }
{
    append_time(text, line.secs(), line.nanos())?;
    let status = line.claim().status();
    let uuid = line.uuid();
    write!(text, "s {status} {uuid}\n")
}

/// The text of a log: each line with its newline.
pub fn print(alloc: Global, lines: &[LogLine]) -> Result<Vec<u8>, LogErr>
    ensures text { MatchResult result (λ text. text.items ≡ log_text lines.now)
        (λ e. e ≡ NoMemory) }
    ensures stored { OnOk result (AllByRecursion IsLogLine lines.now) }
{
    let mut text = String::new(alloc);
    for line in lines {
        append_line(&mut text, line)?;
    }
    Ok(text.into_bytes())
}
