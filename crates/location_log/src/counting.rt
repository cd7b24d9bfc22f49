// Which line of a repository counts.
ghost use Rattle.std.specs.Prelude.{◌≡◌, ◌↔◌, IsTrue, MatchOption};
ghost use Rattle.location_log.specs.Counting.{Counts, HasNone, IsPresent};
ghost use Rattle.location_log.specs.Steps.{better_of, line_cmp, rank_cmp};
ghost use Rattle.location_log.specs.declared.lines.Claim.TheVariants.{Present};

use crate::lines::{Claim, LogLine};
use std::cmp::Ordering;
use uuid::Uuid;

// By time, and then by claim.
pub(crate) fn by_rank(line: &LogLine, other: &LogLine) -> Ordering
    ensures { result ≡ rank_cmp line.now other.now }
{
    let weights = line.claim().weight().cmp(&other.claim().weight());
    let parts = line.nanos().cmp(&other.nanos()).then(weights);
    line.secs().cmp(&other.secs()).then(parts)
}

// By repository, and then by time and claim.
pub(crate) fn by_line(line: &LogLine, other: &LogLine) -> Ordering
    ensures { result ≡ line_cmp line.now other.now }
{
    line.uuid().cmp(&other.uuid()).then(by_rank(line, other))
}

// Of a line that was found and another, which counts.
fn better(found: Option<LogLine>, line: &LogLine) -> LogLine
    ensures { result ≡ better_of found line.now }
{
    match found {
        Some(old) if by_rank(&old, line) != Ordering::Less => old,
        _ => *line,
    }
}

// The line that counts for a repository.
pub(crate) fn counting(lines: &[LogLine], uuid: &Uuid) -> Option<LogLine>
    ensures { MatchOption result (HasNone lines.now uuid.now) (Counts lines.now uuid.now) }
{
    let mut found = None;
    for line in lines {
        if line.uuid() == *uuid {
            found = Some(better(found, line));
        }
    }
    found
}

fn is_present(claim: Claim) -> bool
    ensures { IsTrue result ↔ (claim ≡ Present) }
{
    match claim {
        Claim::Present => true,
        Claim::Absent | Claim::Dead => false,
    }
}

/// Whether a repository has the content, as the line says that counts for it. This takes no memory.
pub fn present(lines: &[LogLine], uuid: &Uuid) -> bool
    ensures { IsTrue result ↔ IsPresent lines.now uuid.now }
{
    match counting(lines, uuid) {
        Some(line) => is_present(line.claim()),
        None => false,
    }
}
