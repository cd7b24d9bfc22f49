// Noting a claim, and merging two logs.
ghost use Rattle.std.specs.Prelude.{◌≡◌, ◌++◌, MatchResult};
ghost use Rattle.location_log.specs.Newest.{AreNewest};
ghost use Rattle.location_log.specs.Noting.{IsNotedTime, IsNote, IsTimeFull, RefusesNote, claimed};
ghost use Rattle.location_log.specs.declared.errors.LogErr.TheVariants.{NoMemory, TimeFull};

use crate::counting::counting;
use crate::errors::LogErr;
use crate::lines::{Claim, LogLine};
use crate::newest::newest;
use std::alloc::Global;
use uuid::Uuid;

// The second of a note: the moment, but later than the line that counts.
fn noted_time(lines: &[LogLine], uuid: &Uuid, moment: u64) -> Result<u64, LogErr>
    ensures { MatchResult result (IsNotedTime lines.now uuid.now moment)
        (λ e. (e ≡ TimeFull) × IsTimeFull lines.now uuid.now) }
{
    let Some(old) = counting(lines, uuid) else {
        return Ok(moment);
    };
    match old.secs().checked_add(1) {
        Some(later) => Ok(moment.max(later)),
        None => Err(LogErr::TimeFull),
    }
}

fn claimed(present: bool) -> Claim
    ensures { result ≡ claimed present }
{
    if present {
        Claim::Present
    } else {
        Claim::Absent
    }
}

/// Notes at a moment, in whole seconds, whether a repository has the content. The lines that count
/// are left, the new one among them; its time is later than that of the line that counted before.
/// `TimeFull` where there is no later second.
pub fn note(
    alloc: Global,
    lines: &[LogLine],
    uuid: &Uuid,
    present: bool,
    moment: u64,
) -> Result<Vec<LogLine>, LogErr>
    ensures { MatchResult result (λ out. IsNote lines.now uuid.now present moment out.items)
        (RefusesNote lines.now uuid.now) }
{
    let secs = noted_time(lines, uuid, moment)?;
    let mut all = Vec::new(alloc);
    all.push(LogLine::new(secs, 0, claimed(present), uuid))?;
    all.extend_from_slice(lines)?;
    Ok(newest(alloc, all)?)
}

/// The lines that count of two logs.
pub fn merge(alloc: Global, a: &[LogLine], b: &[LogLine]) -> Result<Vec<LogLine>, LogErr>
    ensures { MatchResult result (λ out. AreNewest (a.now ++ b.now) out.items)
        (λ e. e ≡ NoMemory) }
{
    let mut all = Vec::from_slice(alloc, a)?;
    all.extend_from_slice(b)?;
    Ok(newest(alloc, all)?)
}
