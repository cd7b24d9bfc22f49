// The lines that count, one for each repository.
ghost use Rattle.std.specs.Prelude.{◌≡◌, ◌∷◌, if◌then◌else◌, IfOk};
ghost use Rattle.std.specs.List.Sorted.{IsPermutation, IsSorted};
ghost use Rattle.location_log.specs.Newest.{AreNewest};
ghost use Rattle.location_log.specs.Steps.{lasts, line_cmp};

use crate::counting::by_line;
use crate::lines::LogLine;
use std::alloc::{AllocError, Global};

fn sort_lines(lines: &mut Vec<LogLine>)
    ensures moved { IsPermutation lines.old.items lines.new.items }
    ensures sorted { IsSorted line_cmp lines.new.items }
{
    lines.sort_unstable_by(|line, other| by_line(line, other));
}

// Whether a line is the last of its neighbours of one repository, before these others.
fn is_last(line: &LogLine, others: &[LogLine]) -> bool
    ensures { lasts (line.now ∷ others.now)
        ≡ (if result then line.now ∷ lasts others.now else lasts others.now) }
{
    match others.first() {
        Some(next) => line.uuid() != next.uuid(),
        None => true,
    }
}

// Of neighbours of one repository the last.
fn lasts(alloc: Global, lines: &[LogLine]) -> Result<Vec<LogLine>, AllocError>
    ensures { IfOk result (λ kept. kept.items ≡ lasts lines.now) }
{
    let mut kept = Vec::new(alloc);
    let mut left = lines;
    while let Some((line, others)) = left.split_first() {
        if is_last(line, others) {
            kept.push(*line)?;
        }
        left = others;
    }
    Ok(kept)
}

// The lines that count, ascending by UUID.
pub(crate) fn newest(alloc: Global, mut lines: Vec<LogLine>) -> Result<Vec<LogLine>, AllocError>
    ensures { IfOk result (λ kept. AreNewest lines.items kept.items) }
{
    sort_lines(&mut lines);
    lasts(alloc, lines.as_slice())
}
