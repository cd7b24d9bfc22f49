// The result lines of what has changed.
ghost use Rattle.std.specs.Prelude.{◌≡◌, map, IfOk};
ghost use Rattle.recursive_save.specs.Lines.{AreChangeLines, action_of, change_line};

use crate::first::text;
use faults::Line;
use std::alloc::{AllocError, Global};
use tree_status::{Change, State};

// What a save does with a path.
#[tactic(auto, unfolding(crate::specs::Lines::action_of))]
fn action(state: State) -> &'static str
    ensures { result.now ≡ action_of state }
{
    match state {
        State::Untracked | State::Modified => "add",
        State::Deleted => "delete",
    }
}

// The line of a change of a file.
fn change_line(alloc: Global, change: &Change) -> Result<Line, AllocError>
    ensures { IfOk result (λ line. line ≡ change_line change.now) }
{
    Ok(Line {
        action: text(alloc, action(change.state))?,
        status: text(alloc, "ok")?,
        path: text(alloc, change.path.as_str())?,
        kind: text(alloc, "file")?,
    })
}

/// The lines of changes, each one of a changed file.
pub(crate) fn lines_of(alloc: Global, changes: &[Change]) -> Result<Vec<Line>, AllocError>
    ensures lines { IfOk result (λ lines. lines.items ≡ map change_line changes.now) }
    ensures said { IfOk result (λ lines. AreChangeLines lines.items) }
{
    let mut lines = Vec::new(alloc);
    for change in changes {
        lines.push(change_line(alloc, change)?)?;
    }
    Ok(lines)
}
