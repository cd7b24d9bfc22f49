// `status`: what has changed in the working files since HEAD's commit, as a text.
ghost use Rattle.std.specs.Prelude.{◌≡◌, ◌++◌, false, IfOk, OnOk};
ghost use Rattle.acts.specs.All.{Reads};
ghost use Rattle.tree_status.specs.Changes.{AreOrdered};
ghost use Rattle.tree_status.specs.Looks.{IsUnread};
ghost use Rattle.tree_status.specs.Status.{IsStatus, IsStatusText, clean_text, state_text};
ghost use Rattle.tree_status.specs.Status.{status_line, status_text};
ghost use Rattle.tree_status.specs.Views.{MayView};

use crate::changes::changes_of;
use crate::states::{Change, State};
use crate::viewing::{read_view, repo};
use faults::Trouble;
use file_store::{Files, Place};
use std::alloc::{AllocError, Global};

// The name of a state, right in nine places.
#[tactic(auto, unfolding(crate::specs::Status::state_text))]
fn state_text(state: State) -> &'static [u8]
    ensures { result.now ≡ state_text state }
{
    match state {
        State::Untracked => b"untracked",
        State::Modified => b" modified",
        State::Deleted => b"  deleted",
    }
}

#[tactic(auto, unfolding(crate::specs::Status::clean_text))]
fn clean_text() -> &'static [u8]
    ensures { result.now ≡ clean_text }
{
    b"nothing to save, working tree clean\n"
}

// Adds the line of a change.
fn add_line(text: &mut Vec<u8>, change: &Change) -> Result<(), AllocError>
    ensures { OnOk result (text.new.items ≡ text.old.items ++ status_line change.now) }
{
    text.extend_from_slice(state_text(change.state))?;
    text.extend_from_slice(b": ")?;
    text.extend_from_slice(change.path.as_str().as_bytes())?;
    text.extend_from_slice(b" (file)\n")?;
    Ok(())
}

// The lines of some changes; where there are none, that there are none.
fn text_of(alloc: Global, changes: &[Change]) -> Result<Vec<u8>, AllocError>
    ensures { IfOk result (λ text. text.items ≡ status_text changes.now) }
{
    if changes.is_empty() {
        return Vec::from_slice(alloc, clean_text());
    }
    let mut text = Vec::new(alloc);
    for change in changes {
        add_line(&mut text, change)?;
    }
    Ok(text)
}

/// The status of a dataset: per path that differs from HEAD's commit, in byte order, `untracked`, `modified` or `deleted`,
/// right in nine places, then `: PATH (file)` and a newline; `nothing to save, working tree clean` where none does.
///
/// Refuses what HEAD, its branch, the commit or the trees are refused for; UnsupportedMode of a pin; what a blob that
/// may be a pointer is refused for; what the working files are refused for. Every working file is read.
pub fn status<F: Files>(alloc: Global, files: &mut F, root: &Place) -> Result<Vec<u8>, Trouble>
    ensures reads { Reads (λ fault. MayView F.tells root.now fault) F.tells (λ g text. IsStatus root.now g text.items)
        (λ g fault. IsUnread root.now false g fault) (F.drive files.old) (F.drive files.new) result }
    ensures form { IfOk result (λ text. IsStatusText text.items) }
{
    let repo = repo(alloc, root)?;
    let view = read_view(alloc, files, root, &repo, false)?;
    let changes = changes_of(alloc, view.by.old(), view.files.as_slice())?;
    Ok(text_of(alloc, changes.as_slice())?)
}
