// The log of a revision.
ghost use Rattle.std.specs.Prelude.{◌≡◌, ◌==◌, ◌++◌, IfOk, OnOk, option_map};
ghost use Rattle.std.specs.List.{position};
ghost use Rattle.acts.specs.All.{Reads};
ghost use Rattle.git_objects.specs.All.{fields_of};
ghost use Rattle.ref_store.specs.All.{first_parent};
ghost use Rattle.history.specs.Logs.{IsLog, IsLogFrom, IsLogText, IsNoLog, IsNoLogFrom, MayLog, MayLogFrom};
ghost use Rattle.history.specs.Logs.{commit_line, title_of};

use faults::{Fault, Trouble};
use file_store::{Files, Place};
use git_objects::{Commit, Id};
use object_store::read_commit;
use ref_store::resolve;
use std::alloc::{AllocError, Global};

/// The most commits that one log has.
const WALK_LIMIT: usize = 100_000;

// Where the first line of a message ends, if a newline ends it.
fn line_end(message: &[u8]) -> Option<usize>
    ensures { result ≡ position (λ byte. byte == 10) message.now }
{
    message.iter().position(|byte| *byte == b'\n')
}

// The first line of a message.
fn title(message: &[u8]) -> &[u8]
    ensures { result.now ≡ title_of message.now }
{
    match line_end(message) {
        Some(end) => &message[..end],
        None => message,
    }
}

// Adds the line of a commit.
fn add_line(text: &mut Vec<u8>, id: &Id, commit: &Commit) -> Result<(), AllocError>
    ensures { OnOk result (text.new.items ≡ text.old.items
        ++ commit_line (record { id = id.now.0; fields = fields_of commit.now })) }
{
    text.extend_from_slice(&id.to_hex())?;
    text.push(b' ')?;
    text.extend_from_slice(title(commit.message.as_slice()))?;
    text.push(b'\n')?;
    Ok(())
}

// The first parent of a commit.
fn first_parent(commit: &Commit) -> Option<Id>
    ensures { option_map (λ id. id.0) result ≡ first_parent (fields_of commit.now) }
{
    commit.parents.first().copied()
}

/// The log from a commit on.
pub(crate) fn log_from<F: Files>(
    alloc: Global,
    files: &mut F,
    repo: &Place,
    start: &Id,
) -> Result<Vec<u8>, Trouble>
    ensures reads { Reads (λ fault. MayLogFrom repo.now start.now.0 fault) F.tells
        (λ g text. IsLogFrom repo.now start.now.0 g text.items) (λ g fault. IsNoLogFrom repo.now start.now.0 g fault)
        (F.drive files.old) (F.drive files.new) result }
    ensures form { IfOk result (λ text. IsLogText text.items) }
{
    let mut text = Vec::new(alloc);
    let mut id = *start;
    for _ in 0..WALK_LIMIT {
        let commit = read_commit(alloc, files, repo, &id)?;
        add_line(&mut text, &id, &commit)?;
        let Some(parent) = first_parent(&commit) else {
            return Ok(text);
        };
        id = parent;
    }
    Err(Trouble::Refused(Fault::TooLong { commit: start.0 }))
}

/// The log of a revision word: per commit, from the one to which it leads along first parents, the 40 digits of its id, a
/// blank, the first line of its message as it is, and a newline.
///
/// Refuses as `resolve` and `read_commit` do: the first that the reading meets; TooLong with the first commit where more
/// than 100,000 would be read. One commit is in memory at a time.
pub fn log<F: Files>(
    alloc: Global,
    files: &mut F,
    repo: &Place,
    word: &str,
) -> Result<Vec<u8>, Trouble>
    ensures reads { Reads (λ fault. MayLog repo.now word.now fault) F.tells
        (λ g text. IsLog repo.now word.now g text.items) (λ g fault. IsNoLog repo.now word.now g fault)
        (F.drive files.old) (F.drive files.new) result }
    ensures form { IfOk result (λ text. IsLogText text.items) }
{
    let start = resolve(alloc, files, repo, word)?;
    log_from(alloc, files, repo, &start)
}
