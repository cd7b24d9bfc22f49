// Reading the body of an index, from front to end.
ghost use Rattle.std.specs.Prelude.{MatchResult};
ghost use Rattle.index_file.specs.Pieces.{IsEntryText};
ghost use Rattle.index_file.specs.Steps.{AreCounted, OnlyExtensions, StopsBy, entry_seen};
ghost use Rattle.index_file.specs.Stops.{StopsInBody, StopsInEntries, StopsInEntry};
ghost use Rattle.index_file.specs.Stops.{StopsInExtensions};
ghost use Rattle.index_file.specs.Index.{IsBody};

use crate::entries::IndexEntry;
use crate::errors::Stop;
use crate::fields::{after_extension, pass, read_flags, read_head, read_id, read_mode};
use crate::paths::read_padded;
use git_objects::{Id, Mode};
use places::Text;
use std::alloc::Global;

// What a text says of an entry.
#[derive(Drop)]
struct Seen<'a> {
    path: &'a str,
    mode: Mode,
    id: Id,
}

// The entry at the front, which may stand behind the last path, and what follows it; or how many
// bytes are left where it stops.
fn read_entry<'a>(text: &'a [u8], last: &[u8]) -> Result<(Seen<'a>, &'a [u8]), usize>
    ensures { MatchResult result
        (λ read. IsEntryText last.now (entry_seen read.0.path.now read.0.mode read.0.id)
        text.now read.1.now)
        (StopsInEntry last.now text.now) }
{
    let Some(rest) = pass(text, 24) else {
        return Err(text.len());
    };
    let Some((mode, after_mode)) = read_mode(rest) else {
        return Err(rest.len());
    };
    let Some(rest) = pass(after_mode, 12) else {
        return Err(after_mode.len());
    };
    let Some((id, after_id)) = read_id(rest) else {
        return Err(rest.len());
    };
    let Some((mark, rest)) = read_flags(after_id) else {
        return Err(after_id.len());
    };
    let (path, after) = read_padded(rest, mark, last)?;
    Ok((Seen { path, mode, id }, after))
}

// As many entries as the head says, and what follows them.
fn read_entries(alloc: Global, text: &[u8], count: usize) -> Result<(Vec<IndexEntry>, &[u8]), Stop>
    ensures { MatchResult result (λ read. AreCounted count read.0.items text.now read.1.now)
        (StopsBy (StopsInEntries count text.now)) }
{
    let mut list: Vec<IndexEntry> = Vec::new(alloc);
    let mut last: &[u8] = b"";
    let mut rest = text;
    while list.len() < count {
        let (seen, after) = read_entry(rest, last)?;
        let path = Text::new(String::from_str(alloc, seen.path)?);
        list.push(IndexEntry {
            path,
            mode: seen.mode,
            id: seen.id,
        })?;
        last = seen.path.as_bytes();
        rest = after;
    }
    Ok((list, rest))
}

// Whether only extensions stand here that are passed over.
fn check_extensions(text: &[u8]) -> Result<(), usize>
    ensures { MatchResult result (λ _. OnlyExtensions text.now) (StopsInExtensions text.now) }
{
    let mut rest = text;
    while !rest.is_empty() {
        let Some(after) = after_extension(rest) else {
            return Err(rest.len());
        };
        rest = after;
    }
    Ok(())
}

/// The list whose index has this body; or how many bytes are left where the body stops.
pub(crate) fn read_body(alloc: Global, body: &[u8]) -> Result<Vec<IndexEntry>, Stop>
    ensures { MatchResult result (λ list. IsBody list.items body.now)
        (StopsBy (StopsInBody body.now)) }
{
    let Some((count, text)) = read_head(body) else {
        return Err(Stop::Left(body.len()));
    };
    let (list, rest) = read_entries(alloc, text, count)?;
    check_extensions(rest)?;
    Ok(list)
}
