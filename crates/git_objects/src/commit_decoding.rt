// Reading a commit's body.
ghost use Rattle.std.specs.Prelude.{◌≡◌, ◌↔◌, ◌≤◌, ◌-◌, ◌++◌, length, IsTrue};
ghost use Rattle.std.specs.Prelude.{IfOk, MatchOption, MatchResult};
ghost use Rattle.git_objects.specs.CommitLines.{IsIdLine, NoIdLine, AreParentLines};
ghost use Rattle.git_objects.specs.CommitLines.{IsPersonLine, NoPersonLine};
ghost use Rattle.git_objects.specs.CommitLines.{IsExtraAndMessage, StopsAt};
ghost use Rattle.git_objects.specs.Cuts.{newline, Lacks};
ghost use Rattle.git_objects.specs.Decodes.{CommitDecodeEnds};
ghost use Rattle.git_objects.specs.Headers.{ended, IsExtra};
ghost use Rattle.git_objects.specs.declared.errors.ObjErr.TheVariants.{BadCommit};

use crate::commits::Commit;
use crate::cuts::{cut_at, without_front};
use crate::errors::ObjErr;
use crate::headers::is_extra_line;
use crate::ids::Id;
use crate::people::Person;
use places::Bytes;
use std::alloc::{AllocError, Global};

// The id on a line that begins with this word, and what follows the line.
fn read_id_line<'a>(text: &'a [u8], word: &[u8]) -> Option<(Id, &'a [u8])>
    ensures { MatchOption result (NoIdLine text.now word.now)
        (λ line. IsIdLine text.now word.now line.0 line.1.now) }
{
    let value = without_front(text, word)?;
    let (digits, rest) = cut_at(value, b'\n')?;
    let id = Id::from_hex(digits)?;
    if id.to_hex().as_slice() != digits {
        return None;
    }
    Some((id, rest))
}

// The person on a line that begins with this word, and what follows the line.
fn read_person_line<'a>(
    alloc: Global,
    text: &'a [u8],
    word: &[u8],
) -> Result<Option<(Person, &'a [u8])>, AllocError>
    ensures { IfOk result (λ found. MatchOption found (NoPersonLine text.now word.now)
        (λ line. IsPersonLine text.now word.now line.0 line.1.now)) }
{
    let Some(value) = without_front(text, word) else {
        return Ok(None);
    };
    let Some((line, rest)) = cut_at(value, b'\n') else {
        return Ok(None);
    };
    let Some(person) = Person::decode(alloc, line)? else {
        return Ok(None);
    };
    Ok(Some((person, rest)))
}

// The parents, and what follows their lines.
fn read_parents(alloc: Global, text: &[u8]) -> Result<(Vec<Id>, &[u8]), AllocError>
    ensures { IfOk result (λ read. AreParentLines text.now read.0.items read.1.now) }
{
    let mut parents = Vec::new(alloc);
    let mut rest = text;
    while let Some((parent, after)) = read_id_line(rest, b"parent ") {
        parents.push(parent)?;
        rest = after;
    }
    Ok((parents, rest))
}

// The further lines and the message. Where the further lines stop otherwise, what is left.
fn read_extra(text: &[u8]) -> Result<(&[u8], &[u8]), &[u8]>
    ensures { MatchResult result (λ read. IsExtraAndMessage text.now read.0.now read.1.now)
        (λ rest. StopsAt text.now rest.now) }
{
    let mut rest = text;
    while let Some((line, after)) = cut_at(rest, b'\n') {
        let (extra, _) = text.split_at(text.len() - rest.len());
        if line.is_empty() {
            return Ok((extra, after));
        }
        if !may_follow(extra, line) {
            return Err(rest);
        }
        rest = after;
    }
    Err(rest)
}

// Whether the line may follow further lines.
fn may_follow(extra: &[u8], line: &[u8]) -> bool
    requires lines { IsExtra extra.now }
    requires one { Lacks newline line.now }
    ensures { IsTrue result ↔ IsExtra (extra.now ++ ended line.now) }
{
    if !is_extra_line(line) {
        return false;
    }
    if !extra.is_empty() {
        return true;
    }
    !line.starts_with(b" ")
}

fn bad_at(body: &[u8], rest: &[u8]) -> ObjErr
    requires { length rest.now ≤ length body.now }
    ensures { result ≡ BadCommit (length body.now - length rest.now) }
{
    ObjErr::BadCommit {
        at: (body.len() - rest.len()) as u64,
    }
}

impl Commit {
    /// The commit with this body.
    pub fn decode(alloc: Global, body: &[u8]) -> Result<Commit, ObjErr>
        ensures { CommitDecodeEnds body.now result }
    {
        let Some((tree, rest)) = read_id_line(body, b"tree ") else {
            return Err(bad_at(body, body));
        };
        let (parents, rest) = read_parents(alloc, rest)?;
        let Some((author, rest)) = read_person_line(alloc, rest, b"author ")? else {
            return Err(bad_at(body, rest));
        };
        let Some((committer, rest)) = read_person_line(alloc, rest, b"committer ")? else {
            return Err(bad_at(body, rest));
        };
        let (extra, message) = match read_extra(rest) {
            Ok(read) => read,
            Err(rest) => return Err(bad_at(body, rest)),
        };
        Ok(Commit {
            tree,
            parents,
            author,
            committer,
            extra: Bytes::new(Vec::from_slice(alloc, extra)?),
            message: Bytes::new(Vec::from_slice(alloc, message)?),
        })
    }
}
