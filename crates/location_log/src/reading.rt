// Reading a log, line by line.
ghost use Rattle.std.specs.Prelude.{◌≡◌, ◌++◌, true, false, ℕ, List, Some, codes, MatchOption};
ghost use Rattle.std.specs.Prelude.{MatchResult, IfOk};
ghost use Rattle.config_text.specs.All.{uuid_of};
ghost use Rattle.location_log.specs.Plain.{PlainLine};
ghost use Rattle.location_log.specs.Reading.{RefusesLog};
ghost use Rattle.location_log.specs.Steps.{Takes};
ghost use Rattle.location_log.specs.Texts.{IsLineText, IsLogText, status_text};
ghost use Rattle.location_log.specs.declared.lines.Claim.{Claim};

use crate::cuts::{cut_at, first_line};
use crate::errors::LogErr;
use crate::lines::{Claim, LogLine};
use crate::times::read_time;
use std::alloc::{AllocError, Global};
use uuid::Uuid;

fn read_claim(text: &[u8]) -> Option<Claim>
    ensures { MatchOption result ((claim : Claim) → text.now ≡ status_text claim → ⊥)
        (λ claim. text.now ≡ status_text claim) }
{
    if text.len() != 1 {
        return None;
    }
    match text[0] {
        b'1' => Some(Claim::Present),
        b'0' => Some(Claim::Absent),
        b'X' => Some(Claim::Dead),
        _ => None,
    }
}

// A time without the letter behind it.
fn without_letter(stamp: &[u8]) -> Option<&[u8]>
    ensures { MatchOption result ((time : List ℕ) → stamp.now ≡ time ++ codes "s" → ⊥)
        (λ time. stamp.now ≡ time.now ++ codes "s") }
{
    stamp.strip_suffix(b"s")
}

// The UUID that 36 characters are.
#[tactic(auto, unfolding(config_text::specs::Lookups::uuid_of))]
fn read_uuid(text: &[u8]) -> Option<Uuid>
    ensures { result ≡ uuid_of text.now }
{
    if text.len() != 36 {
        return None;
    }
    Uuid::try_parse_ascii(text).ok()
}

fn read_line(text: &[u8]) -> Option<LogLine>
    ensures { MatchOption result ((line : PlainLine) → IsLineText line text.now → ⊥)
        (λ line. IsLineText line text.now) }
{
    let (stamp, rest) = cut_at(text, b' ')?;
    let (status, uuid) = cut_at(rest, b' ')?;
    let time = without_letter(stamp)?;
    let (secs, nanos) = read_time(time)?;
    let claim = read_claim(status)?;
    let uuid = read_uuid(uuid)?;
    Some(LogLine::new(secs, nanos, claim, &uuid))
}

// Takes one more line; false where it is bad.
fn take_line(lines: &mut Vec<LogLine>, text: &[u8]) -> Result<bool, AllocError>
    ensures { IfOk result (Takes text.now lines.old.items lines.new.items) }
{
    if text.is_empty() {
        return Ok(true);
    }
    let Some(line) = read_line(text) else {
        return Ok(false);
    };
    lines.push(line)?;
    Ok(true)
}

/// The lines of a log, but for empty ones. `BadLog` names the first line that is out of form, from
/// 1, empty ones too.
pub fn read(alloc: Global, bytes: &[u8]) -> Result<Vec<LogLine>, LogErr>
    ensures { MatchResult result (λ lines. IsLogText lines.items bytes.now) (RefusesLog bytes.now) }
{
    let mut lines = Vec::new(alloc);
    let mut left = Some(bytes);
    let mut count: u64 = 0;
    while let Some(text) = left {
        let (line, rest) = first_line(text);
        count += 1;
        if !take_line(&mut lines, line)? {
            return Err(LogErr::BadLog { line: count });
        }
        left = rest;
    }
    Ok(lines)
}
