// The things of which an index is made, but for paths: each is read at the front of a text, and
// given with what follows it.
ghost use Rattle.std.specs.Prelude.{◌≡◌, ◌+◌, ◌*◌, ◌<◌, ◌≤◌, ◌^◌, ◌++◌, ℕ, List, length};
ghost use Rattle.std.specs.Prelude.{MatchOption};
ghost use Rattle.std.specs.Char.{is_ascii_alphabetic};
ghost use Rattle.std.specs.List.{list_all};
ghost use Rattle.index_file.specs.Entries.{four, number_of};
ghost use Rattle.index_file.specs.Pieces.{IsExtension, IsFlags, IsHead, IsIdText, IsModeText};
ghost use Rattle.index_file.specs.Pieces.{IsPassed};
ghost use Rattle.index_file.specs.Steps.{HasExtension, HasPassed, NoModeNumber, is_passed_name};
ghost use Rattle.index_file.specs.Things.{Lacking};

use crate::entries::number_of;
use git_objects::{Id, Mode};

/// The greatest length of a path that flags can say; a longer path has it too.
pub(crate) const LONGEST_SAID: usize = 0xFFF;

// Behind so many bytes, which say nothing of an entry.
pub(crate) fn pass(text: &[u8], size: usize) -> Option<&[u8]>
    ensures { MatchOption result (Lacking (IsPassed size) text.now)
        (λ rest. HasPassed size text.now rest.now) }
{
    let (_, rest) = text.split_at_checked(size)?;
    Some(rest)
}

// Behind another text.
pub(crate) fn without_front<'a>(text: &'a [u8], front: &[u8]) -> Option<&'a [u8]>
    ensures { MatchOption result ((rest : List ℕ) → text.now ≡ front.now ++ rest → ⊥)
        (λ rest. text.now ≡ front.now ++ rest.now) }
{
    text.strip_prefix(front)
}

// A number in four bytes.
fn read_number(text: &[u8]) -> Option<(u32, &[u8])>
    ensures { MatchOption result (length text.now < 4)
        (λ read. (read.0 < 2 ^ 32) × (text.now ≡ four read.0 ++ read.1.now)) }
{
    let (bytes, rest) = text.split_first_chunk::<4>()?;
    Some((u32::from_be_bytes(*bytes), rest))
}

// Behind the number of a mode.
fn after_mode(text: &[u8], mode: Mode) -> Option<&[u8]>
    ensures { MatchOption result (NoModeNumber mode text.now)
        (λ rest. text.now ≡ four (number_of mode) ++ rest.now) }
{
    without_front(text, &number_of(mode).to_be_bytes())
}

pub(crate) fn read_mode(text: &[u8]) -> Option<(Mode, &[u8])>
    ensures { MatchOption result (Lacking IsModeText text.now)
        (λ read. IsModeText read.0 text.now read.1.now) }
{
    let modes = [Mode::File, Mode::Exec, Mode::Link, Mode::Pin];
    for mode in modes {
        if let Some(rest) = after_mode(text, mode) {
            return Some((mode, rest));
        }
    }
    None
}

pub(crate) fn read_id(text: &[u8]) -> Option<(Id, &[u8])>
    ensures { MatchOption result (Lacking IsIdText text.now)
        (λ read. IsIdText read.0 text.now read.1.now) }
{
    let (id, rest) = text.split_first_chunk::<20>()?;
    Some((Id(*id), rest))
}

// Without the highest bit.
fn without_free_bit(flags: u16) -> u16
    ensures { (bit : ℕ) × (bit ≤ 1) × (flags ≡ bit * 32768 + result) × (result < 32768) }
{
    if flags < 0x8000 {
        return flags;
    }
    flags - 0x8000
}

// What the flags say of a path's length.
pub(crate) fn read_flags(text: &[u8]) -> Option<(usize, &[u8])>
    ensures { MatchOption result (Lacking IsFlags text.now)
        (λ read. IsFlags read.0 text.now read.1.now) }
{
    let (bytes, rest) = text.split_first_chunk::<2>()?;
    let mark = without_free_bit(u16::from_be_bytes(*bytes)) as usize;
    if mark > LONGEST_SAID {
        return None;
    }
    Some((mark, rest))
}

// How many entries the head says.
pub(crate) fn read_head(text: &[u8]) -> Option<(usize, &[u8])>
    ensures { MatchOption result (Lacking IsHead text.now)
        (λ read. IsHead read.0 text.now read.1.now) }
{
    let rest = without_front(text, b"DIRC\0\0\0\x02")?;
    let (count, rest) = read_number(rest)?;
    Some((count as usize, rest))
}

fn are_letters(name: &[u8]) -> bool
    ensures { result ≡ list_all is_ascii_alphabetic name.now }
{
    name.iter().all(|letter| letter.is_ascii_alphabetic())
}

// Whether an extension of this name is passed over.
fn is_passed_name(name: &[u8]) -> bool
    requires { length name.now ≡ 4 }
    ensures { result ≡ is_passed_name name.now }
{
    if !name[0].is_ascii_uppercase() {
        return false;
    }
    are_letters(name)
}

// Behind an extension.
pub(crate) fn after_extension(text: &[u8]) -> Option<&[u8]>
    ensures { MatchOption result (Lacking IsExtension text.now)
        (λ rest. HasExtension text.now rest.now) }
{
    if text.len() < 4 {
        return None;
    }
    let (name, rest) = text.split_at(4);
    if !is_passed_name(name) {
        return None;
    }
    let Some((size, behind)) = read_number(rest) else {
        return None;
    };
    let size = size as usize;
    if behind.len() < size {
        return None;
    }
    let (_, after) = behind.split_at(size);
    Some(after)
}
