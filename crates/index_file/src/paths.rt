// Paths, and the padding behind them.
ghost use Rattle.std.specs.Prelude.{◌≡◌, ◌<◌, ◌≤◌, ◌==◌, ◌++◌, MatchOption};
ghost use Rattle.std.specs.Prelude.{MatchResult};
ghost use Rattle.std.specs.Cmp.Lexicographic.{slice_cmp};
ghost use Rattle.std.specs.List.{position};
ghost use Rattle.std.specs.Ordering.{is_lt, nat_cmp};
ghost use Rattle.index_file.specs.Entries.{longest_said, padding};
ghost use Rattle.index_file.specs.Pieces.{IsCutPath, IsPathText};
ghost use Rattle.index_file.specs.Steps.{IsPadded, NoPadding};
ghost use Rattle.index_file.specs.Stops.{StopsInPath};
ghost use Rattle.index_file.specs.Things.{Lacking};

use crate::fields::{LONGEST_SAID, without_front};

// The padding behind a path of this length.
pub(crate) fn padding(size: usize) -> &'static [u8]
    ensures { result.now ≡ padding size }
{
    let nuls: &'static [u8] = b"\0\0\0\0\0\0\0\0";
    let (padding, _) = nuls.split_at(8 - (62 + size % 8) % 8);
    padding
}

// A path of the length that the flags say.
fn cut_short(text: &[u8], size: usize) -> Option<(&[u8], &[u8])>
    requires { size < longest_said }
    ensures { MatchOption result (Lacking (IsCutPath size) text.now)
        (λ parts. IsCutPath size parts.0.now text.now parts.1.now) }
{
    let (path, rest) = text.split_at_checked(size)?;
    if path.contains(&0) {
        return None;
    }
    Some((path, rest))
}

fn first_nul(text: &[u8]) -> Option<usize>
    ensures { result ≡ position (λ b. b == 0) text.now }
{
    text.iter().position(|byte| *byte == 0)
}

// A path for whose length the flags have no room: it goes up to the first NUL.
fn cut_long(text: &[u8]) -> Option<(&[u8], &[u8])>
    ensures { MatchOption result (Lacking (IsCutPath longest_said) text.now)
        (λ parts. IsCutPath longest_said parts.0.now text.now parts.1.now) }
{
    let Some(size) = first_nul(text) else {
        return None;
    };
    if size < LONGEST_SAID {
        return None;
    }
    Some(text.split_at(size))
}

fn cut_path(text: &[u8], mark: usize) -> Option<(&[u8], &[u8])>
    requires { mark ≤ longest_said }
    ensures { MatchOption result (Lacking (IsCutPath mark) text.now)
        (λ parts. IsCutPath mark parts.0.now text.now parts.1.now) }
{
    if mark < LONGEST_SAID {
        return cut_short(text, mark);
    }
    cut_long(text)
}

// Whether a path is above the last one, in byte order.
pub(crate) fn is_above(path: &[u8], last: &[u8]) -> bool
    ensures { result ≡ is_lt (slice_cmp nat_cmp last.now path.now) }
{
    last.cmp(path).is_lt()
}

// A path that is above the last one.
fn read_path<'a>(text: &'a [u8], mark: usize, last: &[u8]) -> Option<(&'a str, &'a [u8])>
    requires { mark ≤ longest_said }
    ensures { MatchOption result (Lacking (IsPathText last.now mark) text.now)
        (λ read. IsPathText last.now mark read.0.now text.now read.1.now) }
{
    let (path, rest) = cut_path(text, mark)?;
    if !is_above(path, last) {
        return None;
    }
    let Ok(path) = str::from_utf8(path) else {
        return None;
    };
    Some((path, rest))
}

// Behind the padding of a path of this length.
fn after_padding(text: &[u8], size: usize) -> Option<&[u8]>
    ensures { MatchOption result (NoPadding size text.now)
        (λ rest. text.now ≡ padding size ++ rest.now) }
{
    without_front(text, padding(size))
}

// A path and its padding, or how many bytes are left where they stop.
pub(crate) fn read_padded<'a>(
    text: &'a [u8],
    mark: usize,
    last: &[u8],
) -> Result<(&'a str, &'a [u8]), usize>
    requires { mark ≤ longest_said }
    ensures { MatchResult result (λ read. IsPadded last.now mark read.0.now text.now read.1.now)
        (StopsInPath last.now mark text.now) }
{
    let Some((path, rest)) = read_path(text, mark, last) else {
        return Err(text.len());
    };
    let Some(after) = after_padding(rest, path.len()) else {
        return Err(rest.len());
    };
    Ok((path, after))
}
