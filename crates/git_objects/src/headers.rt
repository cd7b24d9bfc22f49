// The further lines of a commit's head.
ghost use Rattle.std.specs.Prelude.{◌≡◌, ◌↔◌, IsTrue};
ghost use Rattle.std.specs.List.{list_all};
ghost use Rattle.git_objects.specs.Headers.{is_extra, is_extra_line, lines_of, IsExtra};

#[tactic(auto, unfolding(crate::specs::Headers::is_extra_line))]
pub(crate) fn is_extra_line(line: &[u8]) -> bool
    ensures { result ≡ is_extra_line line.now }
{
    !line.is_empty()
        && !line.contains(&0)
        && !line.starts_with(b"tree ")
        && !line.starts_with(b"parent ")
        && !line.starts_with(b"author ")
        && !line.starts_with(b"committer ")
}

fn are_extra_lines(lines: &[u8]) -> bool
    ensures { result ≡ list_all is_extra_line (lines_of lines.now) }
{
    lines.split(|b| *b == b'\n').all(|line| is_extra_line(line))
}

#[tactic(auto, unfolding(crate::specs::Headers::is_extra))]
fn has_extra_form(bytes: &[u8]) -> bool
    ensures { result ≡ is_extra bytes.now }
{
    bytes.is_empty()
        || (bytes[0] != b' '
            && bytes[bytes.len() - 1] == b'\n'
            && are_extra_lines(&bytes[..bytes.len() - 1]))
}

/// Whether these are further lines for a commit's head.
pub fn is_extra(bytes: &[u8]) -> bool
    ensures test { result ≡ is_extra bytes.now }
    ensures grammar { IsTrue result ↔ IsExtra bytes.now }
{
    has_extra_form(bytes)
}
