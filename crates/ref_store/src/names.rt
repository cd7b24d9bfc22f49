// The names of branches.
ghost use Rattle.std.specs.Prelude.{◌≡◌};
ghost use Rattle.std.specs.List.{list_all};
ghost use Rattle.places.specs.All.{pieces};
ghost use Rattle.repository.specs.All.{is_branch_byte, is_component, has_single_dots, is_branch as is_branch_name};

fn is_branch_byte(byte: u8) -> bool
    ensures { result ≡ is_branch_byte byte }
{
    byte.is_ascii_alphanumeric() || byte == b'.' || byte == b'_' || byte == b'-' || byte == b'+'
}

// A part of a branch's name.
fn is_component(part: &[u8]) -> bool
    ensures { result ≡ is_component part.now }
{
    if part.is_empty() {
        return false;
    }
    if !part.iter().all(|byte| is_branch_byte(*byte)) {
        return false;
    }
    if part.starts_with(b".") {
        return false;
    }
    if part.starts_with(b"-") {
        return false;
    }
    !part.ends_with(b".lock")
}

/// Whether each part between slashes is one of a branch's name.
pub(crate) fn has_components(name: &[u8]) -> bool
    ensures { result ≡ list_all is_component (pieces name.now) }
{
    name.split(|byte| *byte == b'/')
        .all(|part| is_component(part))
}

fn has_single_dots(name: &[u8]) -> bool
    ensures { result ≡ has_single_dots name.now }
{
    name.split(|byte| *byte == b'.')
        .all(|part| !part.is_empty())
}

/// Whether this is the name of a branch: git's rule, in the alphabet of ASCII letters, digits, `.`, `_`, `-`, `+` and
/// `/`, with at most 200 bytes.
#[tactic(auto, unfolding(repository::specs::Heads::is_branch))]
pub fn is_branch(name: &[u8]) -> bool
    ensures { result ≡ is_branch_name name.now }
{
    if name.len() > 200 {
        return false;
    }
    if !has_components(name) {
        return false;
    }
    if !has_single_dots(name) {
        return false;
    }
    name != b"HEAD".as_slice()
}
