// The extension of a file name.
ghost use Rattle.std.specs.Prelude.{◌≡◌, length, MatchOption};
ghost use Rattle.std.specs.Char.{is_ascii_alphanumeric};
ghost use Rattle.std.specs.List.{list_all};
ghost use Rattle.annex_keys.specs.Extensions.{ext_of, is_group};
ghost use Rattle.annex_keys.specs.GroupsAtEnd.{EndsInGroup, IsLastDotBelow, NoDotBelow, NoGroupAtEnd};

fn are_alphanumeric(text: &[u8]) -> bool
    ensures { result ≡ list_all is_ascii_alphanumeric text.now }
{
    text.iter().all(|byte| byte.is_ascii_alphanumeric())
}

#[tactic(auto, unfolding(crate::specs::Extensions::is_group))]
pub(crate) fn is_group(text: &[u8]) -> bool
    ensures { result ≡ is_group text.now }
{
    !text.is_empty() && text.len() <= 4 && are_alphanumeric(text)
}

// Where the last dot stands.
fn last_dot(name: &[u8]) -> Option<usize>
    ensures { MatchOption result (NoDotBelow name.now (length name.now))
        (IsLastDotBelow name.now (length name.now)) }
{
    let mut found = None;
    for (at, byte) in name.iter().enumerate() {
        if *byte == b'.' {
            found = Some(at);
        }
    }
    found
}

// Where the dot of the last part stands, if that part is a group.
fn last_group(name: &[u8]) -> Option<usize>
    ensures { MatchOption result (NoGroupAtEnd name.now) (EndsInGroup name.now) }
{
    let Some(dot) = last_dot(name) else {
        return None;
    };
    if !is_group(&name[dot + 1..]) {
        return None;
    }
    Some(dot)
}

/// The extension of a file name.
pub(crate) fn extension(name: &[u8]) -> &[u8]
    ensures { result.now ≡ ext_of name.now }
{
    let Some(last) = last_group(name) else {
        return &name[name.len()..];
    };
    match last_group(&name[..last]) {
        Some(before) => &name[before..],
        None => &name[last..],
    }
}
