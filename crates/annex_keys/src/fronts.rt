// What stands at the front of a key's text. Each reader gives what follows, or how many bytes are
// left where the text stops being one of its grammar.
ghost use Rattle.std.specs.Prelude.{◌≡◌, ◌<◌, ◌≤◌, ◌+◌, ◌-◌, ◌*◌, ◌^◌, ◌++◌, true, length, take};
ghost use Rattle.std.specs.Prelude.{MatchOption, MatchResult};
ghost use Rattle.std.specs.Char.{is_ascii_alphanumeric, is_ascii_digit};
ghost use Rattle.std.specs.List.{prefix_len};
ghost use Rattle.hex.specs.Hex.{encode_lower};
ghost use Rattle.annex_keys.specs.Extensions.{IsExt};
ghost use Rattle.annex_keys.specs.Keys.{IsDigest};
ghost use Rattle.annex_keys.specs.Pieces.{IsSizeText};
ghost use Rattle.annex_keys.specs.Steps.{IsExtUpTo, IsGroupFront, IsSizeFront, StopsFront};
ghost use Rattle.annex_keys.specs.Steps.{StopsGroup, StopsWith, is_lower_digit};

// What follows a fixed front.
pub(crate) fn after_front<'a>(text: &'a [u8], front: &[u8]) -> Result<&'a [u8], usize>
    ensures { MatchResult result (λ rest. text.now ≡ front.now ++ rest.now)
        (StopsFront front.now text.now) }
{
    for (at, byte) in front.iter().enumerate() {
        if at == text.len() || text[at] != *byte {
            return Err(text.len() - at);
        }
    }
    Ok(&text[front.len()..])
}

// The number with one more digit, where that still has at most 64 bits.
fn with_digit(number: u64, digit: u8) -> Option<u64>
    requires { is_ascii_digit digit ≡ true }
    ensures { MatchOption result (2 ^ 64 ≤ number * 10 + (digit - 48))
        (λ more. (more < 2 ^ 64) × (more ≡ number * 10 + (digit - 48))) }
{
    let tens = number.checked_mul(10)?;
    tens.checked_add(u64::from(digit - b'0'))
}

// The size at the front, and what follows its digits.
pub(crate) fn read_size(text: &[u8]) -> Result<(u64, &[u8]), usize>
    ensures { MatchResult result (λ read. IsSizeFront text.now read.0 read.1.now)
        (StopsWith IsSizeText text.now) }
{
    let mut size: u64 = 0;
    let mut at: usize = 0;
    while at < text.len() && text[at].is_ascii_digit() {
        if at == 1 && size == 0 {
            return Err(text.len() - at);
        }
        let Some(more) = with_digit(size, text[at]) else {
            return Err(text.len() - at);
        };
        size = more;
        at += 1;
    }
    if at == 0 {
        return Err(text.len());
    }
    Ok((size, &text[at..]))
}

fn is_lower_digit(byte: u8) -> bool
    ensures { result ≡ is_lower_digit byte }
{
    byte.is_ascii_digit() || matches!(byte, b'a'..=b'f')
}

// How many of the first 64 bytes are lower-case hexadecimal digits, from the front on.
pub(crate) fn digits_at_front(text: &[u8]) -> usize
    ensures { result ≡ prefix_len is_lower_digit (take 64 text.now) }
{
    text.iter()
        .take(64)
        .take_while(|byte| is_lower_digit(**byte))
        .count()
}

// How many of the first four bytes are letters or digits, from the front on.
fn group_len(text: &[u8]) -> usize
    ensures { result ≡ prefix_len is_ascii_alphanumeric (take 4 text.now) }
{
    text.iter()
        .take(4)
        .take_while(|byte| byte.is_ascii_alphanumeric())
        .count()
}

// What follows the dot and the group at the front.
fn after_group(text: &[u8]) -> Result<&[u8], usize>
    requires { 0 < length text.now }
    ensures { MatchResult result (λ rest. IsGroupFront text.now rest.now) (StopsGroup text.now) }
{
    if text[0] != b'.' {
        return Err(text.len());
    }
    let text = &text[1..];
    let taken = group_len(text);
    if taken == 0 {
        return Err(text.len());
    }
    Ok(&text[taken..])
}

// Whether at most one group stands here, and nothing else.
fn check_last_group(text: &[u8]) -> Result<(), usize>
    ensures { MatchResult result (λ _. IsExtUpTo 1 text.now) (StopsWith (IsExtUpTo 1) text.now) }
{
    if text.is_empty() {
        return Ok(());
    }
    let rest = after_group(text)?;
    if rest.is_empty() {
        Ok(())
    } else {
        Err(rest.len())
    }
}

// Whether an extension stands here, and nothing else.
pub(crate) fn check_ext(text: &[u8]) -> Result<(), usize>
    ensures { MatchResult result (λ _. IsExt text.now) (StopsWith IsExt text.now) }
{
    if text.is_empty() {
        return Ok(());
    }
    let rest = after_group(text)?;
    check_last_group(rest)
}
