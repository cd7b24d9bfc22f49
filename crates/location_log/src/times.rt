// Reading a time.
ghost use Rattle.std.specs.Prelude.{◌≡◌, true, ℕ, ◌<◌, ◌^◌, decimal, MatchOption};
ghost use Rattle.std.specs.Char.{is_ascii_digit};
ghost use Rattle.std.specs.List.{list_all};
ghost use Rattle.config_text.specs.All.{is_number};
ghost use Rattle.location_log.specs.Texts.{IsFraction, IsTimeText};

use crate::cuts::cut_at;
use std::str;

fn are_digits(text: &[u8]) -> bool
    ensures { result ≡ list_all is_ascii_digit text.now }
{
    text.iter().all(|byte| byte.is_ascii_digit())
}

// The text of digits.
fn digits_text(digits: &[u8]) -> &str
    requires { list_all is_ascii_digit digits.now ≡ true }
    ensures { result.now ≡ digits.now }
{
    str::from_utf8(digits).unwrap()
}

#[tactic(auto, unfolding(config_text::specs::Settings::is_number))]
fn is_number(text: &[u8]) -> bool
    ensures { result ≡ is_number text.now }
{
    if text.is_empty() || !are_digits(text) {
        return false;
    }
    text.len() == 1 || text[0] != b'0'
}

// The number of these bytes, where they are one of 64 bits.
fn read_number(bytes: &[u8]) -> Option<u64>
    ensures { MatchOption result ((n : ℕ) → n < 2 ^ 64 → bytes.now ≡ decimal n → ⊥)
        (λ n. (n < 2 ^ 64) × (bytes.now ≡ decimal n)) }
{
    if !is_number(bytes) {
        return None;
    }
    digits_text(bytes).parse().ok()
}

// The nanoseconds of a fraction of a second.
fn read_fraction(digits: &[u8]) -> Option<u32>
    ensures { MatchOption result ((n : ℕ) → IsFraction n digits.now → ⊥)
        (λ n. (n < 1000000000) × IsFraction n digits.now) }
{
    let len = digits.len();
    if len > 9 || !are_digits(digits) {
        return None;
    }
    let Ok(number) = digits_text(digits).parse::<u32>() else {
        return None;
    };
    Some(number * 10u32.pow(9 - len as u32))
}

// The whole seconds of a time, and the nanoseconds behind them.
pub(crate) fn read_time(text: &[u8]) -> Option<(u64, u32)>
    ensures { MatchOption result ((secs nanos : ℕ) → IsTimeText secs nanos text.now → ⊥)
        (λ time. (time.1 < 1000000000) × IsTimeText time.0 time.1 text.now) }
{
    match cut_at(text, b'.') {
        Some((whole, digits)) => Some((read_number(whole)?, read_fraction(digits)?)),
        None => Some((read_number(text)?, 0)),
    }
}
