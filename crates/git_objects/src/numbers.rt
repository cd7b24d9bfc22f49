// Numbers in texts.
ghost use Rattle.std.specs.Prelude.{◌≡◌, ℕ, MatchOption};
ghost use Rattle.git_objects.specs.Numbers.{IsNumber};

use itoa::Buffer;

// The number whose text this is.
pub(crate) fn read_number(text: &[u8]) -> Option<u64>
    ensures { MatchOption result ((n : ℕ) → IsNumber text.now n → ⊥) (IsNumber text.now) }
{
    let Ok(digits) = str::from_utf8(text) else {
        return None;
    };
    let Ok(number) = digits.parse::<u64>() else {
        return None;
    };
    let mut buffer = Buffer::new();
    if buffer.format(number) != digits {
        return None;
    }
    Some(number)
}
