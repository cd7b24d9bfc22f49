// Revision words as they are read: a base, and how many first parents they go back from it.
//
// A number may have any length. Of a count that is larger than walks are no more is kept than that it is.
ghost use Rattle.std.specs.Prelude.{◌≡◌, ℕ, List, length, unwrap_or, position, MatchOption};
ghost use Rattle.ref_store.specs.Revisions.{IsRevision, is_back_byte};
ghost use Rattle.ref_store.specs.RevisionWords.{IsRead, count_in, last_count, limited, more, next, number_more, total};

/// How many commits one walk may pass.
pub(crate) const WALK_LIMIT: u32 = 100_000;

// What stands at the end of the part that was read.
#[derive(Clone, Copy, Debug)]
enum Last {
    Nothing,
    Caret,
    Tilde,
    Number(u32),
}

// What was read of that which goes back from a base: how far all before the last go, and the last.
#[derive(Clone, Copy, Debug)]
struct Going {
    count: u32,
    last: Last,
}

// A count, or one more than walks may pass where it is larger.
fn limited(count: u32) -> u32
    ensures { result ≡ limited count }
{
    count.min(WALK_LIMIT + 1)
}

fn last_count(last: Last) -> u32
    ensures { result ≡ last_count last }
{
    match last {
        Last::Nothing => 0,
        Last::Caret => 1,
        Last::Tilde => 1,
        Last::Number(number) => number,
    }
}

// How far all together go.
fn total(going: Going) -> u32
    ensures { result ≡ total going }
{
    let last = last_count(going.last);
    limited(going.count.saturating_add(last))
}

// A number with one digit more, which has no zero in front.
fn number_more(number: u32, digit: u32) -> Option<Last>
    ensures { result ≡ number_more number digit }
{
    if number == 0 {
        return None;
    }
    let longer = number.saturating_mul(10).saturating_add(digit);
    Some(Last::Number(limited(longer)))
}

// The last with one digit more.
fn more(last: Last, digit: u32) -> Option<Last>
    ensures { result ≡ more last digit }
{
    match last {
        Last::Nothing => None,
        Last::Caret => None,
        Last::Tilde => Some(Last::Number(digit)),
        Last::Number(number) => number_more(number, digit),
    }
}

// What was read, with one byte more.
#[tactic(auto, unfolding(crate::specs::RevisionWords::next))]
fn next(going: Going, byte: u8) -> Option<Going>
    ensures { result ≡ next going byte }
{
    let count = total(going);
    if byte == b'^' {
        let last = Last::Caret;
        return Some(Going { count, last });
    }
    if byte == b'~' {
        let last = Last::Tilde;
        return Some(Going { count, last });
    }
    if !byte.is_ascii_digit() {
        return None;
    }
    let last = more(going.last, u32::from(byte - b'0'))?;
    let count = going.count;
    Some(Going { count, last })
}

// How far a text goes back.
fn count_in(text: &[u8]) -> Option<u32>
    ensures { result ≡ count_in text.now }
{
    let mut going = Going {
        count: 0,
        last: Last::Nothing,
    };
    for byte in text {
        going = next(going, *byte)?;
    }
    Some(total(going))
}

fn is_back_byte(byte: u8) -> bool
    ensures { result ≡ is_back_byte byte }
{
    byte == b'^' || byte == b'~'
}

// Where that begins which goes back.
fn back_at(word: &[u8]) -> Option<usize>
    ensures { result ≡ position is_back_byte word.now }
{
    word.iter().position(|byte| is_back_byte(*byte))
}

// Where the base ends.
fn base_end(word: &[u8]) -> usize
    ensures { result ≡ unwrap_or (position is_back_byte word.now) (length word.now) }
{
    back_at(word).unwrap_or(word.len())
}

/// The base of a revision word, and how many first parents it goes back, or one more than walks may pass where they are
/// more. None where the word is of another form.
pub(crate) fn revision_in(word: &[u8]) -> Option<(&[u8], u32)>
    ensures { MatchOption result ((base : List ℕ) (count : ℕ) → IsRevision word.now base count → ⊥)
        (λ read. IsRead word.now read.0.now read.1) }
{
    let (base, rest) = word.split_at(base_end(word));
    let count = count_in(rest)?;
    Some((base, count))
}
