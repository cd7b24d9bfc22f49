// One line of a configuration: nothing, the head of a section, or a key with its value.
ghost use Rattle.std.specs.Prelude.{◌≡◌, ◌≤◌, ◌<◌, ◌+◌, ◌++◌, ◌∷◌, true, false, length, IfOk, MatchOption};
ghost use Rattle.std.specs.Prelude.{option_copied, option_map, ◌==◌};
ghost use Rattle.std.specs.List.{list_all, position};
ghost use Rattle.std.specs.Str.{is_utf8};
ghost use Rattle.config_text.specs.Values.{Adds};
ghost use Rattle.config_text.specs.Lines.{lines_of, without_end, content, lower, cut_at, headed, paired, is_key_byte};
ghost use Rattle.config_text.specs.Lines.{is_name_byte, is_name, is_key, added_to_sub, sub_spelled, sub_of, head_at};
ghost use Rattle.config_text.specs.Lines.{head_of, pair_at, pair_in, said, line_of};

use crate::sections::Entry;
use crate::values::{is_comment, read_value, text_of, trimmed};
use places::Text;
use std::alloc::{AllocError, Global};

/// What a line says: nothing, as an empty one or a comment; a section's head; or an entry.
#[derive(Debug, Drop)]
pub enum Line {
    Nothing,
    Head { name: Text, sub: Option<Text> },
    Pair(Entry),
}

fn first_place(text: &[u8], byte: u8) -> Option<usize>
    ensures { result ≡ position (λ b. b == byte) text.now }
{
    text.iter().position(|b| *b == byte)
}

// The first line with its newline, and what follows it.
pub fn first_line(text: &[u8]) -> (&[u8], &[u8])
    requires { 0 < length text.now }
    ensures lines { lines_of text.now ≡ result.0.now ∷ lines_of result.1.now }
    ensures shorter { length result.1.now < length text.now }
{
    match first_place(text, b'\n') {
        Some(end) => text.split_at(end + 1),
        None => text.split_at(text.len()),
    }
}

// What stands before the first such byte, and what after it.
fn cut_at(text: &[u8], byte: u8) -> Option<(&[u8], &[u8])>
    ensures { option_map (λ parts. (parts.0.now, parts.1.now)) result ≡ cut_at byte text.now }
{
    let Some(place) = first_place(text, byte) else {
        return None;
    };
    Some((&text[..place], &text[place + 1..]))
}

#[tactic(auto, unfolding(crate::specs::Lines::without_end))]
fn without_end(text: &[u8], byte: u8) -> Option<&[u8]>
    ensures { option_copied result ≡ without_end byte text.now }
{
    if text.is_empty() || text[text.len() - 1] != byte {
        return None;
    }
    Some(&text[..text.len() - 1])
}

// A line without its newline, and without a carriage return before that.
#[tactic(auto, unfolding(crate::specs::Lines::content))]
pub fn content(line: &[u8]) -> &[u8]
    ensures { result.now ≡ content line.now }
{
    match without_end(line, b'\n') {
        Some(text) => without_end(text, b'\r').unwrap_or(text),
        None => line,
    }
}

#[tactic(auto, unfolding(crate::specs::Lines::is_key_byte))]
fn is_key_byte(byte: u8) -> bool
    ensures { result ≡ is_key_byte byte }
{
    byte.is_ascii_alphanumeric() || byte == b'-'
}

#[tactic(auto, unfolding(crate::specs::Lines::is_name_byte))]
fn is_name_byte(byte: u8) -> bool
    ensures { result ≡ is_name_byte byte }
{
    is_key_byte(byte) || byte == b'.'
}

fn are_name_bytes(name: &[u8]) -> bool
    ensures { result ≡ list_all is_name_byte name.now }
{
    name.iter().all(|byte| is_name_byte(*byte))
}

#[tactic(auto, unfolding(crate::specs::Lines::is_name))]
fn is_name(name: &[u8]) -> bool
    ensures { result ≡ is_name name.now }
{
    !name.is_empty() && are_name_bytes(name)
}

fn are_key_bytes(key: &[u8]) -> bool
    ensures { result ≡ list_all is_key_byte key.now }
{
    key.iter().all(|byte| is_key_byte(*byte))
}

#[tactic(auto, unfolding(crate::specs::Lines::is_key))]
fn is_key(key: &[u8]) -> bool
    ensures { result ≡ is_key key.now }
{
    !key.is_empty() && key[0].is_ascii_alphabetic() && are_key_bytes(key)
}

fn lower(alloc: Global, text: &[u8]) -> Result<Text, AllocError>
    requires { is_utf8 (lower text.now) ≡ true }
    ensures { IfOk result (λ t. t ≡ lower text.now) }
{
    let bytes: Vec<u8> = text
        .iter()
        .map(|byte| byte.to_ascii_lowercase())
        .collect(alloc)?;
    Ok(text_of(bytes))
}

// Adds what a byte of a second name stands for; false where it stands for nothing.
#[tactic(auto, unfolding(crate::specs::Lines::added_to_sub))]
fn add_to_sub(sub: &mut Vec<u8>, escaped: bool, byte: u8) -> Result<bool, AllocError>
    ensures { IfOk result (Adds (added_to_sub escaped byte) sub.old.items sub.new.items) }
{
    if byte == b'"' || byte == b'\\' {
        if escaped {
            sub.push(byte)?;
            return Ok(true);
        }
        return Ok(byte == b'\\');
    }
    if escaped {
        return Ok(false);
    }
    sub.push(byte)?;
    Ok(true)
}

// The second name that is spelled inside the quotes.
fn unquoted_sub(alloc: Global, text: &[u8]) -> Result<Option<Vec<u8>>, AllocError>
    ensures { IfOk result (λ found. option_map (λ v. v.items) found ≡ sub_spelled false text.now) }
{
    let mut sub = Vec::new(alloc);
    let mut escaped = false;
    for byte in text {
        if !add_to_sub(&mut sub, escaped, *byte)? {
            return Ok(None);
        }
        escaped = !escaped && *byte == b'\\';
    }
    if escaped {
        return Ok(None);
    }
    Ok(Some(sub))
}

#[tactic(auto, unfolding(crate::specs::Lines::sub_of), using(crate::proofs::Utf8::utf8_sub))]
fn read_sub(alloc: Global, text: &[u8]) -> Result<Option<Text>, AllocError>
    requires { is_utf8 text.now ≡ true }
    ensures { IfOk result (λ found. found ≡ sub_of text.now) }
{
    if text.is_empty() || text[0] != b'"' {
        return Ok(None);
    }
    let Some(inner) = without_end(&text[1..], b'"') else {
        return Ok(None);
    };
    let Some(sub) = unquoted_sub(alloc, inner)? else {
        return Ok(None);
    };
    Ok(Some(text_of(sub)))
}

#[tactic(auto, unfolding(crate::specs::Lines::headed), using(crate::proofs::Utf8::utf8_name))]
fn head_named(alloc: Global, name: &[u8], sub: Option<Text>) -> Result<Option<Line>, AllocError>
    ensures { IfOk result (λ found. found ≡ headed name.now sub) }
{
    if !is_name(name) {
        return Ok(None);
    }
    let name = lower(alloc, name)?;
    Ok(Some(Line::Head { name, sub }))
}

// `NAME` or `NAME "SUB"`.
#[tactic(auto, unfolding(crate::specs::Lines::head_at))]
fn read_names(alloc: Global, text: &[u8]) -> Result<Option<Line>, AllocError>
    requires { is_utf8 text.now ≡ true }
    ensures { IfOk result (λ found. found ≡ head_at text.now (cut_at 32 text.now)) }
{
    let Some((name, quoted)) = cut_at(text, b' ') else {
        return head_named(alloc, text, None);
    };
    let Some(sub) = read_sub(alloc, quoted)? else {
        return Ok(None);
    };
    head_named(alloc, name, Some(sub))
}

#[tactic(auto, unfolding(crate::specs::Lines::head_of))]
fn read_head(alloc: Global, text: &[u8]) -> Result<Option<Line>, AllocError>
    requires { is_utf8 text.now ≡ true }
    ensures { IfOk result (λ found. found ≡ head_of text.now) }
{
    let Some(names) = without_end(text, b']') else {
        return Ok(None);
    };
    read_names(alloc, names)
}

#[tactic(auto, unfolding(crate::specs::Lines::paired), using(crate::proofs::Utf8::utf8_key))]
fn pair_of(alloc: Global, key: &[u8], value: Text) -> Result<Option<Line>, AllocError>
    ensures { IfOk result (λ found. found ≡ paired key.now value) }
{
    if !is_key(key) {
        return Ok(None);
    }
    let key = lower(alloc, key)?;
    Ok(Some(Line::Pair(Entry { key, value })))
}

// A key alone is true.
#[tactic(auto, unfolding(crate::specs::Lines::pair_in, crate::specs::Lines::pair_at))]
fn read_pair(alloc: Global, text: &[u8]) -> Result<Option<Line>, AllocError>
    requires { is_utf8 text.now ≡ true }
    ensures { IfOk result (λ found. found ≡ pair_in text.now) }
{
    let Some((key, value)) = cut_at(text, b'=') else {
        return pair_of(alloc, text, Text::new(String::from_str(alloc, "true")?));
    };
    let Some(value) = read_value(alloc, value)? else {
        return Ok(None);
    };
    pair_of(alloc, trimmed(key), value)
}

#[tactic(auto, unfolding(crate::specs::Lines::said))]
fn read_trimmed(alloc: Global, text: &[u8]) -> Result<Option<Line>, AllocError>
    requires { is_utf8 text.now ≡ true }
    ensures { IfOk result (λ found. found ≡ said text.now) }
{
    if text.is_empty() || is_comment(text[0]) {
        return Ok(Some(Line::Nothing));
    }
    if text[0] == b'[' {
        return read_head(alloc, &text[1..]);
    }
    read_pair(alloc, text)
}

fn is_utf8(bytes: &[u8]) -> bool
    ensures { result ≡ is_utf8 bytes.now }
{
    str::from_utf8(bytes).is_ok()
}

/// What a line says. None where it is outside the grammar.
#[tactic(auto, unfolding(crate::specs::Lines::line_of), using(crate::proofs::Utf8::utf8_trimmed))]
pub fn read_line(alloc: Global, line: &[u8]) -> Result<Option<Line>, AllocError>
    ensures { IfOk result (λ found. found ≡ line_of line.now) }
{
    if !is_utf8(line) {
        return Ok(None);
    }
    read_trimmed(alloc, trimmed(line))
}
