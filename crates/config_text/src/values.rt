// Values: as they are where a reader gives them back so, and else in double quotes with escapes.
ghost use Rattle.std.specs.Prelude.{◌≡◌, ◌<◌, ◌≤◌, ◌++◌, true, false, length, take, IfOk, OnOk, MatchOption};
ghost use Rattle.std.specs.Prelude.{option_map};
ghost use Rattle.std.specs.List.{list_any};
ghost use Rattle.std.specs.Str.{is_utf8};
ghost use Rattle.config_text.specs.Values.{is_blank, has_blank_end, is_special, needs_quotes, escape_of, escaped_byte};
ghost use Rattle.config_text.specs.Values.{escaped, printed_value};
ghost use Rattle.config_text.specs.Values.{is_comment, without_front_blanks, without_end_blanks, trimmed, outside};
ghost use Rattle.config_text.specs.Values.{is_outside, after_byte, unescaped, added, Adds, spelled, before_comment};
ghost use Rattle.config_text.specs.Values.{value_of};

use places::Text;
use std::alloc::{AllocError, Global};

fn is_blank(byte: u8) -> bool
    ensures { result ≡ is_blank byte }
{
    matches!(byte, b' ' | b'\t')
}

// A comment would begin here, or the byte has an escape, or a reader may drop it.
#[tactic(auto, unfolding(crate::specs::Values::is_special))]
fn is_special(byte: u8) -> bool
    ensures { result ≡ is_special byte }
{
    matches!(byte, b'#' | b';' | b'"' | b'\\' | b'\n' | b'\r' | b'\t' | 8)
}

fn has_blank_end(value: &[u8]) -> bool
    requires { 0 < length value.now }
    ensures { result ≡ has_blank_end value.now }
{
    is_blank(value[0]) || is_blank(value[value.len() - 1])
}

fn has_special(value: &[u8]) -> bool
    ensures { result ≡ list_any is_special value.now }
{
    value.iter().any(|byte| is_special(*byte))
}

fn needs_quotes(value: &[u8]) -> bool
    ensures { result ≡ needs_quotes value.now }
{
    value.is_empty() || has_blank_end(value) || has_special(value)
}

// What stands after the backslash, for a byte that has an escape.
fn escape_of(byte: u8) -> Option<u8>
    ensures { result ≡ escape_of byte }
{
    match byte {
        b'"' | b'\\' => Some(byte),
        b'\n' => Some(b'n'),
        b'\t' => Some(b't'),
        8 => Some(b'b'),
        _ => None,
    }
}

fn append_escaped_byte(text: &mut Vec<u8>, byte: u8) -> Result<(), AllocError>
    ensures { OnOk result (text.new.items ≡ text.old.items ++ escaped_byte byte) }
{
    match escape_of(byte) {
        Some(letter) => text.extend_from_slice(&[b'\\', letter]),
        None => text.extend_from_slice(&[byte]),
    }
}

fn append_escaped(text: &mut Vec<u8>, value: &[u8]) -> Result<(), AllocError>
    ensures { OnOk result (text.new.items ≡ text.old.items ++ escaped value.now) }
{
    for byte in value {
        append_escaped_byte(text, *byte)?;
    }
    Ok(())
}

#[tactic(auto, unfolding(crate::specs::Values::printed_value))]
pub fn append_value(text: &mut Vec<u8>, value: &[u8]) -> Result<(), AllocError>
    ensures { OnOk result (text.new.items ≡ text.old.items ++ printed_value value.now) }
{
    if !needs_quotes(value) {
        return text.extend_from_slice(value);
    }
    text.extend_from_slice(b"\"")?;
    append_escaped(text, value)?;
    text.extend_from_slice(b"\"")
}

/// Where a byte of a value stands: in double quotes, and right after a backslash.
#[derive(Clone, Copy, Debug)]
pub struct Quoting {
    pub quoted: bool,
    pub escaped: bool,
}

impl Quoting {
    fn outside() -> Quoting
        ensures { result ≡ outside }
    {
        Quoting {
            quoted: false,
            escaped: false,
        }
    }

    fn is_outside(self) -> bool
        ensures { result ≡ is_outside self }
    {
        !self.quoted && !self.escaped
    }

    #[tactic(auto, unfolding(crate::specs::Values::after_byte))]
    fn after(self, byte: u8) -> Quoting
        ensures { result ≡ after_byte self byte }
    {
        let quoted = self.quoted;
        if self.escaped {
            return Quoting {
                quoted,
                escaped: false,
            };
        }
        if byte == b'\\' {
            return Quoting {
                quoted,
                escaped: true,
            };
        }
        if byte == b'"' {
            return Quoting {
                quoted: !quoted,
                escaped: false,
            };
        }
        self
    }
}

// The text of these bytes.
pub fn text_of(bytes: Vec<u8>) -> Text
    requires { is_utf8 bytes.items ≡ true }
    ensures { result ≡ bytes.items }
{
    Text::new(String::from_utf8(bytes).unwrap())
}

pub fn is_comment(byte: u8) -> bool
    ensures { result ≡ is_comment byte }
{
    matches!(byte, b'#' | b';')
}

fn without_front_blanks(text: &[u8]) -> &[u8]
    ensures { result.now ≡ without_front_blanks text.now }
{
    let mut start = 0;
    while start < text.len() && is_blank(text[start]) {
        start += 1;
    }
    &text[start..]
}

fn without_end_blanks(text: &[u8]) -> &[u8]
    ensures { result.now ≡ without_end_blanks text.now }
{
    let mut end = text.len();
    while end > 0 && is_blank(text[end - 1]) {
        end -= 1;
    }
    &text[..end]
}

#[tactic(auto, unfolding(crate::specs::Values::trimmed))]
pub fn trimmed(text: &[u8]) -> &[u8]
    ensures { result.now ≡ trimmed text.now }
{
    without_end_blanks(without_front_blanks(text))
}

// What an escape stands for, by what follows the backslash.
#[tactic(auto, unfolding(crate::specs::Values::unescaped))]
fn unescaped(byte: u8) -> Option<u8>
    ensures { result ≡ unescaped byte }
{
    match byte {
        b'"' | b'\\' => Some(byte),
        b'n' => Some(b'\n'),
        b't' => Some(b'\t'),
        b'b' => Some(8),
        _ => None,
    }
}

// Adds what a byte stands for; false where it stands for nothing.
#[tactic(auto, unfolding(crate::specs::Values::added))]
fn add_byte(value: &mut Vec<u8>, place: Quoting, byte: u8) -> Result<bool, AllocError>
    ensures { IfOk result (Adds (added place byte) value.old.items value.new.items) }
{
    if place.escaped {
        let Some(byte) = unescaped(byte) else {
            return Ok(false);
        };
        value.push(byte)?;
        return Ok(true);
    }
    if byte == b'\\' || byte == b'"' {
        return Ok(true);
    }
    value.push(byte)?;
    Ok(true)
}

// The value that the bytes spell.
fn unquoted(alloc: Global, text: &[u8]) -> Result<Option<Vec<u8>>, AllocError>
    ensures { IfOk result (λ found. option_map (λ v. v.items) found ≡ spelled outside text.now) }
{
    let mut value = Vec::new(alloc);
    let mut place = Quoting::outside();
    for byte in text {
        if !add_byte(&mut value, place, *byte)? {
            return Ok(None);
        }
        place = place.after(*byte);
    }
    if !place.is_outside() {
        return Ok(None);
    }
    Ok(Some(value))
}

// What stands before a comment.
fn before_comment(text: &[u8]) -> &[u8]
    ensures { result.now ≡ before_comment outside text.now }
{
    let mut place = Quoting::outside();
    for (index, byte) in text.iter().enumerate() {
        if place.is_outside() && is_comment(*byte) {
            return &text[..index];
        }
        place = place.after(*byte);
    }
    text
}

/// The value in what follows the `=`; None where it is outside the grammar.
#[tactic(auto, unfolding(crate::specs::Values::value_of), using(crate::proofs::Utf8::utf8_value))]
pub fn read_value(alloc: Global, text: &[u8]) -> Result<Option<Text>, AllocError>
    requires { is_utf8 text.now ≡ true }
    ensures { IfOk result (λ found. found ≡ value_of text.now) }
{
    let Some(value) = unquoted(alloc, trimmed(before_comment(text)))? else {
        return Ok(None);
    };
    Ok(Some(text_of(value)))
}
