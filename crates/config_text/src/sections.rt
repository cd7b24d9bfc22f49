// Sections with their entries, and the text of a list of them.
ghost use Rattle.std.specs.Prelude.{◌≡◌, ◌++◌, map, option_copied, IfOk, OnOk, MatchResult};
ghost use Rattle.std.specs.List.{flat_map};
ghost use Rattle.config_text.specs.Laws.{ReadsMore};
ghost use Rattle.config_text.specs.Lookups.{is_alone, sub_under, value_in};
ghost use Rattle.config_text.specs.Sections.{plain, sub_byte, sub_escaped, heading, printed_entry, pair_of, printed_of};
ghost use Rattle.config_text.specs.Sections.{printed, is_unended, appended};
ghost use Rattle.config_text.specs.declared.errors.ConfErr.TheVariants.{NoMemory};

use crate::errors::ConfErr;
use crate::values::append_value;
use places::Text;
use std::alloc::{AllocError, Global};

/// `KEY = VALUE`.
#[derive(Debug, Drop)]
pub struct Entry {
    pub key: Text,
    pub value: Text,
}

/// `[NAME]` or `[NAME "SUB"]`, and the entries below it.
#[derive(Debug, Drop)]
pub struct Section {
    pub name: Text,
    pub sub: Option<Text>,
    pub entries: Vec<Entry>,
}

impl Section {
    /// Whether it is `[NAME]`.
    #[tactic(auto, unfolding(crate::specs::Lookups::is_alone))]
    pub fn is_alone(&self, name: &str) -> bool
        ensures { result ≡ is_alone name.now (plain self.now) }
    {
        self.name.as_str() == name && self.sub.is_none()
    }

    /// SUB where it is `[NAME "SUB"]`.
    #[tactic(auto, unfolding(crate::specs::Lookups::sub_under))]
    pub fn sub_under(&self, name: &str) -> Option<&str>
        ensures { option_copied result ≡ sub_under name.now (plain self.now) }
    {
        if self.name.as_str() != name {
            return None;
        }
        match &self.sub {
            Some(sub) => Some(sub.as_str()),
            None => None,
        }
    }

    /// The value of a key, the last one where it is given twice.
    pub fn value(&self, key: &str) -> Option<&str>
        ensures { option_copied result ≡ value_in key.now self.now.entries.items }
    {
        let mut found = None;
        for entry in &self.entries {
            if entry.key.as_str() == key {
                found = Some(entry.value.as_str());
            }
        }
        found
    }
}

/// The text of the sections, one after another.
pub fn print(alloc: Global, list: &[Section]) -> Result<Vec<u8>, ConfErr>
    ensures { MatchResult result (λ text. text.items ≡ printed list.now) (λ e. e ≡ NoMemory) }
{
    let mut text = Vec::new(alloc);
    append_sections(&mut text, list)?;
    Ok(text)
}

// Whether a line is left without its newline.
fn is_unended(text: &[u8]) -> bool
    ensures { result ≡ is_unended text.now }
{
    !text.is_empty() && text[text.len() - 1] != b'\n'
}

fn append_to(text: &mut Vec<u8>, old: &[u8], section: &Section) -> Result<(), AllocError>
    ensures { OnOk result (text.new.items
        ≡ text.old.items ++ appended old.now (printed_of section.now)) }
{
    text.extend_from_slice(old)?;
    if is_unended(old) {
        text.extend_from_slice(b"\n")?;
    }
    append_printed(text, section)
}

/// The text of a configuration with one more section at its end.
pub fn append_section(alloc: Global, old: &[u8], section: &Section) -> Result<Vec<u8>, ConfErr>
    ensures reads { IfOk result (λ text. ReadsMore old.now (plain section.now) text.items) }
    ensures text { MatchResult result (λ text. text.items ≡ appended old.now (printed_of section.now))
        (λ e. e ≡ NoMemory) }
{
    let mut text = Vec::new(alloc);
    append_to(&mut text, old, section)?;
    Ok(text)
}

pub fn append_sections(text: &mut Vec<u8>, list: &[Section]) -> Result<(), AllocError>
    ensures { OnOk result (text.new.items ≡ text.old.items ++ printed list.now) }
{
    for section in list {
        append_printed(text, section)?;
    }
    Ok(())
}

fn append_printed(text: &mut Vec<u8>, section: &Section) -> Result<(), AllocError>
    ensures { OnOk result (text.new.items ≡ text.old.items ++ printed_of section.now) }
{
    match &section.sub {
        None => append_heading(text, section.name.as_str())?,
        Some(sub) => append_heading_of(text, section.name.as_str(), sub.as_str())?,
    }
    append_entries(text, section.entries.as_slice())
}

#[tactic(auto, unfolding(crate::specs::Sections::heading))]
pub fn append_heading(text: &mut Vec<u8>, name: &str) -> Result<(), AllocError>
    ensures { OnOk result (text.new.items ≡ text.old.items ++ heading name.now None) }
{
    text.extend_from_slice(b"[")?;
    text.extend_from_slice(name.as_bytes())?;
    text.extend_from_slice(b"]\n")
}

#[tactic(auto, unfolding(crate::specs::Sections::heading))]
pub fn append_heading_of(text: &mut Vec<u8>, name: &str, sub: &str) -> Result<(), AllocError>
    ensures { OnOk result (text.new.items ≡ text.old.items ++ heading name.now (Some sub.now)) }
{
    text.extend_from_slice(b"[")?;
    text.extend_from_slice(name.as_bytes())?;
    text.extend_from_slice(b" \"")?;
    append_sub(text, sub.as_bytes())?;
    text.extend_from_slice(b"\"]\n")
}

fn append_sub(text: &mut Vec<u8>, sub: &[u8]) -> Result<(), AllocError>
    ensures { OnOk result (text.new.items ≡ text.old.items ++ sub_escaped sub.now) }
{
    for byte in sub {
        append_sub_byte(text, *byte)?;
    }
    Ok(())
}

fn append_sub_byte(text: &mut Vec<u8>, byte: u8) -> Result<(), AllocError>
    ensures { OnOk result (text.new.items ≡ text.old.items ++ sub_byte byte) }
{
    match byte {
        b'"' | b'\\' => text.extend_from_slice(&[b'\\', byte]),
        _ => text.extend_from_slice(&[byte]),
    }
}

fn append_entries(text: &mut Vec<u8>, entries: &[Entry]) -> Result<(), AllocError>
    ensures { OnOk result (text.new.items
        ≡ text.old.items ++ flat_map printed_entry (map pair_of entries.now)) }
{
    for entry in entries {
        append_entry(text, entry.key.as_str(), entry.value.as_str())?;
    }
    Ok(())
}

#[tactic(auto, unfolding(crate::specs::Sections::printed_entry))]
pub fn append_entry(text: &mut Vec<u8>, key: &str, value: &str) -> Result<(), AllocError>
    ensures { OnOk result (text.new.items ≡ text.old.items ++ printed_entry (key.now, value.now)) }
{
    text.extend_from_slice(b"\t")?;
    text.extend_from_slice(key.as_bytes())?;
    text.extend_from_slice(b" = ")?;
    append_value(text, value.as_bytes())?;
    text.extend_from_slice(b"\n")
}
