// The values of a repository's configuration, and the remotes.
ghost use Rattle.std.specs.Prelude.{◌≡◌, ◌++◌, true, false, map, None, MatchOption, option_copied, option_map};
ghost use Rattle.std.specs.Prelude.{option_and_then, IfOk, codes};
ghost use Rattle.std.specs.List.{filter, list_all};
ghost use Rattle.std.specs.Char.{is_ascii_digit};
ghost use Rattle.config_text.specs.Sections.{plain};
ghost use Rattle.config_text.specs.Values.{Adds};
ghost use Rattle.config_text.specs.Lookups.{value_alone, uuid_of};
ghost use Rattle.config_text.specs.Repository.{is_other};
ghost use Rattle.config_text.specs.Settings.{is_number, is_count, copies_of, given_copies, is_personal_byte};
ghost use Rattle.config_text.specs.Settings.{is_personal, given_person, is_remote_byte, is_remote_name, place_of};
ghost use Rattle.config_text.specs.Settings.{remote_of, remotes_in, remotes_of};

use crate::datasets::{copied, read_uuid};
use crate::repository::Remote;
use crate::sections::Section;
use places::{Place, PlaceErr, Text};
use std::alloc::{AllocError, Global};
use uuid::Uuid;

// The value of a key in the sections `[NAME]`.
fn value_alone<'a>(list: &'a [Section], name: &str, key: &str) -> Option<&'a str>
    ensures { option_copied result ≡ value_alone name.now key.now (map plain list.now) }
{
    let mut found = None;
    for section in list {
        if section.is_alone(name) {
            if let Some(value) = section.value(key) {
                found = Some(value);
            }
        }
    }
    found
}

/// The UUID of the repository.
pub fn own_uuid(list: &[Section]) -> Option<Uuid>
    ensures { result
        ≡ option_and_then uuid_of (value_alone (codes "annex") (codes "uuid") (map plain list.now)) }
{
    read_uuid(value_alone(list, "annex", "uuid")?)
}

fn are_digits(text: &[u8]) -> bool
    ensures { result ≡ list_all is_ascii_digit text.now }
{
    text.iter().all(|byte| byte.is_ascii_digit())
}

#[tactic(auto, unfolding(crate::specs::Settings::is_number))]
fn is_number(text: &[u8]) -> bool
    ensures { result ≡ is_number text.now }
{
    if text.is_empty() || !are_digits(text) {
        return false;
    }
    text.len() == 1 || text[0] != b'0'
}

fn is_count(copies: u64) -> bool
    ensures { result ≡ is_count copies }
{
    0 < copies && copies <= 1000
}

fn read_copies(text: &str) -> Option<u64>
    ensures { result ≡ copies_of text.now }
{
    if !is_number(text.as_bytes()) {
        return None;
    }
    let Ok(copies) = text.parse::<u64>() else {
        return None;
    };
    if !is_count(copies) {
        return None;
    }
    Some(copies)
}

/// The number of copies that are kept.
#[tactic(auto, unfolding(crate::specs::Settings::given_copies))]
pub fn numcopies(list: &[Section]) -> Option<u64>
    ensures { result
        ≡ given_copies (value_alone (codes "annex") (codes "numcopies") (map plain list.now)) }
{
    match value_alone(list, "annex", "numcopies") {
        Some(text) => read_copies(text),
        None => Some(1),
    }
}

#[tactic(auto, unfolding(crate::specs::Settings::is_personal_byte))]
fn is_personal_byte(byte: u8) -> bool
    ensures { result ≡ is_personal_byte byte }
{
    !byte.is_ascii_control() && !matches!(byte, b'<' | b'>')
}

fn are_personal_bytes(text: &[u8]) -> bool
    ensures { result ≡ list_all is_personal_byte text.now }
{
    text.iter().all(|byte| is_personal_byte(*byte))
}

#[tactic(auto, unfolding(crate::specs::Settings::is_personal))]
fn is_personal(text: &[u8]) -> bool
    ensures { result ≡ is_personal text.now }
{
    !text.is_empty() && text.len() <= 100 && are_personal_bytes(text)
}

/// The user's name or address; another where none is given.
#[tactic(auto, unfolding(crate::specs::Settings::given_person))]
pub fn person(
    alloc: Global,
    list: &[Section],
    key: &str,
    other: &str,
) -> Result<Option<Text>, AllocError>
    ensures { IfOk result (λ found. found
        ≡ given_person other.now (value_alone (codes "user") key.now (map plain list.now))) }
{
    let Some(text) = value_alone(list, "user", key) else {
        return Ok(Some(copied(alloc, other)?));
    };
    if !is_personal(text.as_bytes()) {
        return Ok(None);
    }
    Ok(Some(copied(alloc, text)?))
}

#[tactic(auto, unfolding(crate::specs::Settings::is_remote_byte))]
fn is_remote_byte(byte: u8) -> bool
    ensures { result ≡ is_remote_byte byte }
{
    byte.is_ascii_alphanumeric() || matches!(byte, b'-' | b'_')
}

fn are_remote_bytes(name: &[u8]) -> bool
    ensures { result ≡ list_all is_remote_byte name.now }
{
    name.iter().all(|byte| is_remote_byte(*byte))
}

#[tactic(auto, unfolding(crate::specs::Settings::is_remote_name))]
fn is_remote_name(name: &[u8]) -> bool
    ensures { result ≡ is_remote_name name.now }
{
    !name.is_empty() && name.len() <= 64 && are_remote_bytes(name)
}

fn read_place(alloc: Global, text: &str) -> Result<Option<Place>, AllocError>
    ensures { IfOk result (λ found. found ≡ place_of text.now) }
{
    match Place::parse(alloc, text) {
        Ok(place) => Ok(Some(place)),
        Err(PlaceErr::Bad) => Ok(None),
        Err(PlaceErr::NoMemory) => Err(AllocError),
    }
}

#[tactic(auto, unfolding(crate::specs::Settings::remote_of))]
fn read_remote(alloc: Global, name: &str, section: &Section) -> Result<Option<Remote>, AllocError>
    ensures { IfOk result (λ found. found ≡ remote_of name.now section.now.entries.items) }
{
    if !is_remote_name(name.as_bytes()) {
        return Ok(None);
    }
    let Some(url) = section.value("url") else {
        return Ok(None);
    };
    let Some(url) = read_place(alloc, url)? else {
        return Ok(None);
    };
    let Some(uuid) = section.value("uuid") else {
        return Ok(None);
    };
    let Some(uuid) = read_uuid(uuid) else {
        return Ok(None);
    };
    let name = copied(alloc, name)?;
    Ok(Some(Remote { name, url, uuid }))
}

// Adds the remote of a section that is for one; false where it is no remote.
#[tactic(auto, unfolding(crate::specs::Settings::remotes_in))]
fn add_remote(
    alloc: Global,
    remotes: &mut Vec<Remote>,
    section: &Section,
) -> Result<bool, AllocError>
    ensures { IfOk result (Adds (remotes_in (plain section.now)) remotes.old.items remotes.new.items) }
{
    let Some(name) = section.sub_under("remote") else {
        return Ok(true);
    };
    let Some(remote) = read_remote(alloc, name, section)? else {
        return Ok(false);
    };
    remotes.push(remote)?;
    Ok(true)
}

/// The remotes, in order; None where a section is no remote.
pub fn remotes(alloc: Global, list: &[Section]) -> Result<Option<Vec<Remote>>, AllocError>
    ensures { IfOk result (λ found.
        option_map (λ v. v.items) found ≡ remotes_of (map plain list.now)) }
{
    let mut remotes = Vec::new(alloc);
    for section in list {
        if !add_remote(alloc, &mut remotes, section)? {
            return Ok(None);
        }
    }
    Ok(Some(remotes))
}

#[tactic(auto, unfolding(crate::specs::Repository::is_other))]
fn is_other(section: &Section) -> bool
    ensures { result ≡ is_other (plain section.now) }
{
    !section.is_alone("annex") && !section.is_alone("user") && section.sub_under("remote").is_none()
}

/// Keeps the sections that the program doesn't read.
pub fn keep_others(sections: &mut Vec<Section>)
    ensures { map plain sections.new.items ≡ filter is_other (map plain sections.old.items) }
{
    sections.retain(|section| is_other(section));
}
