// What a dataset's configurations say: its id, and its subdatasets.
ghost use Rattle.std.specs.Prelude.{◌≡◌, map, IfOk, MatchResult};
ghost use Rattle.config_text.specs.Sections.{plain};
ghost use Rattle.config_text.specs.Lookups.{last_found, uuid_of, entry_id, is_dataset, section_id, dataset_id_of};
ghost use Rattle.config_text.specs.Lookups.{submodule_of, submodules_of};
ghost use Rattle.config_text.specs.declared.errors.ConfErr.TheVariants.{NoMemory};

use crate::errors::ConfErr;
use crate::sections::{Entry, Section};
use places::Text;
use std::alloc::{AllocError, Global};
use uuid::Uuid;

/// A subdataset that is registered in `.gitmodules`.
#[derive(Debug, Drop)]
pub struct Submodule {
    pub name: Text,
    pub path: Text,
    pub url: Option<Text>,
}

#[tactic(auto, unfolding(crate::specs::Lookups::uuid_of))]
pub fn read_uuid(text: &str) -> Option<Uuid>
    ensures { result ≡ uuid_of text.now }
{
    if text.len() != 36 {
        return None;
    }
    Uuid::parse_str(text).ok()
}

#[tactic(auto, unfolding(crate::specs::Lookups::entry_id))]
fn entry_id(entry: &Entry) -> Option<Uuid>
    ensures { result ≡ entry_id entry.now }
{
    if entry.key.as_str() != "id" {
        return None;
    }
    read_uuid(entry.value.as_str())
}

fn last_id(entries: &[Entry]) -> Option<Uuid>
    ensures { result ≡ last_found entry_id entries.now }
{
    let mut found = None;
    for entry in entries {
        if let Some(id) = entry_id(entry) {
            found = Some(id);
        }
    }
    found
}

#[tactic(auto, unfolding(crate::specs::Lookups::is_dataset))]
fn is_dataset(section: &Section) -> bool
    ensures { result ≡ is_dataset (plain section.now) }
{
    match section.sub_under("datalad") {
        Some(sub) => sub == "dataset",
        None => false,
    }
}

fn section_id(section: &Section) -> Option<Uuid>
    ensures { result ≡ section_id (plain section.now) }
{
    if !is_dataset(section) {
        return None;
    }
    last_id(section.entries.as_slice())
}

/// The id of the dataset: the last `id` of `[datalad "dataset"]` that is a UUID.
pub fn dataset_id(list: &[Section]) -> Option<Uuid>
    ensures { result ≡ dataset_id_of (map plain list.now) }
{
    let mut found = None;
    for section in list {
        if let Some(id) = section_id(section) {
            found = Some(id);
        }
    }
    found
}

pub fn copied(alloc: Global, text: &str) -> Result<Text, AllocError>
    ensures { IfOk result (λ t. t ≡ text.now) }
{
    Ok(Text::new(String::from_str(alloc, text)?))
}

#[tactic(auto, unfolding(crate::specs::Lookups::submodule_of))]
fn read_submodule(alloc: Global, section: &Section) -> Result<Option<Submodule>, AllocError>
    ensures { IfOk result (λ found. found ≡ submodule_of (plain section.now)) }
{
    let Some(name) = section.sub_under("submodule") else {
        return Ok(None);
    };
    let Some(path) = section.value("path") else {
        return Ok(None);
    };
    let name = copied(alloc, name)?;
    let path = copied(alloc, path)?;
    let url = match section.value("url") {
        Some(url) => Some(copied(alloc, url)?),
        None => None,
    };
    Ok(Some(Submodule { name, path, url }))
}

fn submodules_of(alloc: Global, list: &[Section]) -> Result<Vec<Submodule>, AllocError>
    ensures { IfOk result (λ found. found.items ≡ submodules_of (map plain list.now)) }
{
    let mut found = Vec::new(alloc);
    for section in list {
        if let Some(submodule) = read_submodule(alloc, section)? {
            found.push(submodule)?;
        }
    }
    Ok(found)
}

/// The subdatasets that are registered: each section `[submodule "NAME"]` with a path.
pub fn submodules(alloc: Global, list: &[Section]) -> Result<Vec<Submodule>, ConfErr>
    ensures { MatchResult result (λ found. found.items ≡ submodules_of (map plain list.now))
        (λ e. e ≡ NoMemory) }
{
    Ok(submodules_of(alloc, list)?)
}
