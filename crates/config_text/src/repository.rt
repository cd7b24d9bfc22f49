// `.dlrepo/config`: what a repository knows of itself, of its user and of its remotes.
ghost use Rattle.std.specs.Prelude.{◌≡◌, ◌++◌, map, option_map, IfOk, OnOk, MatchResult};
ghost use Rattle.std.specs.List.{flat_map};
ghost use Rattle.config_text.specs.Sections.{printed_entry, printed, plain};
ghost use Rattle.config_text.specs.Reading.{Gives};
ghost use Rattle.config_text.specs.Repository.{uuid_entry};
ghost use Rattle.config_text.specs.declared.errors.ConfErr.TheVariants.{NoMemory};

use crate::errors::ConfErr;
use crate::reading::read;
use crate::sections::{Section, append_entry, append_heading, append_heading_of, append_sections};
use crate::settings::{keep_others, numcopies, own_uuid, person, remotes};
use itoa::Buffer;
use places::{Place, Text};
use std::alloc::{AllocError, Global};
use uuid::Uuid;

/// Another repository of the dataset.
#[derive(Debug, Drop)]
pub struct Remote {
    pub name: Text,
    pub url: Place,
    pub uuid: Uuid,
}

/// The configuration of a repository; `rest` are the sections that the program doesn't read.
#[derive(Debug, Drop)]
pub struct RepoConfig {
    pub uuid: Uuid,
    pub numcopies: u64,
    pub name: Text,
    pub email: Text,
    pub remotes: Vec<Remote>,
    pub rest: Vec<Section>,
}

impl Remote {
    ghost use Rattle.config_text.specs.Repository.{remote_text};

    fn append_to(&self, text: &mut Vec<u8>) -> Result<(), AllocError>
        ensures { OnOk result (text.new.items ≡ text.old.items ++ remote_text self.now) }
    {
        append_heading_of(text, "remote", self.name.as_str())?;
        append_entry(text, "url", self.url.as_str())?;
        append_uuid(text, &self.uuid)
    }
}

impl RepoConfig {
    ghost use Rattle.config_text.specs.Repository.{plain_config, config_of, config_in, annex_text, user_text};
    ghost use Rattle.config_text.specs.Repository.{remote_text, repo_printed};

    /// The configuration in a `.dlrepo/config`. A value that is missing or malformed is bad at line 0.
    #[tactic(auto, unfolding(crate::specs::Repository::config_in))]
    pub fn read(alloc: Global, bytes: &[u8]) -> Result<RepoConfig, ConfErr>
        ensures { Gives plain_config (config_in bytes.now) result }
    {
        let sections = read(alloc, bytes)?;
        match RepoConfig::from_sections(alloc, sections)? {
            Some(config) => Ok(config),
            None => Err(ConfErr::BadLine { line: 0 }),
        }
    }

    #[tactic(auto, unfolding(crate::specs::Repository::config_of))]
    fn from_sections(
        alloc: Global,
        mut sections: Vec<Section>,
    ) -> Result<Option<RepoConfig>, AllocError>
        ensures { IfOk result (λ found.
            option_map plain_config found ≡ config_of (map plain sections.items)) }
    {
        let Some(uuid) = own_uuid(sections.as_slice()) else {
            return Ok(None);
        };
        let Some(numcopies) = numcopies(sections.as_slice()) else {
            return Ok(None);
        };
        let Some(name) = person(alloc, sections.as_slice(), "name", "DataLad User")? else {
            return Ok(None);
        };
        let Some(email) = person(alloc, sections.as_slice(), "email", "user@localhost")? else {
            return Ok(None);
        };
        let Some(remotes) = remotes(alloc, sections.as_slice())? else {
            return Ok(None);
        };
        keep_others(&mut sections);
        let rest = sections;
        Ok(Some(RepoConfig {
            uuid,
            numcopies,
            name,
            email,
            remotes,
            rest,
        }))
    }

    /// The text of `.dlrepo/config`.
    pub fn print(&self, alloc: Global) -> Result<Vec<u8>, ConfErr>
        ensures { MatchResult result (λ text. text.items ≡ repo_printed self.now)
            (λ e. e ≡ NoMemory) }
    {
        let mut text = Vec::new(alloc);
        self.append_annex(&mut text)?;
        self.append_user(&mut text)?;
        self.append_remotes(&mut text)?;
        append_sections(&mut text, self.rest.as_slice())?;
        Ok(text)
    }

    fn append_annex(&self, text: &mut Vec<u8>) -> Result<(), AllocError>
        ensures { OnOk result (text.new.items
            ≡ text.old.items ++ annex_text self.now.uuid self.now.numcopies) }
    {
        let mut buffer = Buffer::new();
        append_heading(text, "annex")?;
        append_uuid(text, &self.uuid)?;
        append_entry(text, "numcopies", buffer.format(self.numcopies))
    }

    fn append_user(&self, text: &mut Vec<u8>) -> Result<(), AllocError>
        ensures { OnOk result (text.new.items
            ≡ text.old.items ++ user_text self.now.name self.now.email) }
    {
        append_heading(text, "user")?;
        append_entry(text, "name", self.name.as_str())?;
        append_entry(text, "email", self.email.as_str())
    }

    fn append_remotes(&self, text: &mut Vec<u8>) -> Result<(), AllocError>
        ensures { OnOk result (text.new.items
            ≡ text.old.items ++ flat_map remote_text self.now.remotes.items) }
    {
        for remote in &self.remotes {
            remote.append_to(text)?;
        }
        Ok(())
    }
}

fn append_uuid(text: &mut Vec<u8>, uuid: &Uuid) -> Result<(), AllocError>
    ensures { OnOk result (text.new.items ≡ text.old.items ++ printed_entry (uuid_entry uuid.now)) }
{
    let mut buffer = [0u8; 36];
    append_entry(text, "uuid", uuid.hyphenated().encode_lower(&mut buffer))
}
