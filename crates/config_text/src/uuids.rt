// UUIDs that are made of random bytes and a place.
ghost use Rattle.std.specs.Prelude.{◌≡◌, MatchResult};
ghost use Rattle.config_text.specs.Uuids.{made};
ghost use Rattle.config_text.specs.declared.errors.ConfErr.TheVariants.{NoMemory};

use crate::errors::ConfErr;
use places::Place;
use std::alloc::Global;
use uuid::{Builder, Uuid};

/// What a UUID stands for.
#[derive(Clone, Copy, Debug, PartialEq, Eq)]
pub enum Role {
    Dataset,
    Repository,
}

impl Role {
    ghost use Rattle.config_text.specs.Uuids.{role_text};

    fn prefix(self) -> &'static str
        ensures { result.now ≡ role_text self }
    {
        match self {
            Role::Dataset => "dataset:",
            Role::Repository => "repository:",
        }
    }
}

/// The UUID of a place in a role. One draw of random bytes serves both roles.
#[tactic(auto, unfolding(crate::specs::Uuids::made))]
pub fn made_uuid(
    alloc: Global,
    fresh: &[u8; 16],
    role: Role,
    place: &Place,
) -> Result<Uuid, ConfErr>
    ensures { MatchResult result (λ uuid. uuid ≡ made fresh.now role place.now)
        (λ e. e ≡ NoMemory) }
{
    let namespace = Builder::from_random_bytes(*fresh).into_uuid();
    let mut name = Vec::from_slice(alloc, role.prefix().as_bytes())?;
    name.extend_from_slice(place.as_str().as_bytes())?;
    Ok(Uuid::new_v5(&namespace, name.as_slice()))
}
