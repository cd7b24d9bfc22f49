//! Configuration texts as git writes them, `.dlrepo/config`, and the UUIDs of a new dataset.
#![tactic(auto)]

mod datasets;
mod errors;
mod laws;
mod lines;
mod reading;
mod repository;
mod sections;
mod settings;
mod uuids;
mod values;

pub use datasets::{Submodule, dataset_id, submodules};
pub use errors::ConfErr;
pub use laws::{config_is_read, printed_is_read};
pub use reading::read;
pub use repository::{Remote, RepoConfig};
pub use sections::{Entry, Section, append_section, print};
pub use uuids::{Role, made_uuid};
