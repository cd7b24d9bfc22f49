//! The working files of a dataset, all that lies below its root but for its repository and git's; and
//! its status, what has changed in them since HEAD's commit.
#![tactic(auto)]

mod changes;
mod found;
mod keeping;
mod keeping_files;
mod laws;
mod planning;
mod states;
mod stating;
mod viewing;
mod visiting;
mod walking;

pub use changes::{added_files, changes_of, deleted_entries, is_changed, is_other, new_snapshot};
pub use found::WorkingFile;
pub use keeping::Keeping;
pub use keeping_files::keep_files;
pub use laws::{
    clean_is_unchanged, kept_files_are_one, no_other_is_same, status_is_complete, status_is_one,
};
pub use states::{Change, State};
pub use stating::status;
pub use viewing::{View, read_view, repo};
pub use walking::working_files;
