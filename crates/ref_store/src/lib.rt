//! The refs of a repository: HEAD, the branch that it names or its own commit, and the tip to which it leads.
#![tactic(auto)]

mod bases;
mod forms;
mod heads;
mod laws;
mod layout;
mod listing;
mod making;
mod names;
mod reading;
mod resolving;
mod revision_words;
mod setting;

pub use heads::Head;
pub use laws::{reads_agree, resolves_once, set_head_sets, set_tip_keeps, set_tip_sets};
pub use listing::branches;
pub use making::make_branch;
pub use names::is_branch;
pub use reading::{read_head, tip};
pub use resolving::resolve;
pub use setting::{set_head, set_tip};
