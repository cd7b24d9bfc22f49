//! What a repository is: where its files stand, which of them are unfinished writes, what it holds, and its limits.
#![tactic(auto)]

mod held;
mod layout;
mod limits;

pub use held::held_agrees;
pub use layout::{
    config_place, head_place, index_place, main_place, object_place, repo_place, repo_place_text,
    settings_place, tmp_place,
};
pub use limits::{
    ITEM_LIMIT, OBJECT_BODY_LIMIT, OBJECT_FILE_LIMIT, OBJECT_LIMIT, PLACE_LIMIT, REPO_LIMIT,
    repo_too_large, too_large,
};
