// What a save is asked for.

use file_store::Bytes;

/// The message of a commit, which ends in a newline; whether git keeps new files, and not only those that are for git by
/// their names; and the moment of the save in seconds since 1970.
#[derive(Debug, Drop)]
pub struct SaveWish {
    pub message: Bytes,
    pub to_git: bool,
    pub moment: u64,
}
