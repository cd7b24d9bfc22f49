// Which files are annexed, and how many bytes a file may have.
ghost use Rattle.std.specs.Prelude.{◌≡◌, option_copied};
ghost use Rattle.kept_files.specs.Kept.{is_annexed};
ghost use Rattle.kept_files.specs.Limits.{size_limit};

use crate::paths::goes_to_git;
use annex_keys::Key;
use git_objects::Id;

/// How many bytes a file that git keeps may have.
const GIT_FILE_LIMIT: u64 = 16_777_216;

/// How many bytes an annexed file may have.
const ANNEXED_FILE_LIMIT: u64 = 67_108_864;

// Whether a file is annexed where its bytes are new: as the old leaf is, or else by the path.
pub(crate) fn is_annexed(blob: Option<Id>, key: Option<&Key>, path: &str, to_git: bool) -> bool
    ensures { result ≡ is_annexed blob (option_copied key.entry) path.now to_git }
{
    if key.is_some() {
        return true;
    }
    if blob.is_some() {
        return false;
    }
    !goes_to_git(path, to_git)
}

/// How many bytes the file may have, which is known before it is read: 67,108,864 where it would be annexed, 16,777,216
/// where git would keep it. The arguments are those of `how_kept`.
pub fn size_limit(blob: Option<Id>, key: Option<&Key>, path: &str, to_git: bool) -> u64
    ensures { result ≡ size_limit blob (option_copied key.entry) path.now to_git }
{
    if is_annexed(blob, key, path, to_git) {
        return ANNEXED_FILE_LIMIT;
    }
    GIT_FILE_LIMIT
}
