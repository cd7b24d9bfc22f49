// The names of a path that say whether git keeps a new file.
ghost use Rattle.std.specs.Prelude.{◌≡◌};
ghost use Rattle.kept_files.specs.Paths.{first_name, goes_to_git, last_name};

// The name before the first slash.
fn first_name(path: &str) -> &str
    ensures { result.now ≡ first_name path.now }
{
    match path.split_once('/') {
        Some((name, _)) => name,
        None => path,
    }
}

// The name behind the last slash.
pub(crate) fn last_name(path: &str) -> &str
    ensures { result.now ≡ last_name path.now }
{
    match path.rsplit_once('/') {
        Some((_, name)) => name,
        None => path,
    }
}

// Whether git keeps a new file with this path.
pub(crate) fn goes_to_git(path: &str, to_git: bool) -> bool
    ensures { result ≡ goes_to_git path.now to_git }
{
    if to_git {
        return true;
    }
    if first_name(path) == ".datalad" {
        return true;
    }
    last_name(path).as_bytes().starts_with(b".git")
}
