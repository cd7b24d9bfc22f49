// The places of a dataset and of its repository.
ghost use Rattle.std.specs.Prelude.{◌≡◌, ◌≤◌, ◌++◌, length, IfOk, IsTrue, string_bytes, codes, decimal, take, drop, ◌∷◌};
ghost use Rattle.places.specs.All.{is_path, pieces, text_of};
ghost use Rattle.git_objects.specs.All.{hex_of};
ghost use Rattle.repository.specs.Layout.{repo_of, config_place, settings_place, index_place, main_place, head_place};
ghost use Rattle.repository.specs.Layout.{object_names};
ghost use Rattle.repository.specs.Layout.{object_place, tmp_place};
ghost use Rattle.repository.specs.Limits.{repo_limit, object_limit};

use git_objects::Id;
use places::Place;
use std::alloc::{AllocError, Global};

/// The text of the place of a dataset's repository, which may be too long for a place.
pub fn repo_place_text(alloc: Global, root: &Place) -> Result<String, AllocError>
    ensures { IfOk result (λ text. string_bytes text ≡ text_of (repo_of root.now)) }
{
    root.joined(alloc, ".dlrepo")
}

/// The repository of a dataset.
#[tactic(auto, unfolding(places::specs::Names::is_path, places::specs::Names::is_name))]
pub fn repo_place(alloc: Global, root: &Place) -> Result<Place, AllocError>
    requires { length (text_of (repo_of root.now)) ≤ repo_limit }
    ensures { IfOk result (λ place. place ≡ repo_of root.now) }
{
    root.below(alloc, ".dlrepo")
}

/// Where the dataset's id stands, in an ordinary file.
#[tactic(auto, unfolding(places::specs::Names::is_path, places::specs::Names::is_name))]
pub fn config_place(alloc: Global, root: &Place) -> Result<Place, AllocError>
    requires { length (text_of (repo_of root.now)) ≤ repo_limit }
    ensures { IfOk result (λ place. place ≡ config_place root.now) }
{
    root.below(alloc, ".datalad/config")
}

/// Where the repository's configuration stands.
#[tactic(auto, unfolding(places::specs::Names::is_path, places::specs::Names::is_name))]
pub fn settings_place(alloc: Global, root: &Place) -> Result<Place, AllocError>
    requires { length (text_of (repo_of root.now)) ≤ repo_limit }
    ensures { IfOk result (λ place. place ≡ settings_place root.now) }
{
    root.below(alloc, ".dlrepo/config")
}

/// Where git's index stands.
#[tactic(auto, unfolding(places::specs::Names::is_path, places::specs::Names::is_name))]
pub fn index_place(alloc: Global, root: &Place) -> Result<Place, AllocError>
    requires { length (text_of (repo_of root.now)) ≤ repo_limit }
    ensures { IfOk result (λ place. place ≡ index_place root.now) }
{
    root.below(alloc, ".dlrepo/index")
}

/// Where the branch `main` stands.
#[tactic(auto, unfolding(places::specs::Names::is_path, places::specs::Names::is_name))]
pub fn main_place(alloc: Global, root: &Place) -> Result<Place, AllocError>
    requires { length (text_of (repo_of root.now)) ≤ repo_limit }
    ensures { IfOk result (λ place. place ≡ main_place root.now) }
{
    root.below(alloc, ".dlrepo/refs/heads/main")
}

/// Where HEAD stands.
#[tactic(auto, unfolding(places::specs::Names::is_path, places::specs::Names::is_name))]
pub fn head_place(alloc: Global, root: &Place) -> Result<Place, AllocError>
    requires { length (text_of (repo_of root.now)) ≤ repo_limit }
    ensures { IfOk result (λ place. place ≡ head_place root.now) }
{
    root.below(alloc, ".dlrepo/HEAD")
}

// `objects/aa/REST`
fn object_path(alloc: Global, id: Id) -> Result<String, AllocError>
    ensures text { IfOk result (λ path. string_bytes path ≡ codes "objects/"
        ++ (take 2 (hex_of id.0) ++ 47 ∷ drop 2 (hex_of id.0))) }
    ensures names { IfOk result (λ path. pieces (string_bytes path) ≡ object_names (hex_of id.0)) }
    ensures path { IfOk result (λ path. IsTrue (is_path (string_bytes path))) }
    ensures size { IfOk result (λ path. length (string_bytes path) ≡ 49) }
{
    let digits = id.to_hex();
    let (first, rest) = digits.split_at(2);
    let mut path = Vec::from_slice(alloc, b"objects/")?;
    path.extend_from_slice(first)?;
    path.extend_from_slice(b"/")?;
    path.extend_from_slice(rest)?;
    Ok(String::from_utf8(path).unwrap())
}

/// Where the object with this id stands.
pub fn object_place(alloc: Global, repo: &Place, id: &Id) -> Result<Place, AllocError>
    requires { length (text_of repo.now) ≤ object_limit }
    ensures { IfOk result (λ place. place ≡ object_place repo.now id.now.0) }
{
    let path = object_path(alloc, *id)?;
    repo.below(alloc, path.as_str())
}

// `tmp/NUMBER`
fn tmp_path(alloc: Global, number: usize) -> Result<String, AllocError>
    ensures { IfOk result (λ path. string_bytes path ≡ codes "tmp/" ++ decimal number) }
{
    format!(in alloc; "tmp/{number}")
}

/// The temporary place with this number.
pub fn tmp_place(alloc: Global, repo: &Place, number: usize) -> Result<Place, AllocError>
    requires { length (text_of repo.now) ≤ object_limit }
    ensures { IfOk result (λ place. place ≡ tmp_place repo.now number) }
{
    let path = tmp_path(alloc, number)?;
    repo.below(alloc, path.as_str())
}
