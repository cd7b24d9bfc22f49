// An absolute place, which keeps its text and is seen as its names.
ghost use Rattle.std.specs.Prelude.{◌≡◌, ◌↔◌, ◌==◌, ◌⊎◌, ◌≤◌, ◌<◌, ◌+◌, ◌++◌, ◌∷◌, [], map, List, ℕ, length};
ghost use Rattle.std.specs.Prelude.{string_bytes, IfOk, IsTrue, false, MatchOption, MatchResult};
ghost use Rattle.std.specs.List.{list_any};
ghost use Rattle.places.specs.Names.{IsName, IsPlace, IsText, names_of, text_of, slashed, slash, joined, pieces};
ghost use Rattle.places.specs.Names.{is_path, longest, IsAbove, IsAtOrAbove, is_above, IsPathBelow, target, has_name};
ghost use Rattle.places.specs.declared.place.PlaceErr.TheVariants.{Bad, NoMemory};
ghost use Rattle.std.proofs.Common.{rules};
ghost use Rattle.std.specs.Cmp.{partial_order_from_own_ties, partial_order_from_total};
ghost use Rattle.std.specs.Cmp.Rules.{comparing};
ghost use Rattle.std.specs.Ordering.{as_partial_cmp};
ghost use Rattle.places.specs.Order.{place_cmp, place_eq};
ghost use Rattle.places.specs.Ordered.{place_cmp_total, place_eq-cmp};

use crate::names::is_text;
use crate::words::{are_names, parts, spelled, started, walked, without_slash};
use std::alloc::{AllocError, Global};
use std::cmp::Ordering;
use std::marker::Model;
use thiserror::Error;

#[derive(Debug, Drop)]
pub struct Place {
    text: String,
}

impl Model for Place {
    ghost use Rattle.std.specs.Prelude.{string_bytes};
    ghost use Rattle.places.specs.Names.{Names, names_of, IsStored};

    ghost Value = { Names };

    ghost view = { λ p. names_of (string_bytes p.text) };

    ghost invariant = { λ p. IsStored (string_bytes p.text) };
}

/// Why a text or a word gives no place.
#[derive(Clone, Copy, Debug, PartialEq, Eq, Error)]
pub enum PlaceErr {
    #[error("not a place")]
    Bad,
    #[error("no memory")]
    NoMemory,
}

impl From<AllocError> for PlaceErr {
    ghost from_gives = { λ _ e. e ≡ NoMemory };

    fn from(_: AllocError) -> Self {
        PlaceErr::NoMemory
    }
}

impl PartialEq for Place {
    ghost eq = { place_eq };

    ghost laws = { Prim.search (comparing, rules) };

    fn eq(&self, other: &Place) -> bool {
        self.as_str() == other.as_str()
    }
}

impl Eq for Place {
    ghost laws = { Prim.search (comparing, rules) };
}

/// Byte order of the texts.
impl Ord for Place {
    ghost cmp = { place_cmp };

    ghost total = { place_cmp_total };

    ghost matches_partial_cmp = { Prim.search (comparing, rules) };

    ghost matches_eq = { place_eq-cmp };

    fn cmp(&self, other: &Place) -> Ordering {
        self.as_str().cmp(other.as_str())
    }
}

impl PartialOrd for Place {
    ghost partial_cmp = { as_partial_cmp place_cmp };

    ghost laws = { partial_order_from_own_ties (partial_order_from_total place_cmp_total) place_eq-cmp };

    fn partial_cmp(&self, other: &Place) -> Option<Ordering> {
        Some(self.cmp(other))
    }
}

impl Place {
    /// `/`, or names after slashes.
    pub fn parse(alloc: Global, text: &str) -> Result<Place, PlaceErr>
        ensures ok { IfOk result (λ p. IsPlace p × (text.now ≡ text_of p)) }
        ensures bad { result ≡ Err Bad → ¬ (IsText text.now) }
    {
        if !is_text(text.as_bytes()) {
            return Err(PlaceErr::Bad);
        }
        Ok(Place {
            text: String::from_str(alloc, text)?,
        })
    }

    pub fn root(alloc: Global) -> Result<Place, AllocError>
        ensures { IfOk result (λ p. p ≡ []) }
    {
        Ok(Place {
            text: String::from_str(alloc, "/")?,
        })
    }

    pub fn as_str(&self) -> &str
        ensures text { result.now ≡ text_of self.now }
        ensures place { IsPlace self.now }
        ensures base { length (slashed self.now) ≤ length (text_of self.now) }
    {
        self.text.as_str()
    }

    /// A copy of the text.
    pub fn text(&self, alloc: Global) -> Result<String, PlaceErr>
        ensures { MatchResult result (λ t. string_bytes t ≡ text_of self.now) (λ e. e ≡ NoMemory) }
    {
        Ok(String::from_str(alloc, self.as_str())?)
    }

    pub fn try_clone(&self, alloc: Global) -> Result<Place, AllocError>
        ensures { IfOk result (λ p. p ≡ self.now) }
    {
        Ok(Place {
            text: String::from_str(alloc, self.text.as_str())?,
        })
    }

    // The text, but nothing for the root.
    fn base(&self) -> &str
        ensures text { result.now ≡ slashed self.now }
        ensures place { IsPlace self.now }
    {
        let text = self.text.as_str();
        if text.len() == 1 { "" } else { text }
    }

    /// The text of a path below this place, which may be too long for a place.
    pub fn joined(&self, alloc: Global, path: &str) -> Result<String, AllocError>
        ensures ok { IfOk result (λ t. string_bytes t ≡ joined self.now path.now) }
        ensures place { IsPlace self.now }
    {
        let mut text = String::from_str(alloc, self.base())?;
        text.push_str("/")?;
        text.push_str(path)?;
        Ok(text)
    }

    /// The place at a path below this one.
    pub fn join(&self, alloc: Global, path: &str) -> Result<Place, PlaceErr>
        ensures ok { IfOk result (λ q. IsPlace q × (q ≡ self.now ++ names_of path.now) × (text_of q ≡ joined self.now path.now)) }
        ensures bad { result ≡ Err Bad → ¬ (IsText (joined self.now path.now)) }
    {
        let text = self.joined(alloc, path)?;
        if !is_text(text.as_bytes()) {
            return Err(PlaceErr::Bad);
        }
        Ok(Place { text })
    }

    /// The same for a path that is known to be one, and short enough.
    pub fn below(&self, alloc: Global, path: &str) -> Result<Place, AllocError>
        requires path { IsTrue (is_path path.now) }
        requires fits { length (slashed self.now) + 1 + length path.now ≤ longest }
        ensures { IfOk result (λ q. q ≡ self.now ++ pieces path.now) }
    {
        Ok(Place {
            text: self.joined(alloc, path)?,
        })
    }

    // The place with these names.
    fn of_names(alloc: Global, names: &[&str]) -> Result<Place, PlaceErr>
        ensures ok { IfOk result (λ p. IsPlace p × (p ≡ map (λ n. n.now) names.now)) }
        ensures bad { result ≡ Err Bad → ¬ (IsPlace (map (λ n. n.now) names.now)) }
    {
        if !are_names(names) {
            return Err(PlaceErr::Bad);
        }
        let text = spelled(alloc, names)?;
        if text.len() > 4096 {
            return Err(PlaceErr::Bad);
        }
        Ok(Place { text })
    }

    /// Where a word leads from a place.
    pub fn from_word(alloc: Global, cwd: &Place, word: &str) -> Result<Place, PlaceErr>
        ensures ok { IfOk result (λ p. (0 < length word.now) × IsPlace p × (p ≡ target cwd.now word.now)) }
        ensures bad { result ≡ Err Bad → (0 < length word.now) → ¬ (IsPlace (target cwd.now word.now)) }
    {
        if word.is_empty() {
            return Err(PlaceErr::Bad);
        }
        let start = started(alloc, cwd.base(), word)?;
        let names = walked(start, parts(alloc, word)?.as_slice())?;
        Place::of_names(alloc, names.as_slice())
    }

    /// The place without its last name; the root has none.
    pub fn parent(&self, alloc: Global) -> Result<Option<Place>, PlaceErr>
        ensures { MatchResult result (λ r. MatchOption r (self.now ≡ []) (λ p. (n : List ℕ) × (self.now ≡ p ++ n ∷ []))) (λ e. e ≡ NoMemory) }
    {
        match before_last_slash(self.base()) {
            None => Ok(None),
            Some(front) => Ok(Some(placed(alloc, front)?)),
        }
    }

    /// The path from the root to this place, `.` for itself.
    pub fn path_below(&self, alloc: Global, root: &Place) -> Result<Option<String>, PlaceErr>
        ensures { MatchResult result (λ r. MatchOption r (¬ (IsAtOrAbove root.now self.now)) (λ path. IsPathBelow root.now self.now (string_bytes path))) (λ e. e ≡ NoMemory) }
    {
        let Some(rest) = without_front(self.base(), root.base()) else {
            return Ok(None);
        };
        if rest.is_empty() {
            return Ok(Some(String::from_str(alloc, ".")?));
        }
        let Some(path) = without_slash(rest) else {
            return Ok(None);
        };
        Ok(Some(String::from_str(alloc, path)?))
    }

    /// Whether the other place lies below this one.
    pub fn is_above(&self, other: &Place) -> bool
        ensures above { IsTrue result ↔ IsAbove self.now other.now }
        ensures test { result ≡ is_above self.now other.now }
    {
        match without_front(other.base(), self.base()) {
            None => false,
            Some(rest) => without_slash(rest).is_some(),
        }
    }

    /// Whether one of its names is this one.
    pub fn has_name(&self, name: &str) -> bool
        requires { 0 < length name.now }
        ensures { result ≡ has_name name.now self.now }
    {
        self.base().split('/').any(|part| name == part)
    }
}

// What follows another text.
fn without_front<'a>(text: &'a str, front: &str) -> Option<&'a str>
    ensures { MatchOption result ((rest : List ℕ) → text.now ≡ front.now ++ rest → ⊥) (λ x. text.now ≡ front.now ++ x.now) }
{
    text.strip_prefix(front)
}

// What stands before the last slash.
fn before_last_slash(text: &str) -> Option<&str>
    ensures { MatchOption result (list_any (λ b. b == slash) text.now ≡ false) (λ x. (n : List ℕ) × (text.now ≡ x.now ++ slash ∷ n) × (list_any (λ b. b == slash) n ≡ false)) }
{
    match text.rfind('/') {
        None => None,
        Some(at) => Some(&text[..at]),
    }
}

// The place of a text that is nothing for the root.
fn placed(alloc: Global, base: &str) -> Result<Place, AllocError>
    requires place { IsPlace (names_of base.now) }
    requires base { base.now ≡ slashed (names_of base.now) }
    ensures { IfOk result (λ p. p ≡ names_of base.now) }
{
    if base.is_empty() {
        return Place::root(alloc);
    }
    Ok(Place {
        text: String::from_str(alloc, base)?,
    })
}
