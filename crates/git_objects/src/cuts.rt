// Cutting texts: at a byte, behind a front, before an end.
ghost use Rattle.std.specs.Prelude.{◌≡◌, ◌==◌, ◌++◌, ℕ, List, MatchOption};
ghost use Rattle.std.specs.List.{position};
ghost use Rattle.git_objects.specs.Cuts.{Lacks, IsCut};

// Where the first such byte stands.
pub(crate) fn place_of(text: &[u8], byte: u8) -> Option<usize>
    ensures { result ≡ position (λ b. b == byte) text.now }
{
    text.iter().position(|b| *b == byte)
}

// What stands before the first such byte, and what follows it.
pub(crate) fn cut_at(text: &[u8], byte: u8) -> Option<(&[u8], &[u8])>
    ensures { MatchOption result (Lacks byte text.now)
        (λ parts. IsCut byte text.now parts.0.now parts.1.now) }
{
    let Some(at) = place_of(text, byte) else {
        return None;
    };
    let (front, rest) = text.split_at(at);
    let (_, back) = rest.split_at(1);
    Some((front, back))
}

// What follows another text.
pub(crate) fn without_front<'a>(text: &'a [u8], front: &[u8]) -> Option<&'a [u8]>
    ensures { MatchOption result ((rest : List ℕ) → text.now ≡ front.now ++ rest → ⊥)
        (λ rest. text.now ≡ front.now ++ rest.now) }
{
    text.strip_prefix(front)
}

// What another text follows.
pub(crate) fn without_end<'a>(text: &'a [u8], end: &[u8]) -> Option<&'a [u8]>
    ensures { MatchOption result ((rest : List ℕ) → text.now ≡ rest ++ end.now → ⊥)
        (λ rest. text.now ≡ rest.now ++ end.now) }
{
    text.strip_suffix(end)
}
