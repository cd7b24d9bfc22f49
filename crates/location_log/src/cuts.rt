// Texts that are cut at a byte.
ghost use Rattle.std.specs.Prelude.{◌≡◌, ◌∷◌, length, MatchOption, option_map};
ghost use Rattle.location_log.specs.Steps.{IsCut, IsFirstAt, Lacks, NotBelow, lines_left};
ghost use Rattle.location_log.specs.Texts.{lines_of};

fn first_place(text: &[u8], byte: u8) -> Option<usize>
    ensures { MatchOption result (NotBelow byte text.now (length text.now))
        (IsFirstAt byte text.now) }
{
    text.iter().position(|b| *b == byte)
}

// What stands before the first such byte, and what after it.
pub(crate) fn cut_at(text: &[u8], byte: u8) -> Option<(&[u8], &[u8])>
    ensures { MatchOption result (Lacks byte text.now)
        (λ parts. IsCut byte text.now parts.0.now parts.1.now) }
{
    let Some(place) = first_place(text, byte) else {
        return None;
    };
    Some((&text[..place], &text[place + 1..]))
}

// The first line, and what follows its newline; nothing where it has none.
pub(crate) fn first_line(text: &[u8]) -> (&[u8], Option<&[u8]>)
    ensures { lines_of text.now
        ≡ result.0.now ∷ lines_left (option_map (λ rest. rest.now) result.1) }
{
    match cut_at(text, b'\n') {
        Some((line, rest)) => (line, Some(rest)),
        None => (text, None),
    }
}
