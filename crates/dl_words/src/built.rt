// Which commands and options are built.
ghost use Rattle.std.specs.Prelude.{◌≡◌};
ghost use Rattle.dl_words.specs.Built.{is_built};

use crate::words::Words;

/// Whether what the words ask for is built: the one table of what is.
pub fn is_built(words: &Words) -> bool
    ensures { result ≡ is_built words.now }
{
    match words {
        Words::Create { dataset, .. } => dataset.is_none(),
        Words::Save {
            recursive,
            paths,
            ..
        } => !*recursive && paths.as_slice().is_empty(),
        Words::Status { recursive, .. } => !*recursive,
        Words::Log { .. } | Words::Help | Words::Version => true,
        _ => false,
    }
}
