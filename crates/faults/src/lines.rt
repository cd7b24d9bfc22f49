// The result lines of commands.
ghost use Rattle.std.specs.Prelude.{◌≡◌, string_bytes, MatchResult};
ghost use Rattle.places.specs.declared.place.PlaceErr.TheVariants.{NoMemory};

use places::{PlaceErr, Text};
use std::alloc::Global;

/// One result line, by its parts.
#[derive(Debug, Drop)]
pub struct Line {
    pub action: Text,
    pub status: Text,
    pub path: Text,
    pub kind: Text,
}

impl Line {
    ghost use Rattle.faults.specs.Lines.{line_text};

    /// `ACTION(STATUS): PATH (KIND)` and a newline.
    pub fn text(&self, alloc: Global) -> Result<String, PlaceErr>
        ensures { MatchResult result (λ text. string_bytes text ≡ line_text self.now) (λ e. e ≡ NoMemory) }
    {
        let action = self.action.as_str();
        let status = self.status.as_str();
        let path = self.path.as_str();
        let kind = self.kind.as_str();
        let text = format!(in alloc; "{action}({status}): {path} ({kind})\n")?;
        Ok(text)
    }
}
