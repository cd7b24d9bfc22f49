// Texts of ASCII bytes.
ghost use Rattle.std.specs.Prelude.{◌≡◌, IfOk, IsAscii};

use places::Text;
use std::alloc::{AllocError, Global};

// The text of these bytes.
pub(crate) fn text_of(bytes: Vec<u8>) -> Text
    requires { IsAscii bytes.items }
    ensures { result ≡ bytes.items }
{
    Text::new(String::from_utf8(bytes).unwrap())
}

// A text with these bytes.
pub(crate) fn copied(alloc: Global, bytes: &[u8]) -> Result<Text, AllocError>
    requires { IsAscii bytes.now }
    ensures { IfOk result (λ text. text ≡ bytes.now) }
{
    let bytes = Vec::from_slice(alloc, bytes)?;
    Ok(text_of(bytes))
}
