// Ids, by which objects are named.
ghost use Rattle.std.specs.Prelude.{◌≡◌, ◌++◌, length, MatchOption, OnOk};
ghost use Rattle.git_objects.specs.Ids.{hex_of, lowered, IsDigits, IsId};

use hex::FromHex;
use std::alloc::AllocError;

#[derive(Clone, Copy, Debug, PartialEq, Eq, PartialOrd, Ord)]
pub struct Id(pub [u8; 20]);

impl Id {
    /// The id with these 40 hexadecimal digits, of either case.
    pub fn from_hex(text: &[u8]) -> Option<Id>
        ensures { MatchOption result (¬ (IsDigits text.now))
            (λ id. IsDigits text.now × (hex_of id.0 ≡ lowered text.now)) }
    {
        match <[u8; 20] as FromHex>::from_hex(text) {
            Ok(bytes) => Some(Id(bytes)),
            Err(_) => None,
        }
    }

    /// The id in lower-case hexadecimal digits.
    pub fn to_hex(&self) -> [u8; 40]
        ensures { result ≡ hex_of self.now.0 }
    {
        let mut digits = [0u8; 40];
        hex::encode_to_slice(&self.0, &mut digits).unwrap();
        digits
    }

    pub(crate) fn append_to(&self, body: &mut Vec<u8>) -> Result<(), AllocError>
        ensures text { OnOk result (body.new.items ≡ body.old.items ++ hex_of self.now.0) }
        ensures stored { OnOk result (IsId self.now.0) }
    {
        append_hex(body, self.0.as_slice())
    }
}

fn append_hex(body: &mut Vec<u8>, id: &[u8]) -> Result<(), AllocError>
    requires { length id.now ≡ 20 }
    ensures text { OnOk result (body.new.items ≡ body.old.items ++ hex_of id.now) }
    ensures stored { OnOk result (IsId id.now) }
{
    let mut digits = [0u8; 40];
    hex::encode_to_slice(id, &mut digits).unwrap();
    body.extend_from_slice(&digits)?;
    Ok(())
}
