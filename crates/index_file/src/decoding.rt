// Reading an index.
ghost use Rattle.std.specs.Prelude.{MatchResult};
ghost use Rattle.index_file.specs.Index.{IsIndexText};
ghost use Rattle.index_file.specs.Reads.{RefusesIndex};
ghost use Rattle.index_file.specs.Steps.{RefusesBody, StopsBy};
ghost use Rattle.index_file.specs.Stops.{StopsInBody};

use crate::entries::IndexEntry;
use crate::errors::{IndexErr, Stop};
use crate::reading::read_body;
use sha1::Sha1;
use std::alloc::Global;

// Why a body that stops is refused.
fn refusal(body: &[u8], stop: Stop) -> IndexErr
    requires { StopsBy (StopsInBody body.now) stop }
    ensures { RefusesBody body.now result }
{
    match stop {
        Stop::Left(left) => IndexErr::BadIndex {
            at: (body.len() - left) as u64,
        },
        Stop::NoMemory => IndexErr::NoMemory,
    }
}

/// The list whose index these bytes are. Numbers that say nothing of an entry, the highest bit of
/// its flags and extensions that begin with a capital letter are passed over.
pub fn decode(alloc: Global, bytes: &[u8]) -> Result<Vec<IndexEntry>, IndexErr>
    ensures { MatchResult result (λ list. IsIndexText bytes.now list.items)
        (RefusesIndex bytes.now) }
{
    let (body, sum) = bytes.split_at(bytes.len().saturating_sub(20));
    let list = match read_body(alloc, body) {
        Ok(list) => list,
        Err(stop) => return Err(refusal(body, stop)),
    };
    let at = body.len() as u64;
    if sum != Sha1::digest(body).as_slice() {
        return Err(IndexErr::BadIndex { at });
    }
    Ok(list)
}
