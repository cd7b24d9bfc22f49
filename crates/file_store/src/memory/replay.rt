// The calls of a disk made again, for what no call keeps: what is safe and what is torn.
ghost use Rattle.std.specs.Prelude.{◌≡◌, IfOk};
ghost use Rattle.file_store.specs.Memory.Calls.{history_of};
ghost use Rattle.file_store.specs.Memory.Moment.{disk_of};

use crate::memory::contents::Contents;
use crate::memory::disk::Call;
use crate::memory::moment::Moment;
use std::alloc::{AllocError, Global};

/// The moment after these calls.
pub(crate) fn replayed(
    alloc: Global,
    first: &Contents,
    calls: &[Call],
) -> Result<Moment, AllocError>
    ensures { IfOk result (λ moment. disk_of moment ≡ (history_of first.now calls.now).latest) }
{
    let mut moment = Moment::at_rest(alloc, first)?;
    for call in calls {
        moment.make(alloc, call)?;
    }
    Ok(moment)
}
