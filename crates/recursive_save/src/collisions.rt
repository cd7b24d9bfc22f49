// Whether two objects of a list collide.
ghost use Rattle.std.specs.Prelude.{◌≡◌, [], IfOk, bytes_eq};
ghost use Rattle.object_store.specs.All.{object_text};
ghost use Rattle.recursive_save.specs.Collisions.{IsFirst};
ghost use Rattle.recursive_save.specs.Saving.{clash_fault};

use faults::Fault;
use object_store::NewObject;
use std::alloc::{AllocError, Global};
use std::collections::BTreeMap;

// Two objects have one text.
fn is_same(one: &NewObject, other: &NewObject) -> bool
    ensures { result ≡ bytes_eq (object_text one.now) (object_text other.now) }
{
    one.kind == other.kind && one.body.as_slice() == other.body.as_slice()
}

// The index of the first object with an id: this one, where none before has it.
fn first_of(
    firsts: &mut BTreeMap<[u8; 20], usize>,
    id: [u8; 20],
    index: usize,
) -> Result<usize, AllocError>
    ensures { IfOk result (λ first. IsFirst id index firsts.old firsts.new first) }
{
    if let Some(first) = firsts.get(&id) {
        return Ok(*first);
    }
    firsts.insert(id, index)?;
    Ok(index)
}

/// The refusal of the first object that has the id of one before it, and another text.
pub(crate) fn collision(alloc: Global, objects: &[NewObject]) -> Result<Option<Fault>, AllocError>
    ensures { IfOk result (λ fault. fault ≡ clash_fault [] objects.now) }
{
    let mut firsts = BTreeMap::new(alloc);
    for i in 0..objects.len() {
        let id = objects[i].id().0;
        let first = first_of(&mut firsts, id, i)?;
        if !is_same(&objects[first], &objects[i]) {
            return Ok(Some(Fault::Collision { id }));
        }
    }
    Ok(None)
}
