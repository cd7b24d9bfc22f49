// Objects to be put.
ghost use Rattle.std.specs.Prelude.{◌≡◌, IfOk};

use file_store::Bytes;
use git_objects::{Id, ObjErr, ObjKind, object_id, object_text};
use std::alloc::{AllocError, Global};

/// An object by its kind and body.
#[derive(Debug, Drop)]
pub struct NewObject {
    pub kind: ObjKind,
    pub body: Bytes,
}

impl NewObject {
    ghost use Rattle.git_objects.specs.All.{oid};
    ghost use Rattle.object_store.specs.Objects.{object_text as text_of_object};

    pub fn id(&self) -> Id
        ensures { result.0 ≡ oid self.now.kind self.now.body }
    {
        object_id(self.kind, self.body.as_slice())
    }

    pub fn text(&self, alloc: Global) -> Result<Vec<u8>, AllocError>
        ensures { IfOk result (λ text. text.items ≡ text_of_object self.now) }
    {
        match object_text(alloc, self.kind, self.body.as_slice()) {
            Ok(text) => Ok(text),
            Err(ObjErr::NoMemory) => Err(AllocError),
            Err(_) => unreachable!(),
        }
    }
}
