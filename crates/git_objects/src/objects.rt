// Kinds of objects, and the text and the id of an object of any kind.
ghost use Rattle.std.specs.Prelude.{◌≡◌, ◌++◌, MatchResult};
ghost use Rattle.git_objects.specs.Kinds.{kind_text, text_of_object, oid};
ghost use Rattle.git_objects.specs.declared.objects.ObjKind.TheVariants.{Blob};
ghost use Rattle.git_objects.specs.declared.errors.ObjErr.TheVariants.{NoMemory};

use crate::errors::ObjErr;
use crate::ids::Id;
use itoa::Buffer;
use sha1::Sha1;
use std::alloc::Global;

#[derive(Clone, Copy, Debug, PartialEq, Eq)]
pub enum ObjKind {
    Blob,
    Tree,
    Commit,
    Tag,
}

impl ObjKind {
    pub fn name(self) -> &'static str
        ensures { result.now ≡ kind_text self }
    {
        match self {
            ObjKind::Blob => "blob",
            ObjKind::Tree => "tree",
            ObjKind::Commit => "commit",
            ObjKind::Tag => "tag",
        }
    }
}

/// The id of the object with this body.
pub fn object_id(kind: ObjKind, body: &[u8]) -> Id
    ensures { result.0 ≡ oid kind body.now }
{
    let mut buffer = Buffer::new();
    let size = buffer.format(body.len());
    let mut hasher = Sha1::new();
    hasher.update(kind.name().as_bytes());
    hasher.update(b" ");
    hasher.update(size.as_bytes());
    hasher.update(b"\0");
    hasher.update(body);
    Id(hasher.finalize())
}

/// The id of the blob with these bytes.
pub fn blob_id(bytes: &[u8]) -> Id
    ensures { result.0 ≡ oid Blob bytes.now }
{
    object_id(ObjKind::Blob, bytes)
}

/// The text that an object is stored as.
pub fn object_text(alloc: Global, kind: ObjKind, body: &[u8]) -> Result<Vec<u8>, ObjErr>
    ensures { MatchResult result (λ t. t.items ≡ text_of_object kind body.now) (λ e. e ≡ NoMemory) }
{
    let mut buffer = Buffer::new();
    let length = buffer.format(body.len());
    let mut text = Vec::from_slice(alloc, kind.name().as_bytes())?;
    text.extend_from_slice(b" ")?;
    text.extend_from_slice(length.as_bytes())?;
    text.extend_from_slice(b"\0")?;
    text.extend_from_slice(body)?;
    Ok(text)
}
