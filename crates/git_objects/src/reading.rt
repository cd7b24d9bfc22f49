// Reading an object's text.
ghost use Rattle.std.specs.Prelude.{◌≡◌, ◌↔◌, ◌≤◌, ⊤, ℕ, List, Some, IsTrue, length, drop};
ghost use Rattle.std.specs.Prelude.{is_some, MatchOption};
ghost use Rattle.git_objects.specs.Kinds.{header_of, text_of_object};
ghost use Rattle.git_objects.specs.Readings.{is_object_text, IsNoHeader};

use crate::cuts::{place_of, without_front};
use crate::objects::ObjKind;
use itoa::Buffer;

/// The kind of the object whose text this is, and where its body starts. None where it is no
/// object's text.
pub fn read_object(text: &[u8]) -> Option<(ObjKind, usize)>
    ensures found { is_some result ≡ is_object_text text.now }
    ensures parts { MatchOption result ⊤ (λ r. (r.1 ≤ length text.now)
        × (text.now ≡ text_of_object r.0 (drop r.1 text.now))) }
    ensures each { (kind : ObjKind) (body : List ℕ) → text.now ≡ text_of_object kind body
        → result ≡ Some (kind, length (header_of kind (length body))) }
{
    let start = place_of(text, b'\0')? + 1;
    let (header, body) = text.split_at(start);
    let kind = header_kind(header, body.len())?;
    Some((kind, start))
}

// The kind whose header this is, before a body of this size.
fn header_kind(header: &[u8], size: usize) -> Option<ObjKind>
    ensures { MatchOption result (IsNoHeader header.now size)
        (λ kind. header.now ≡ header_of kind size) }
{
    let kinds = [ObjKind::Blob, ObjKind::Tree, ObjKind::Commit, ObjKind::Tag];
    for kind in kinds {
        if is_header(header, kind, size) {
            return Some(kind);
        }
    }
    None
}

// Whether it is the kind's name, a blank, the digits of the size and NUL.
fn is_header(header: &[u8], kind: ObjKind, size: usize) -> bool
    ensures { IsTrue result ↔ (header.now ≡ header_of kind size) }
{
    let mut buffer = Buffer::new();
    let digits = buffer.format(size);
    let Some(rest) = without_front(header, kind.name().as_bytes()) else {
        return false;
    };
    let Some(rest) = without_front(rest, b" ") else {
        return false;
    };
    let Some(rest) = without_front(rest, digits.as_bytes()) else {
        return false;
    };
    rest == b"\0".as_slice()
}
