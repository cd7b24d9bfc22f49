// What rows are made of.
ghost use Rattle.std.specs.Prelude.{◌≡◌};

use places::{Place, Text};
use std::alloc::Global;
use std::process::Abort;

pub(super) fn place(rt: &impl Abort, alloc: Global, text: &str) -> Place {
    Place::parse(alloc, text).expect(rt, "a place")
}

pub(super) fn text(rt: &impl Abort, alloc: Global, value: &str) -> Text
    ensures { result ≡ value.now }
{
    Text::new(String::from_str(alloc, value).expect(rt, "memory"))
}

pub(super) fn is_text(rt: &impl Abort, got: &str, want: &str) {
    assert_eq!(rt; got, want);
}

pub(super) fn are_bytes(rt: &impl Abort, got: &[u8], want: &[u8]) {
    assert_eq!(rt; got, want);
}

// What has to hold of that text.
pub(super) fn holds(rt: &impl Abort, is: bool, at: &str) {
    assert!(rt; is, "at {at}");
}

pub(super) fn holds_at(rt: &impl Abort, is: bool, at: &[u8]) {
    assert!(rt; is, "at {at:?}");
}

// The one item of a list.
pub(super) fn only<'a, T>(rt: &impl Abort, list: &'a [T]) -> &'a T {
    match list {
        [one] => one,
        _ => rt.abort(),
    }
}
