// What the host said when it failed.

use std::alloc::Global;
use std::io::Error;

/// A failure of the host: the place that a call was to reach, where it was for one, and the system's reason.
#[derive(Drop)]
pub struct Reason {
    place: Option<String>,
    error: Error,
}

impl Reason {
    /// Where there is no memory for the place's text, it is left out.
    pub(crate) fn at(alloc: Global, place: &str, error: Error) -> Reason {
        Reason {
            place: String::from_str(alloc, place).ok(),
            error,
        }
    }

    pub(crate) fn nowhere(error: Error) -> Reason {
        Reason { place: None, error }
    }

    pub fn place(&self) -> Option<&str> {
        match &self.place {
            Some(place) => Some(place.as_str()),
            None => None,
        }
    }

    pub fn error(&self) -> Error {
        self.error
    }
}
