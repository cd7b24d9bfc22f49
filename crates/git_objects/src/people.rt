// The people of a commit.
ghost use Rattle.std.specs.Prelude.{◌≡◌, ◌++◌, IsTrue, OnOk, IfOk, MatchOption};
ghost use Rattle.git_objects.specs.People.{is_person, is_plain, is_zone, person_of};
ghost use Rattle.git_objects.specs.People.{IsNamedText, NoNamedText, IsMoment, NoMoment};
ghost use Rattle.std.specs.Char.{is_ascii_digit};
ghost use Rattle.std.specs.List.{list_all};

use crate::cuts::{cut_at, without_end, without_front};
use crate::numbers::read_number;
use itoa::Buffer;
use places::Text;
use std::alloc::{AllocError, Global};

/// A name, an email and a moment: seconds since 1970, and the zone's hours and minutes.
#[derive(Debug, Drop)]
pub struct Person {
    pub name: Text,
    pub email: Text,
    pub secs: u64,
    pub zone: [u8; 5],
    pub ghost valid: { IsTrue (is_person name email zone) },
}

fn is_plain(text: &str) -> bool
    ensures { result ≡ list_all is_plain text.now }
{
    text.bytes()
        .all(|b| b != 0 && b != b'\n' && b != b'<' && b != b'>')
}

fn are_digits(text: &[u8]) -> bool
    ensures { result ≡ list_all is_ascii_digit text.now }
{
    text.iter().all(|b| b.is_ascii_digit())
}

#[tactic(auto, unfolding(crate::specs::People::is_zone))]
fn is_zone(zone: &[u8]) -> bool
    ensures { result ≡ is_zone zone.now }
{
    zone.len() == 5 && (zone[0] == b'+' || zone[0] == b'-') && are_digits(&zone[1..])
}

/// Whether a person can have this name, email and zone.
#[tactic(auto, unfolding(crate::specs::People::is_person))]
pub fn is_person(name: &str, email: &str, zone: &[u8]) -> bool
    ensures { result ≡ is_person name.now email.now zone.now }
{
    is_plain(name) && is_plain(email) && is_zone(zone)
}

// The name, the email, and what follows them and a blank.
fn read_names(text: &[u8]) -> Option<(&[u8], &[u8], &[u8])>
    ensures { MatchOption result (NoNamedText text.now)
        (λ read. IsNamedText text.now read.0.now read.1.now read.2.now) }
{
    let (front, rest) = cut_at(text, b'<')?;
    let name = without_end(front, b" ")?;
    let (email, rest) = cut_at(rest, b'>')?;
    let moment = without_front(rest, b" ")?;
    Some((name, email, moment))
}

// The seconds and the zone.
fn read_moment(text: &[u8]) -> Option<(u64, &[u8; 5])>
    ensures { MatchOption result (NoMoment text.now)
        (λ read. IsMoment text.now read.0 read.1.now) }
{
    let (digits, zone) = cut_at(text, b' ')?;
    let secs = read_number(digits)?;
    let (zone, rest) = zone.split_first_chunk::<5>()?;
    if !rest.is_empty() {
        return None;
    }
    Some((secs, zone))
}

impl Person {
    ghost use Rattle.git_objects.specs.Persons.{person_text, IsPersonStored};
    ghost use Rattle.git_objects.specs.Persons.{IsPersonText, IsNoPersonText};

    #[tactic(auto, unfolding(crate::specs::People::person_of))]
    pub(crate) fn append_to(&self, body: &mut Vec<u8>) -> Result<(), AllocError>
        ensures text { OnOk result (body.new.items ≡ body.old.items ++ person_text self.now) }
        ensures stored { OnOk result (IsPersonStored self.now) }
    {
        let mut buffer = Buffer::new();
        body.extend_from_slice(self.name.as_str().as_bytes())?;
        body.extend_from_slice(b" <")?;
        body.extend_from_slice(self.email.as_str().as_bytes())?;
        body.extend_from_slice(b"> ")?;
        body.extend_from_slice(buffer.format(self.secs).as_bytes())?;
        body.extend_from_slice(b" ")?;
        body.extend_from_slice(&self.zone)?;
        Ok(())
    }

    // The person with this text.
    pub(crate) fn decode(alloc: Global, text: &[u8]) -> Result<Option<Person>, AllocError>
        ensures { IfOk result (λ found. MatchOption found (IsNoPersonText text.now)
            (IsPersonText text.now)) }
    {
        let Some((name, email, moment)) = read_names(text) else {
            return Ok(None);
        };
        let Some((secs, zone)) = read_moment(moment) else {
            return Ok(None);
        };
        let Ok(name) = str::from_utf8(name) else {
            return Ok(None);
        };
        let Ok(email) = str::from_utf8(email) else {
            return Ok(None);
        };
        if !is_person(name, email, zone) {
            return Ok(None);
        }
        let name = Text::new(String::from_str(alloc, name)?);
        let email = Text::new(String::from_str(alloc, email)?);
        Ok(Some(Person {
            name,
            email,
            secs,
            zone: *zone,
        }))
    }
}
