// What a call begins with: words, working directory, clock and random bytes, or why the host gave none.
ghost use Rattle.std.specs.Prelude.{◌≡◌, drop, IfOk, IfErr};
ghost use Rattle.std.specs.Time.{system_time_nanos};
ghost use Rattle.places.specs.All.{IsText, IsPlace, text_of};
ghost use Rattle.datalad.specs.Starts.{IsSeconds};
ghost use Rattle.datalad.specs.declared.start.Failure.TheVariants.{Host};

use file_store::{Place, PlaceErr};
use std::alloc::{AllocError, Global};
use std::env;
use std::io::{self, ErrorKind};
use std::random::RandomSource;
use std::time::SystemTime;

/// The words after the program's name, the working directory, the seconds since 1970, and 16 random bytes.
#[derive(Drop)]
pub(crate) struct Start {
    pub(crate) words: Vec<String>,
    pub(crate) cwd: Place,
    pub(crate) moment: u64,
    pub(crate) fresh: [u8; 16],
}

/// Why the program can't begin: the host gave something out of form or nothing, or memory was wanting.
#[derive(Debug, Drop)]
pub(crate) enum Failure {
    Host,
    NoMemory,
}

impl From<AllocError> for Failure {
    ghost use Rattle.datalad.specs.declared.start.Failure.TheVariants.{NoMemory};

    ghost from_gives = { λ _ failure. failure ≡ NoMemory };

    fn from(_: AllocError) -> Self {
        Failure::NoMemory
    }
}

impl From<io::Error> for Failure {
    ghost use Rattle.std.specs.IoError.{error_kind};
    ghost use Rattle.datalad.specs.Starts.{IsFailureOf};

    ghost from_gives = { λ e failure. IsFailureOf (error_kind e) failure };

    fn from(e: io::Error) -> Self {
        if e.kind() == ErrorKind::OutOfMemory {
            return Failure::NoMemory;
        }
        Failure::Host
    }
}

impl Failure {
    ghost use Rattle.datalad_cli.specs.All.{code_of};
    ghost use Rattle.datalad.specs.Starts.{ending, ending_text};

    /// The exit status.
    pub(crate) fn code(&self) -> u8
        ensures { result ≡ code_of (ending self.now) }
    {
        match self {
            Failure::Host => 4,
            Failure::NoMemory => 3,
        }
    }

    /// What is said of it.
    pub(crate) fn text(&self) -> &'static str
        ensures { result.now ≡ ending_text self.now }
    {
        match self {
            Failure::Host => "datalad: a device failed\n",
            Failure::NoMemory => "datalad: no memory\n",
        }
    }
}

// All words but the first, which is the program's name.
fn after_the_name(alloc: Global, all: Vec<String>) -> Result<Vec<String>, AllocError>
    ensures { IfOk result (λ words. words.items ≡ drop 1 all.items) }
{
    all.into_iter().skip(1).collect(alloc)
}

// The place of a directory.
fn place_of(alloc: Global, text: &str) -> Result<Place, Failure>
    ensures ok { IfOk result (λ place. IsPlace place × (text.now ≡ text_of place)) }
    ensures host { IfErr result (λ failure. failure ≡ Host → ¬ (IsText text.now)) }
{
    match Place::parse(alloc, text) {
        Ok(place) => Ok(place),
        Err(PlaceErr::Bad) => Err(Failure::Host),
        Err(PlaceErr::NoMemory) => Err(Failure::NoMemory),
    }
}

// The whole seconds since 1970. The clock gives no time before that.
fn seconds_of(time: SystemTime) -> u64
    ensures { IsSeconds (system_time_nanos time) result }
{
    match time.duration_since(SystemTime::UNIX_EPOCH) {
        Ok(passed) => passed.as_secs(),
        Err(_) => unreachable!(),
    }
}

fn working_directory(rt: &HostRuntime) -> Result<Place, Failure> {
    let folder = env::current_dir(rt)?;
    match folder.as_path().to_str() {
        Some(text) => place_of(rt.alloc(), text),
        None => Err(Failure::Host),
    }
}

fn random_bytes(rt: &HostRuntime) -> io::Result<[u8; 16]> {
    let mut bytes = [0u8; 16];
    rt.fill_bytes(&mut bytes)?;
    Ok(bytes)
}

/// What the host gives.
pub(crate) fn begin(rt: &HostRuntime) -> Result<Start, Failure> {
    Ok(Start {
        words: after_the_name(rt.alloc(), env::args(rt)?.collect(rt.alloc())?)?,
        cwd: working_directory(rt)?,
        moment: seconds_of(SystemTime::now(rt)?),
        fresh: random_bytes(rt)?,
    })
}
