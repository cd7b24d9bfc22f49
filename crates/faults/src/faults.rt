// Why a command is refused, and why a call gave no answer.
ghost use Rattle.std.specs.Prelude.{◌≡◌};
ghost use Rattle.faults.specs.declared.faults.Trouble.TheVariants.{NoMemory};

use places::{Place, Text};
use std::alloc::{AllocError, AllocFailed};

/// Why a command is refused. Ids are 20 bytes, a key is its text; where each one comes stands at the calls that answer it.
#[derive(Debug, Drop)]
pub enum Fault {
    NotADataset {
        place: Place,
    },
    AlreadyThere {
        place: Place,
    },
    OutsideDataset {
        place: Place,
    },
    BadPath {
        at: u64,
    },
    Dirty {
        path: Text,
    },
    PathUnknown {
        path: Text,
    },
    NotAnnexed {
        path: Text,
    },
    NoSuchRevision {
        word: Text,
    },
    Ambiguous {
        word: Text,
        first: [u8; 20],
        second: [u8; 20],
    },
    NoRecord {
        commit: [u8; 20],
    },
    NoBase {
        commit: [u8; 20],
    },
    MergeInRange {
        commit: [u8; 20],
    },
    PickConflict {
        commit: [u8; 20],
        path: Text,
    },
    ExitDiffers {
        commit: [u8; 20],
        recorded: i32,
        got: i32,
    },
    NoCopy {
        path: Text,
        key: Text,
    },
    TooFewCopies {
        key: Text,
        found: u64,
        needed: u64,
    },
    PinMissing {
        path: Text,
        id: [u8; 20],
    },
    NotPinned {
        path: Text,
    },
    NoSource {
        path: Text,
    },
    BranchThere {
        name: Text,
    },
    BadBranch {
        name: Text,
    },
    BadPlaceholder {
        at: u64,
    },
    BadRecord {
        commit: [u8; 20],
        at: u64,
    },
    Damaged {
        place: Place,
    },
    BadTree {
        id: [u8; 20],
        at: u64,
    },
    BadCommit {
        id: [u8; 20],
        at: u64,
    },
    Missing {
        id: [u8; 20],
    },
    BadLine {
        place: Place,
        line: u64,
    },
    BadLog {
        place: Place,
        line: u64,
    },
    Collision {
        id: [u8; 20],
    },
    OddKind {
        path: Text,
    },
    UnsupportedMode {
        path: Text,
    },
    PathClash {
        path: Text,
    },
    TooLarge {
        path: Text,
        size: u64,
    },
    TooLong {
        commit: [u8; 20],
    },
    TimeFull {
        key: Text,
    },
    Blocked {
        place: Place,
    },
    SiblingThere {
        name: Text,
    },
    BadName {
        name: Text,
    },
    NoDatasetId {
        place: Place,
    },
    NoSibling {
        name: Text,
    },
    Diverged {
        place: Place,
        ours: [u8; 20],
        theirs: [u8; 20],
    },
    BadStream {
        at: u64,
    },
    NotExportable {
        commit: [u8; 20],
    },
    CheckFailed {
        errors: u64,
    },
}

/// Why a call above the codecs gave no answer. Device comes only where a count of faults rose.
#[derive(Debug, Drop)]
pub enum Trouble {
    Refused(Fault),
    Device,
    NoMemory,
}

impl From<AllocError> for Trouble {
    ghost from_gives = { λ _ e. e ≡ NoMemory };

    fn from(_: AllocError) -> Self {
        Trouble::NoMemory
    }
}

impl<T: Drop> From<AllocFailed<T>> for Trouble {
    ghost from_gives = { λ _ e. e ≡ NoMemory };

    fn from(_: AllocFailed<T>) -> Self {
        Trouble::NoMemory
    }
}
