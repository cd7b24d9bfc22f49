// The text of each fault, by what it speaks of.
ghost use Rattle.std.specs.Prelude.{◌≡◌, ◌≢◌, MatchOption, ◌++◌, codes, decimal, string_bytes, IfOk, MatchResult};
ghost use Rattle.std.specs.Fmt.{signed_decimal};
ghost use Rattle.places.specs.declared.place.PlaceErr.TheVariants.{NoMemory};
ghost use Rattle.hex.specs.Hex.{encode_lower};
ghost use Rattle.faults.specs.declared.faults.Fault.TheVariants.{Ambiguous, PickConflict, ExitDiffers, NoCopy};
ghost use Rattle.faults.specs.declared.faults.Fault.TheVariants.{TooFewCopies, PinMissing, Diverged};
ghost use Rattle.faults.specs.Topics.{topic_of, OfPlace, OfNumber, OfId, OfName, OfOffset, OfSize, OfSeveral};
ghost use Rattle.faults.specs.Texts.{fault_text as text_of_fault};

use crate::faults::Fault;
use places::{Place, PlaceErr};
use std::alloc::{AllocError, Global};

// An id in hexadecimal digits.
fn digits(alloc: Global, id: &[u8; 20]) -> Result<String, AllocError>
    ensures { IfOk result (λ text. string_bytes text ≡ encode_lower id.now) }
{
    hex::encode(alloc, id.as_slice())
}

fn signed(alloc: Global, value: i32) -> Result<String, AllocError>
    ensures { IfOk result (λ text. string_bytes text ≡ signed_decimal value) }
{
    format!(in alloc; "{value}")
}

// A line about one text.
fn about(alloc: Global, front: &str, value: &str) -> Result<String, AllocError>
    ensures { IfOk result (λ text. string_bytes text ≡ front.now ++ (value.now ++ codes "\n")) }
{
    format!(in alloc; "{front}{value}\n")
}

fn about_number(alloc: Global, front: &str, value: u64) -> Result<String, AllocError>
    ensures { IfOk result (λ text. string_bytes text ≡ front.now ++ (decimal value ++ codes "\n")) }
{
    format!(in alloc; "{front}{value}\n")
}

// A line about two texts.
fn about_two(
    alloc: Global,
    front: &str,
    first: &str,
    between: &str,
    second: &str,
) -> Result<String, AllocError>
    ensures { IfOk result (λ text. string_bytes text ≡ front.now
        ++ (first.now ++ (between.now ++ (second.now ++ codes "\n")))) }
{
    format!(in alloc; "{front}{first}{between}{second}\n")
}

// A line about a text and a number.
fn about_at(
    alloc: Global,
    front: &str,
    value: &str,
    between: &str,
    at: u64,
) -> Result<String, AllocError>
    ensures { IfOk result (λ text. string_bytes text ≡ front.now
        ++ (value.now ++ (between.now ++ (decimal at ++ codes "\n")))) }
{
    format!(in alloc; "{front}{value}{between}{at}\n")
}

// A line about three texts.
fn about_three(
    alloc: Global,
    front: &str,
    first: &str,
    between: &str,
    second: &str,
    before: &str,
    third: &str,
) -> Result<String, AllocError>
    ensures { IfOk result (λ text. string_bytes text ≡ front.now ++ (first.now
        ++ (between.now ++ (second.now ++ (before.now ++ (third.now ++ codes "\n")))))) }
{
    format!(in alloc; "{front}{first}{between}{second}{before}{third}\n")
}

fn ambiguous(
    alloc: Global,
    word: &str,
    first: &[u8; 20],
    second: &[u8; 20],
) -> Result<String, AllocError>
    ensures { IfOk result (λ text. string_bytes text ≡ text_of_fault (Ambiguous word.now first.now second.now)) }
{
    let first = digits(alloc, first)?;
    let second = digits(alloc, second)?;
    let front = "datalad: ambiguous revision: ";
    about_three(
        alloc,
        front,
        word,
        " is ",
        first.as_str(),
        " and ",
        second.as_str(),
    )
}

fn pick_conflict(alloc: Global, commit: &[u8; 20], path: &str) -> Result<String, AllocError>
    ensures { IfOk result (λ text. string_bytes text ≡ text_of_fault (PickConflict commit.now path.now)) }
{
    let commit = digits(alloc, commit)?;
    about_two(alloc, "datalad: cannot pick ", commit.as_str(), ": ", path)
}

fn exit_differs(
    alloc: Global,
    commit: &[u8; 20],
    recorded: i32,
    got: i32,
) -> Result<String, AllocError>
    ensures { IfOk result (λ text. string_bytes text ≡ text_of_fault (ExitDiffers commit.now recorded got)) }
{
    let commit = digits(alloc, commit)?;
    let recorded = signed(alloc, recorded)?;
    let got = signed(alloc, got)?;
    let commit = commit.as_str();
    let recorded = recorded.as_str();
    let got = got.as_str();
    about_three(
        alloc,
        "datalad: ",
        commit,
        " ended with ",
        got,
        ", recorded ",
        recorded,
    )
}

fn no_copy(alloc: Global, path: &str, key: &str) -> Result<String, AllocError>
    ensures { IfOk result (λ text. string_bytes text ≡ text_of_fault (NoCopy path.now key.now)) }
{
    about_two(alloc, "datalad: no copy of ", path, ": ", key)
}

fn too_few_copies(alloc: Global, key: &str, found: u64, needed: u64) -> Result<String, AllocError>
    ensures { IfOk result (λ text. string_bytes text ≡ text_of_fault (TooFewCopies key.now found needed)) }
{
    format!(in alloc; "datalad: too few copies of {key}: {found} found, {needed} needed\n")
}

fn pin_missing(alloc: Global, path: &str, id: &[u8; 20]) -> Result<String, AllocError>
    ensures { IfOk result (λ text. string_bytes text ≡ text_of_fault (PinMissing path.now id.now)) }
{
    let id = digits(alloc, id)?;
    about_two(alloc, "datalad: ", path, " does not hold ", id.as_str())
}

fn diverged(
    alloc: Global,
    place: &Place,
    ours: &[u8; 20],
    theirs: &[u8; 20],
) -> Result<String, AllocError>
    ensures { IfOk result (λ text. string_bytes text ≡ text_of_fault (Diverged place.now ours.now theirs.now)) }
{
    let place = place.as_str();
    let ours = digits(alloc, ours)?;
    let theirs = digits(alloc, theirs)?;
    let ours = ours.as_str();
    let theirs = theirs.as_str();
    about_three(
        alloc,
        "datalad: diverged: ",
        place,
        " is at ",
        ours,
        ", not before ",
        theirs,
    )
}

// The text of a fault that speaks of a place.
fn of_place(alloc: Global, fault: &Fault) -> Result<Option<String>, AllocError>
    ensures { IfOk result (λ found. MatchOption found (topic_of fault.now ≢ OfPlace)
        (λ text. string_bytes text ≡ text_of_fault fault.now)) }
{
    let (front, place) = match fault {
        Fault::NotADataset { place } => ("datalad: no dataset at ", place),
        Fault::AlreadyThere { place } => ("datalad: something is already at ", place),
        Fault::OutsideDataset { place } => ("datalad: outside the dataset: ", place),
        Fault::Damaged { place } => ("datalad: damaged: ", place),
        Fault::Blocked { place } => ("datalad: in the way: ", place),
        Fault::NoDatasetId { place } => ("datalad: no dataset id: ", place),
        _ => return Ok(None),
    };
    Ok(Some(about(alloc, front, place.as_str())?))
}

// Of a number.
fn of_number(alloc: Global, fault: &Fault) -> Result<Option<String>, AllocError>
    ensures { IfOk result (λ found. MatchOption found (topic_of fault.now ≢ OfNumber)
        (λ text. string_bytes text ≡ text_of_fault fault.now)) }
{
    let (front, number) = match fault {
        Fault::BadPath { at } => ("datalad: bad path in word ", *at),
        Fault::BadPlaceholder { at } => ("datalad: bad placeholder at ", *at),
        Fault::BadStream { at } => ("datalad: bad stream at ", *at),
        Fault::CheckFailed { errors } => ("datalad: errors found: ", *errors),
        _ => return Ok(None),
    };
    Ok(Some(about_number(alloc, front, number)?))
}

// Of the id of an object.
fn of_id(alloc: Global, fault: &Fault) -> Result<Option<String>, AllocError>
    ensures { IfOk result (λ found. MatchOption found (topic_of fault.now ≢ OfId)
        (λ text. string_bytes text ≡ text_of_fault fault.now)) }
{
    let (front, id) = match fault {
        Fault::NoRecord { commit } => ("datalad: no run record: ", commit),
        Fault::NoBase { commit } => ("datalad: no parent: ", commit),
        Fault::MergeInRange { commit } => ("datalad: merge in the range: ", commit),
        Fault::Missing { id } => ("datalad: missing object: ", id),
        Fault::Collision { id } => ("datalad: collision: ", id),
        Fault::TooLong { commit } => ("datalad: history too long: ", commit),
        Fault::NotExportable { commit } => ("datalad: cannot export: ", commit),
        _ => return Ok(None),
    };
    Ok(Some(about(alloc, front, digits(alloc, id)?.as_str())?))
}

// Of a name, a path or a word.
fn of_name(alloc: Global, fault: &Fault) -> Result<Option<String>, AllocError>
    ensures { IfOk result (λ found. MatchOption found (topic_of fault.now ≢ OfName)
        (λ text. string_bytes text ≡ text_of_fault fault.now)) }
{
    let (front, name) = match fault {
        Fault::Dirty { path } => ("datalad: unsaved change: ", path),
        Fault::PathUnknown { path } => ("datalad: no such path: ", path),
        Fault::NotAnnexed { path } => ("datalad: not annexed: ", path),
        Fault::NoSuchRevision { word } => ("datalad: no such revision: ", word),
        Fault::NotPinned { path } => ("datalad: not pinned there: ", path),
        Fault::NoSource { path } => ("datalad: no source for ", path),
        Fault::BranchThere { name } => ("datalad: branch exists: ", name),
        Fault::BadBranch { name } => ("datalad: bad branch name: ", name),
        Fault::OddKind { path } => ("datalad: neither file nor directory: ", path),
        Fault::UnsupportedMode { path } => ("datalad: link is not supported: ", path),
        Fault::PathClash { path } => ("datalad: file and directory: ", path),
        Fault::TimeFull { key } => ("datalad: no later time: ", key),
        Fault::SiblingThere { name } => ("datalad: sibling exists: ", name),
        Fault::BadName { name } => ("datalad: bad name: ", name),
        Fault::NoSibling { name } => ("datalad: no sibling: ", name),
        _ => return Ok(None),
    };
    Ok(Some(about(alloc, front, name.as_str())?))
}

// Of a number in an object.
fn of_offset(alloc: Global, fault: &Fault) -> Result<Option<String>, AllocError>
    ensures { IfOk result (λ found. MatchOption found (topic_of fault.now ≢ OfOffset)
        (λ text. string_bytes text ≡ text_of_fault fault.now)) }
{
    let (front, id, at) = match fault {
        Fault::BadRecord { commit, at } => ("datalad: bad run record: ", commit, *at),
        Fault::BadTree { id, at } => ("datalad: bad tree: ", id, *at),
        Fault::BadCommit { id, at } => ("datalad: bad commit: ", id, *at),
        _ => return Ok(None),
    };
    Ok(Some(about_at(alloc, front, digits(alloc, id)?.as_str(), " at ", at)?))
}

// Of a number with a place or a path.
fn of_size(alloc: Global, fault: &Fault) -> Result<Option<String>, AllocError>
    ensures { IfOk result (λ found. MatchOption found (topic_of fault.now ≢ OfSize)
        (λ text. string_bytes text ≡ text_of_fault fault.now)) }
{
    let (front, value, between, number) = match fault {
        Fault::BadLine { place, line } => ("datalad: bad line: ", place.as_str(), ":", *line),
        Fault::BadLog { place, line } => (
            "datalad: bad location log: ",
            place.as_str(),
            ":",
            *line,
        ),
        Fault::TooLarge { path, size } => ("datalad: too large: ", path.as_str(), ", ", *size),
        _ => return Ok(None),
    };
    Ok(Some(about_at(alloc, front, value, between, number)?))
}

// Of more than these.
fn of_several(alloc: Global, fault: &Fault) -> Result<Option<String>, AllocError>
    ensures { IfOk result (λ found. MatchOption found (topic_of fault.now ≢ OfSeveral)
        (λ text. string_bytes text ≡ text_of_fault fault.now)) }
{
    let text = match fault {
        Fault::Ambiguous {
            word,
            first,
            second,
        } => ambiguous(alloc, word.as_str(), first, second)?,
        Fault::PickConflict { commit, path } => pick_conflict(alloc, commit, path.as_str())?,
        Fault::ExitDiffers {
            commit,
            recorded,
            got,
        } => exit_differs(alloc, commit, *recorded, *got)?,
        Fault::NoCopy { path, key } => no_copy(alloc, path.as_str(), key.as_str())?,
        Fault::TooFewCopies { key, found, needed } => too_few_copies(
            alloc,
            key.as_str(),
            *found,
            *needed,
        )?,
        Fault::PinMissing { path, id } => pin_missing(alloc, path.as_str(), id)?,
        Fault::Diverged {
            place,
            ours,
            theirs,
        } => diverged(alloc, place, ours, theirs)?,
        _ => return Ok(None),
    };
    Ok(Some(text))
}

// The text of any fault.
fn text_in(alloc: Global, fault: &Fault) -> Result<String, AllocError>
    ensures { IfOk result (λ text. string_bytes text ≡ text_of_fault fault.now) }
{
    if let Some(text) = of_place(alloc, fault)? {
        return Ok(text);
    }
    if let Some(text) = of_number(alloc, fault)? {
        return Ok(text);
    }
    if let Some(text) = of_id(alloc, fault)? {
        return Ok(text);
    }
    if let Some(text) = of_name(alloc, fault)? {
        return Ok(text);
    }
    if let Some(text) = of_offset(alloc, fault)? {
        return Ok(text);
    }
    if let Some(text) = of_size(alloc, fault)? {
        return Ok(text);
    }
    match of_several(alloc, fault)? {
        Some(text) => Ok(text),
        None => unreachable!(),
    }
}

/// What is printed of a fault: the program's name, the text, and a newline.
pub fn fault_text(alloc: Global, fault: &Fault) -> Result<String, PlaceErr>
    ensures { MatchResult result (λ text. string_bytes text ≡ text_of_fault fault.now) (λ e. e ≡ NoMemory) }
{
    Ok(text_in(alloc, fault)?)
}
