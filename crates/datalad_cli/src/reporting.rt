// Printing what came of a call: the result lines and what is given, then the text of the ending.
ghost use Rattle.std.specs.Prelude.{◌≡◌, IsTrue, IfOk, string_bytes};
ghost use Rattle.faults.specs.All.{line_text as line_of};
ghost use Rattle.datalad_cli.specs.Answer.{lines_text as lines_of, device_text, memory_text, usage_text as usage_of};
ghost use Rattle.datalad_cli.specs.Reports.{HasCounted, TookText, OutputCounts, UsageEnds, RefusalEnds, ReportEnds, TextEnds};
ghost use Rattle.datalad_cli.specs.Reports.{outcome_gives, printed};
ghost use Rattle.datalad_cli.specs.declared.status.Status.TheVariants.{Device, NoMemory};

use crate::status::Status;
use faults::{Fault, Line, Trouble, fault_text};
use file_store::{Bytes, PlaceErr, Sink, SinkErr, write_whole};
use std::alloc::{AllocError, Global};

// All lines, one after the other.
fn lines_text(alloc: Global, lines: &[Line]) -> Result<String, AllocError>
    ensures { IfOk result (λ text. string_bytes text ≡ lines_of lines.now) }
{
    let mut text = String::new(alloc);
    for line in lines {
        text.push_str(line_text(alloc, line)?.as_str())?;
    }
    Ok(text)
}

fn line_text(alloc: Global, line: &Line) -> Result<String, AllocError>
    ensures { IfOk result (λ text. string_bytes text ≡ line_of line.now) }
{
    match line.text(alloc) {
        Ok(text) => Ok(text),
        Err(PlaceErr::NoMemory) => Err(AllocError),
        Err(_) => unreachable!(),
    }
}

// The text that an outcome gives.
fn given(outcome: &Result<Bytes, Trouble>) -> &[u8]
    ensures { result.now ≡ outcome_gives outcome.now }
{
    match outcome {
        Ok(text) => text.as_slice(),
        Err(_) => b"",
    }
}

// The lines, and then what the outcome gives.
fn printed(
    alloc: Global,
    lines: &[Line],
    outcome: &Result<Bytes, Trouble>,
) -> Result<Vec<u8>, AllocError>
    ensures { IfOk result (λ text. text.items ≡ printed lines.now outcome.now) }
{
    let mut text = lines_text(alloc, lines)?.into_bytes();
    text.extend_from_slice(given(outcome))?;
    Ok(text)
}

fn usage_text(alloc: Global, at: u64) -> Result<String, AllocError>
    ensures { IfOk result (λ text. string_bytes text ≡ usage_of at) }
{
    format!(in alloc; "datalad: usage: word {at}\n")
}

// The ending where a device failed. What comes of its text changes nothing any more.
fn failed<S: Sink>(sink: &mut S) -> Status
    ensures later { HasCounted (S.tape sink.old) (S.tape sink.new) }
    ensures status { result ≡ Device }
    ensures text { IsTrue S.tells → TookText (S.tape sink.old) (S.tape sink.new) device_text }
{
    let _ = write_whole(sink, b"datalad: a device failed\n");
    Status::Device
}

/// The ending where memory was wanting.
pub(crate) fn starved<S: Sink>(sink: &mut S) -> Status
    ensures later { HasCounted (S.tape sink.old) (S.tape sink.new) }
    ensures status { result ≡ NoMemory }
    ensures text { IsTrue S.tells → TookText (S.tape sink.old) (S.tape sink.new) memory_text }
{
    let _ = write_whole(sink, b"datalad: no memory\n");
    Status::NoMemory
}

/// The ending of words that have no reading.
pub(crate) fn say_usage<S: Sink>(alloc: Global, sink: &mut S, at: u64) -> Status
    ensures later { OutputCounts result (S.tape sink.old) (S.tape sink.new) }
    ensures ends { UsageEnds S.tells at (S.tape sink.old) (S.tape sink.new) result }
{
    match usage_text(alloc, at) {
        Err(_) => starved(sink),
        Ok(text) => match write_whole(sink, text.as_str().as_bytes()) {
            Ok(()) => Status::Usage { at },
            Err(SinkErr::Failed) => Status::Device,
            Err(SinkErr::NoMemory) => Status::NoMemory,
        },
    }
}

// The ending of a refused command.
fn say_refused<S: Sink>(alloc: Global, sink: &mut S, fault: Fault) -> Status
    ensures later { OutputCounts result (S.tape sink.old) (S.tape sink.new) }
    ensures ends { RefusalEnds S.tells fault (S.tape sink.old) (S.tape sink.new) result }
{
    match fault_text(alloc, &fault) {
        Err(_) => starved(sink),
        Ok(text) => match write_whole(sink, text.as_str().as_bytes()) {
            Ok(()) => Status::Refused(fault),
            Err(SinkErr::Failed) => Status::Device,
            Err(SinkErr::NoMemory) => Status::NoMemory,
        },
    }
}

// Prints a text, and then what the outcome says.
fn tell<O: Sink, E: Sink>(
    alloc: Global,
    out: &mut O,
    err: &mut E,
    text: &[u8],
    outcome: Result<Bytes, Trouble>,
) -> Status
    ensures out_later { OutputCounts result (O.tape out.old) (O.tape out.new) }
    ensures err_later { OutputCounts result (E.tape err.old) (E.tape err.new) }
    ensures ends { TextEnds (record { out = O.tells; err = E.tells }) text.now outcome
        (record { out = O.tape out.old; err = E.tape err.old })
        (record { out = O.tape out.new; err = E.tape err.new }) result }
{
    match write_whole(out, text) {
        Ok(()) => {}
        Err(SinkErr::Failed) => {
            drop(outcome);
            return failed(err);
        }
        Err(SinkErr::NoMemory) => {
            drop(outcome);
            return starved(err);
        }
    }
    match outcome {
        Ok(_text) => Status::Done,
        Err(Trouble::Refused(fault)) => say_refused(alloc, err, fault),
        Err(Trouble::Device) => failed(err),
        Err(Trouble::NoMemory) => starved(err),
    }
}

/// Prints the lines and what the outcome gives, and then what it says.
pub(crate) fn report<O: Sink, E: Sink>(
    alloc: Global,
    out: &mut O,
    err: &mut E,
    lines: &[Line],
    outcome: Result<Bytes, Trouble>,
) -> Status
    ensures out_later { OutputCounts result (O.tape out.old) (O.tape out.new) }
    ensures err_later { OutputCounts result (E.tape err.old) (E.tape err.new) }
    ensures ends { ReportEnds (record { out = O.tells; err = E.tells }) lines.now outcome
        (record { out = O.tape out.old; err = E.tape err.old })
        (record { out = O.tape out.new; err = E.tape err.new }) result }
{
    match printed(alloc, lines, &outcome) {
        Ok(text) => tell(alloc, out, err, text.as_slice(), outcome),
        Err(_) => {
            drop(outcome);
            starved(err)
        }
    }
}
