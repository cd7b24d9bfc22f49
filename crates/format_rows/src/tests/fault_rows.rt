// The printed texts of all faults, by what they speak of, and of a result line.
use super::common::{is_text, place, text};
use faults::{Fault, Line, fault_text};
use places::{Place, Text};
use std::alloc::Global;
use std::process::Abort;

// Twenty bytes, and how they print.
const ID: [u8; 20] = [0xab; 20];

const ONE: [u8; 20] = [1; 20];

fn w(rt: &impl Abort, alloc: Global) -> Place {
    place(rt, alloc, "/w")
}

fn a(rt: &impl Abort, alloc: Global) -> Text {
    text(rt, alloc, "d/a")
}

fn key(rt: &impl Abort, alloc: Global) -> Text {
    text(rt, alloc, "KEY")
}

// What is printed, less the program's name and the newline.
fn says(rt: &impl Abort, alloc: Global, fault: Fault, want: &str) {
    let text = fault_text(alloc, &fault).expect(rt, "memory");
    drop(fault);
    is_line(rt, alloc, text.as_str(), want);
}

fn is_line(rt: &impl Abort, alloc: Global, text: &str, want: &str) {
    let want = format!(in alloc; "datalad: {want}\n").expect(rt, "memory");
    is_text(rt, text, want.as_str());
}

#[rattlefmt::skip]
#[test]
fn of_places(rt: HostRuntime) {
    let (rt, alloc) = (&rt, rt.alloc());
    says(rt, alloc, Fault::NotADataset { place: w(rt, alloc) }, "no dataset at /w");
    says(rt, alloc, Fault::AlreadyThere { place: w(rt, alloc) }, "something is already at /w");
    says(rt, alloc, Fault::OutsideDataset { place: w(rt, alloc) }, "outside the dataset: /w");
    says(rt, alloc, Fault::Damaged { place: w(rt, alloc) }, "damaged: /w");
    says(rt, alloc, Fault::Blocked { place: w(rt, alloc) }, "in the way: /w");
    says(rt, alloc, Fault::NoDatasetId { place: w(rt, alloc) }, "no dataset id: /w");
    says(rt, alloc, Fault::BadLine { place: w(rt, alloc), line: 7 }, "bad line: /w:7");
    says(rt, alloc, Fault::BadLog { place: w(rt, alloc), line: 0 }, "bad location log: /w:0");
}

#[rattlefmt::skip]
#[test]
fn of_paths(rt: HostRuntime) {
    let (rt, alloc) = (&rt, rt.alloc());
    says(rt, alloc, Fault::Dirty { path: a(rt, alloc) }, "unsaved change: d/a");
    says(rt, alloc, Fault::PathUnknown { path: a(rt, alloc) }, "no such path: d/a");
    says(rt, alloc, Fault::NotAnnexed { path: a(rt, alloc) }, "not annexed: d/a");
    says(rt, alloc, Fault::NotPinned { path: a(rt, alloc) }, "not pinned there: d/a");
    says(rt, alloc, Fault::NoSource { path: a(rt, alloc) }, "no source for d/a");
    says(rt, alloc, Fault::OddKind { path: a(rt, alloc) }, "neither file nor directory: d/a");
    says(rt, alloc, Fault::UnsupportedMode { path: a(rt, alloc) }, "link is not supported: d/a");
    says(rt, alloc, Fault::PathClash { path: a(rt, alloc) }, "file and directory: d/a");
    let copy = Fault::NoCopy { path: a(rt, alloc), key: key(rt, alloc) };
    says(rt, alloc, copy, "no copy of d/a: KEY");
    let size = 18446744073709551615;
    let want = "too large: d/a, 18446744073709551615";
    says(rt, alloc, Fault::TooLarge { path: a(rt, alloc), size }, want);
}

#[rattlefmt::skip]
#[test]
fn of_words(rt: HostRuntime) {
    let (rt, alloc) = (&rt, rt.alloc());
    says(rt, alloc, Fault::BadPath { at: 2 }, "bad path in word 2");
    says(rt, alloc, Fault::NoSuchRevision { word: a(rt, alloc) }, "no such revision: d/a");
    says(rt, alloc, Fault::BranchThere { name: a(rt, alloc) }, "branch exists: d/a");
    says(rt, alloc, Fault::BadBranch { name: a(rt, alloc) }, "bad branch name: d/a");
    says(rt, alloc, Fault::BadPlaceholder { at: 10 }, "bad placeholder at 10");
    says(rt, alloc, Fault::TimeFull { key: key(rt, alloc) }, "no later time: KEY");
    says(rt, alloc, Fault::SiblingThere { name: a(rt, alloc) }, "sibling exists: d/a");
    says(rt, alloc, Fault::BadName { name: a(rt, alloc) }, "bad name: d/a");
    says(rt, alloc, Fault::NoSibling { name: a(rt, alloc) }, "no sibling: d/a");
    says(rt, alloc, Fault::BadStream { at: 0 }, "bad stream at 0");
    says(rt, alloc, Fault::CheckFailed { errors: 2 }, "errors found: 2");
    let copies = Fault::TooFewCopies { key: key(rt, alloc), found: 1, needed: 2 };
    says(rt, alloc, copies, "too few copies of KEY: 1 found, 2 needed");
}

// A text that holds `ID` in place of the twenty bytes.
fn says_of(rt: &impl Abort, alloc: Global, fault: Fault, want: &str) {
    let id = "abababababababababababababababababababab";
    let want = want.replace(alloc, "ID", id).expect(rt, "memory");
    says(rt, alloc, fault, want.as_str());
}

#[rattlefmt::skip]
#[test]
fn of_ids(rt: HostRuntime) {
    let (rt, alloc) = (&rt, rt.alloc());
    says_of(rt, alloc, Fault::NoRecord { commit: ID }, "no run record: ID");
    says_of(rt, alloc, Fault::NoBase { commit: ID }, "no parent: ID");
    says_of(rt, alloc, Fault::MergeInRange { commit: ID }, "merge in the range: ID");
    says_of(rt, alloc, Fault::BadRecord { commit: ID, at: 3 }, "bad run record: ID at 3");
    says_of(rt, alloc, Fault::TooLong { commit: ID }, "history too long: ID");
    says_of(rt, alloc, Fault::BadTree { id: ID, at: 4 }, "bad tree: ID at 4");
    says_of(rt, alloc, Fault::BadCommit { id: ID, at: 5 }, "bad commit: ID at 5");
    says_of(rt, alloc, Fault::Missing { id: ID }, "missing object: ID");
    says_of(rt, alloc, Fault::Collision { id: ID }, "collision: ID");
    says_of(rt, alloc, Fault::NotExportable { commit: ID }, "cannot export: ID");
    let conflict = Fault::PickConflict { commit: ID, path: a(rt, alloc) };
    says_of(rt, alloc, conflict, "cannot pick ID: d/a");
    says_of(rt, alloc, Fault::PinMissing { path: a(rt, alloc), id: ID }, "d/a does not hold ID");
    let differs = Fault::ExitDiffers { commit: ID, recorded: 0, got: -1 };
    says_of(rt, alloc, differs, "ID ended with -1, recorded 0");
}

#[rattlefmt::skip]
#[test]
fn of_two_ids(rt: HostRuntime) {
    let (rt, alloc) = (&rt, rt.alloc());
    says_of(rt, alloc, Fault::Ambiguous { word: a(rt, alloc), first: ID, second: ONE },
        "ambiguous revision: d/a is ID and 0101010101010101010101010101010101010101");
    says_of(rt, alloc, Fault::Diverged { place: w(rt, alloc), ours: ID, theirs: ONE },
        "diverged: /w is at ID, not before 0101010101010101010101010101010101010101");
}

#[test]
fn of_lines(rt: HostRuntime) {
    let (rt, alloc) = (&rt, rt.alloc());
    let line = Line {
        action: text(rt, alloc, "add"),
        status: text(rt, alloc, "ok"),
        path: text(rt, alloc, "sub/a b.txt"),
        kind: text(rt, alloc, "file"),
    };
    let printed = line.text(alloc).expect(rt, "memory");
    is_text(rt, printed.as_str(), "add(ok): sub/a b.txt (file)\n");
}
