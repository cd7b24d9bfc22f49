// Location logs: what is read and refused, printed, noted and merged.
use location_log::{Claim, LogErr, LogLine, merge, note, present, print, read, reread};
use std::alloc::Global;
use std::process::Abort;

const ONE: &str = "490cbdc2-0d82-5cbd-94d8-aba5bedae8d0";

const TWO: &str = "01234567-89ab-5cde-8f01-23456789abcd";

// The line with this front and UUID.
fn line_of(rt: &impl Abort, alloc: Global, front: &str, uuid: &str) -> LogLine {
    let text = format!(in alloc; "{front}{uuid}\n").expect(rt, "memory");
    let lines = read(alloc, text.as_str().as_bytes()).expect(rt, "a log");
    *lines.as_slice().first().expect(rt, "a line")
}

fn prints(rt: &impl Abort, alloc: Global, lines: &[LogLine], front: &str, uuid: &str) {
    let want = format!(in alloc; "{front}{uuid}\n").expect(rt, "memory");
    let text = print(alloc, lines).expect(rt, "memory");
    assert_eq!(rt; text.as_slice(), want.as_str().as_bytes());
}

// The line at which a text is out of form; 0 where it is a log.
fn bad_line(rt: &impl Abort, alloc: Global, front: &str, end: &str) -> u64 {
    let text = format!(in alloc; "{front}{ONE}{end}").expect(rt, "memory");
    match read(alloc, text.as_str().as_bytes()) {
        Ok(_) => 0,
        Err(LogErr::BadLog { line }) => line,
        Err(_) => 1000,
    }
}

#[test]
fn texts_of_logs(rt: HostRuntime) {
    let rows = [
        ("0s 1 ", ""),
        ("5s 0 ", "\n"),
        ("5.0s 1 ", "\n"),
        ("5.000000000s X ", "\n\n\n"),
        ("\n\n5.123456789s 1 ", "\n"),
        ("18446744073709551615s 1 ", "\n"),
    ];
    for (front, end) in rows {
        assert_eq!(&rt; bad_line(&rt, rt.alloc(), front, end), 0, "{front}");
    }
}

#[test]
fn texts_of_none(rt: HostRuntime) {
    let rows = [
        ("05s 1 ", "\n", 1),
        ("+5s 1 ", "\n", 1),
        ("-5s 1 ", "\n", 1),
        ("s 1 ", "\n", 1),
        (".5s 1 ", "\n", 1),
        ("5.s 1 ", "\n", 1),
        ("5.5.5s 1 ", "\n", 1),
        ("5.1234567890s 1 ", "\n", 1),
        ("18446744073709551616s 1 ", "\n", 1),
        ("5 1 ", "\n", 1),
        ("5s  1 ", "\n", 1),
        (" 5s 1 ", "\n", 1),
        ("5s\t1 ", "\n", 1),
        ("5s 2 ", "\n", 1),
        ("5s x ", "\n", 1),
        ("5s 1 {", "}\n", 1),
        ("5s 1 ", " \n", 1),
        ("5s 1 ", "\r\n", 1),
        ("\r\n5s 1 ", "\n", 1),
        ("\n\n5s 2 ", "\n", 3),
        ("5s 1 ", "\n\n5s 1\n", 3),
    ];
    for (front, end, line) in rows {
        assert_eq!(&rt; bad_line(&rt, rt.alloc(), front, end), line, "{front}");
    }
}

fn reads(rt: &impl Abort, alloc: Global, front: &str, secs: u64, nanos: u32, claim: Claim) {
    let line = line_of(rt, alloc, front, ONE);
    assert_eq!(rt; line.secs(), secs);
    assert_eq!(rt; line.nanos(), nanos);
    assert!(rt; line.claim() == claim, "{front}");
}

#[test]
fn lines_that_are_read(rt: HostRuntime) {
    let alloc = rt.alloc();
    reads(&rt, alloc, "5.5s X ", 5, 500_000_000, Claim::Dead);
    reads(&rt, alloc, "5.000000007s 0 ", 5, 7, Claim::Absent);
    reads(&rt, alloc, "7.12345678s 1 ", 7, 123_456_780, Claim::Present);
    reads(
        &rt,
        alloc,
        "1700000100s 1 ",
        1_700_000_100,
        0,
        Claim::Present,
    );
}

fn prints_as(rt: &impl Abort, alloc: Global, front: &str, want: &str) {
    let line = line_of(rt, alloc, front, ONE);
    prints(rt, alloc, &[line], want, ONE);
    let again = reread(alloc, &[line]).expect(rt, "memory");
    prints(rt, alloc, again.as_slice(), want, ONE);
}

#[test]
fn lines_that_are_printed(rt: HostRuntime) {
    let alloc = rt.alloc();
    prints_as(&rt, alloc, "5.0s 1 ", "5s 1 ");
    prints_as(&rt, alloc, "5.07s 0 ", "5.070000000s 0 ");
    prints_as(&rt, alloc, "5.000000007s X ", "5.000000007s X ");
    let capital = line_of(&rt, alloc, "5s 1 ", "490CBDC2-0D82-5CBD-94D8-ABA5BEDAE8D0");
    prints(&rt, alloc, &[capital], "5s 1 ", ONE);
}

// Notes of the repository of a line at a moment, and prints what counts then.
fn notes(rt: &impl Abort, alloc: Global, old: &str, here: bool, moment: u64, want: &str) {
    let line = line_of(rt, alloc, old, ONE);
    let noted = note(alloc, &[line], &line.uuid(), here, moment).expect(rt, "a note");
    prints(rt, alloc, noted.as_slice(), want, ONE);
    assert!(rt; present(noted.as_slice(), &line.uuid()) == here);
}

#[test]
fn claims_that_are_noted(rt: HostRuntime) {
    let alloc = rt.alloc();
    notes(&rt, alloc, "5.5s X ", true, 5, "6s 1 ");
    notes(&rt, alloc, "5s 1 ", false, 1_700_000_100, "1700000100s 0 ");
    notes(&rt, alloc, "1700000100s 0 ", true, 5, "1700000101s 1 ");
    let uuid = line_of(&rt, alloc, "5s 1 ", ONE).uuid();
    let first = note(alloc, &[], &uuid, true, 1_700_000_100).expect(&rt, "a note");
    prints(&rt, alloc, first.as_slice(), "1700000100s 1 ", ONE);
}

#[test]
fn times_that_are_full(rt: HostRuntime) {
    let alloc = rt.alloc();
    let line = line_of(&rt, alloc, "18446744073709551615s 1 ", ONE);
    match note(alloc, &[line], &line.uuid(), true, 5) {
        Err(LogErr::TimeFull) => (),
        _ => panic!(&rt; "a later second"),
    }
    assert!(&rt; note(alloc, &[], &line.uuid(), true, u64::MAX).is_ok());
}

// Merges two lines of a repository in both orders.
fn merges(rt: &impl Abort, alloc: Global, one: &str, two: &str, want: &str) {
    let a = line_of(rt, alloc, one, ONE);
    let b = line_of(rt, alloc, two, ONE);
    let ab = merge(alloc, &[a], &[b]).expect(rt, "memory");
    let ba = merge(alloc, &[b], &[a]).expect(rt, "memory");
    prints(rt, alloc, ab.as_slice(), want, ONE);
    prints(rt, alloc, ba.as_slice(), want, ONE);
}

#[test]
fn logs_that_are_merged(rt: HostRuntime) {
    let alloc = rt.alloc();
    merges(&rt, alloc, "5s 1 ", "5s 0 ", "5s 0 ");
    merges(&rt, alloc, "5s X ", "5s 0 ", "5s X ");
    merges(&rt, alloc, "5s X ", "5.000000001s 1 ", "5.000000001s 1 ");
    merges(&rt, alloc, "6s 1 ", "5.9s X ", "6s 1 ");
}

#[test]
fn repositories_in_order(rt: HostRuntime) {
    let alloc = rt.alloc();
    let one = line_of(&rt, alloc, "5s 1 ", ONE);
    let two = line_of(&rt, alloc, "7s 0 ", TWO);
    let both = merge(alloc, &[one], &[two]).expect(&rt, "memory");
    let front = format!(in alloc; "7s 0 {TWO}\n5s 1 ").expect(&rt, "memory");
    prints(&rt, alloc, both.as_slice(), front.as_str(), ONE);
    assert!(&rt; present(both.as_slice(), &one.uuid()));
    assert!(&rt; !present(both.as_slice(), &two.uuid()));
}
