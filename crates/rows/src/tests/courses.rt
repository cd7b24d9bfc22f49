// What a crash leaves beside a course of grounds: at each place outside the unfinished writes it
// has what one of two neighbours of the course has there. A ground is given as a list of files.
use super::files::{File, list_of, rows_of};
use file_store::MemFiles;
use std::alloc::Global;
use std::process::Abort;

fn bytes_at<'a>(files: &[File<'a>], place: &str) -> Option<&'a [u8]> {
    for file in files {
        if file.place == place {
            return Some(file.bytes);
        }
    }
    None
}

fn is_unfinished(place: &str) -> bool {
    place.contains("/.dlrepo/tmp/")
}

// At this place the files have what the first or the second ground has there.
fn agrees_at(place: &str, files: &[File<'_>], first: &[File<'_>], second: &[File<'_>]) -> bool {
    let found = bytes_at(files, place);
    found == bytes_at(first, place) || found == bytes_at(second, place)
}

// At each place of the files.
fn agrees_on_files<'a, 'b>(files: &[File<'a>], first: &[File<'b>], second: &[File<'b>]) -> bool {
    for file in files {
        if !is_unfinished(file.place) && !agrees_at(file.place, files, first, second) {
            return false;
        }
    }
    true
}

// At each place of these rows, which are those of one of the grounds.
fn agrees_on_rows<'a, 'b>(
    rows: &[File<'b>],
    files: &[File<'a>],
    first: &[File<'b>],
    second: &[File<'b>],
) -> bool {
    for row in rows {
        if !is_unfinished(row.place) && !agrees_at(row.place, files, first, second) {
            return false;
        }
    }
    true
}

fn lies_between<'a, 'b>(files: &[File<'a>], first: &[File<'b>], second: &[File<'b>]) -> bool {
    agrees_on_files(files, first, second)
        && agrees_on_rows(first, files, first, second)
        && agrees_on_rows(second, files, first, second)
}

pub(super) fn lies_along<'a, 'b>(files: &[File<'a>], course: &[Vec<File<'b>>]) -> bool {
    for at in 1..course.len() {
        if lies_between(files, course[at - 1].as_slice(), course[at].as_slice()) {
            return true;
        }
    }
    false
}

// The binary digits of a number, the lowest first.
fn digits(number: u16) -> [u8; 10] {
    let mut digits = [0; 10];
    let mut rest = number;
    for digit in &mut digits {
        *digit = u8::from(rest % 2 == 1);
        rest /= 2;
    }
    digits
}

fn image_of(rt: &impl Abort, alloc: Global, files: &MemFiles, choices: &[u8]) -> MemFiles {
    let image = files.image(alloc, choices).expect(rt, "memory");
    image.expect(rt, "no file above another")
}

fn image_is_along(rt: &impl Abort, alloc: Global, image: &MemFiles, course: &[Vec<File<'_>>]) {
    let list = list_of(rt, alloc, image);
    let rows = rows_of(rt, alloc, list.as_slice());
    assert!(rt; lies_along(rows.as_slice(), course));
}

// How many places are open, which are no more than there are choices.
fn open_count(rt: &impl Abort, alloc: Global, files: &MemFiles) -> usize {
    let open = files.open_places(alloc).expect(rt, "memory");
    assert!(rt; open.len() <= 10);
    open.len()
}

// The greatest number of so many binary digits.
fn greatest(count: usize) -> u16 {
    let mut number: u16 = 0;
    for _ in 0..count {
        number = number.saturating_mul(2).saturating_add(1);
    }
    number
}

/// Whatever a crash leaves lies along the course, by every choice of what is safe and what stands
/// for up to ten open places.
pub(super) fn is_along(rt: &impl Abort, alloc: Global, files: &MemFiles, course: &[Vec<File<'_>>]) {
    let last = greatest(open_count(rt, alloc, files));
    for number in 0..=last {
        let image = image_of(rt, alloc, files, &digits(number));
        image_is_along(rt, alloc, &image, course);
    }
}
