// What the host says of a path.
ghost use Rattle.std.specs.Prelude.{◌≤◌, length, IfOk};

use file_store::Kind;
use std::alloc::Global;
use std::fs::{self, OpenFile};
use std::io::{self, Error, ErrorKind, Read, Seek, SeekFrom};

// Nothing is there, or a file is in the way.
fn is_absent(error: &Error) -> bool {
    error.kind() == ErrorKind::NotFound || error.kind() == ErrorKind::NotADirectory
}

/// What stands there: a link or another thing is Other, a directory without entries Absent.
pub(crate) fn kind_of<R: std::rt::Files + AllocGlobal + Clone + Drop>(
    rt: &R,
    path: &str,
) -> io::Result<Kind> {
    let data = match fs::symlink_metadata(rt, path) {
        Ok(data) => data,
        Err(e) => {
            if is_absent(&e) {
                return Ok(Kind::Absent);
            }
            return Err(e);
        }
    };
    if data.is_file() {
        return Ok(Kind::File);
    }
    if !data.is_dir() {
        return Ok(Kind::Other);
    }
    kind_of_directory(rt, path)
}

// A directory with an entry is something, whatever the entry's name.
fn kind_of_directory<R: std::rt::Files + AllocGlobal + Clone + Drop>(
    rt: &R,
    path: &str,
) -> io::Result<Kind> {
    let Some(entry) = fs::read_dir(rt, path)?.next() else {
        return Ok(Kind::Absent);
    };
    match entry {
        Ok(_) => Ok(Kind::Dir),
        Err(e) => {
            if e.kind() == ErrorKind::InvalidFilename {
                return Ok(Kind::Dir);
            }
            Err(e)
        }
    }
}

/// Whether a directory stands there, or a link to one.
pub(crate) fn is_directory<R: std::rt::Files>(rt: &R, path: &str) -> io::Result<bool> {
    match fs::metadata(rt, path) {
        Ok(data) => Ok(data.is_dir()),
        Err(e) => {
            if is_absent(&e) {
                return Ok(false);
            }
            Err(e)
        }
    }
}

/// The size of the file there, None where there is none. What is neither file nor directory is an
/// error.
pub(crate) fn size_of<R: std::rt::Files + AllocGlobal + Clone + Drop>(
    rt: &R,
    path: &str,
) -> io::Result<Option<u64>> {
    match fs::symlink_metadata(rt, path) {
        Ok(data) => {
            if data.is_file() {
                return Ok(Some(data.len()));
            }
            if data.is_dir() {
                return Ok(None);
            }
            Err(Error::from(ErrorKind::InvalidData))
        }
        Err(e) => {
            if is_absent(&e) {
                return Ok(None);
            }
            Err(e)
        }
    }
}

// Fills the buffer as far as the reader goes.
fn fill<F: Read>(file: &mut F, buffer: &mut [u8]) -> io::Result<usize>
    ensures { IfOk result (λ count. count ≤ length buffer.old) }
{
    let mut done = 0;
    while done < buffer.len() {
        let count = file.read(&mut buffer[done..])?;
        if count == 0 {
            return Ok(done);
        }
        done += count;
    }
    Ok(done)
}

/// Fills the buffer from an offset on, as far as the file goes; nothing where there is no file.
pub(crate) fn fill_from<R: std::rt::Files + AllocGlobal + Clone + Drop>(
    rt: &R,
    path: &str,
    from: u64,
    buffer: &mut [u8],
) -> io::Result<usize>
    ensures { IfOk result (λ count. count ≤ length buffer.old) }
{
    let Some(size) = size_of(rt, path)? else {
        return Ok(0);
    };
    if from >= size {
        return Ok(0);
    }
    let mut file = fs::open(rt, path)?;
    file.seek(SeekFrom::Start(from))?;
    fill(&mut file, buffer)
}

/// The whole file, None where there is none. A file that ends earlier than its size, or goes on, is
/// an error.
pub(crate) fn read_whole<R: std::rt::Files + AllocGlobal + Clone + Drop>(
    rt: &R,
    alloc: Global,
    path: &str,
) -> io::Result<Option<Vec<u8>>> {
    let Some(size) = size_of(rt, path)? else {
        return Ok(None);
    };
    let Ok(size) = usize::try_from(size) else {
        return Err(Error::from(ErrorKind::OutOfMemory));
    };
    let mut file = fs::open(rt, path)?;
    let mut bytes = vec![in alloc; 0u8; size]?;
    if fill(&mut file, bytes.as_mut_slice())? != size {
        return Err(Error::from(ErrorKind::UnexpectedEof));
    }
    let mut more = [0u8; 1];
    if fill(&mut file, &mut more)? != 0 {
        return Err(Error::from(ErrorKind::InvalidData));
    }
    Ok(Some(bytes))
}
