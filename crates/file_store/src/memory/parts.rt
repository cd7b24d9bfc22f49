// Files and parts of them, copied.
ghost use Rattle.std.specs.Prelude.{◌≡◌, ◌++◌, [], length, drop, IfOk, option_copied, option_map, unwrap_or};
ghost use Rattle.file_store.specs.Ends.{part_of};

use std::alloc::{AllocError, Global};

/// The bytes of a file. An absent one counts as empty.
pub(crate) fn copied(alloc: Global, file: Option<&Vec<u8>>) -> Result<Vec<u8>, AllocError>
    ensures { IfOk result (λ copy. copy.items ≡ unwrap_or
        (option_map (λ bytes. bytes.items) (option_copied file.entry)) []) }
{
    match file {
        Some(bytes) => Ok(bytes.as_slice().to_vec(alloc)?),
        None => Ok(Vec::new(alloc)),
    }
}

/// The bytes of a file, None where it is absent.
pub(crate) fn file_copied(
    alloc: Global,
    file: Option<&Vec<u8>>,
) -> Result<Option<Vec<u8>>, AllocError>
    ensures { IfOk result (λ copy. option_map (λ bytes. bytes.items) copy ≡ option_map
        (λ bytes. bytes.items) (option_copied file.entry)) }
{
    match file {
        Some(bytes) => Ok(Some(bytes.as_slice().to_vec(alloc)?)),
        None => Ok(None),
    }
}

/// Copies the bytes from that offset on, as far as they and the buffer go, and says how many.
pub(crate) fn copy_part(bytes: &[u8], from: u64, buffer: &mut [u8]) -> usize
    ensures count { result ≡ length (part_of bytes.now from (length buffer.old)) }
    ensures copied { buffer.new ≡ part_of bytes.now from (length buffer.old) ++ drop result buffer.old }
{
    let whole = bytes.len() as u64;
    if from >= whole {
        return 0;
    }
    copy_front(&bytes[from as usize..], buffer)
}

// Copies the first of the bytes, as many as the buffer holds.
fn copy_front(bytes: &[u8], buffer: &mut [u8]) -> usize
    ensures count { result ≡ length (part_of bytes.now 0 (length buffer.old)) }
    ensures copied { buffer.new ≡ part_of bytes.now 0 (length buffer.old) ++ drop result buffer.old }
{
    let count = bytes.len().min(buffer.len());
    buffer[..count].copy_from_slice(&bytes[..count]);
    count
}
