//! What is asked of a real file, and what the answers of the system are told as.

ghost use Rattle.std.specs.Prelude.{◌≡◌, ◌<◌, ◌↔◌, IfOk, IsOk};
ghost use Rattle.std.specs.Fs.{IsFile, file_type, metadata_len};
ghost use Rattle.vx_io.specs.Real.{count_told, piece_of, size_told};

use crate::outside::Failed;
use std::fs::Metadata;
use std::io;
use std::io::ErrorKind;

/// A part of a file: where it begins, counted from 0, and how many bytes it has.
#[derive(Clone, Copy)]
pub(crate) struct Piece {
    pub from: u64,
    pub count: usize,
}

/// What is asked of a file of `size` bytes from the offset `at` on, for a buffer of `room` bytes: as
/// much as both have. It is no byte more, so that what lies behind it in the buffer stays as it was.
pub(crate) fn piece_of(room: usize, size: u64, at: u64) -> Piece
    ensures { result ≡ piece_of room size at }
{
    Piece {
        from: at,
        count: room.min(size.saturating_sub(at) as usize),
    }
}

/// The size of a regular file, by what the system says of it. A folder, a pipe and a device have none:
/// what comes of them isn't a file of 0 bytes.
pub(crate) fn size_of(found: &Metadata) -> io::Result<u64>
    ensures regular { IsOk result ↔ IsFile (file_type found.now) }
    ensures size { IfOk result (λ size. size ≡ metadata_len found.now) }
{
    if !found.is_file() {
        return Err(io::Error::from(ErrorKind::InvalidInput));
    }
    Ok(found.len())
}

/// What the question for a file's size is answered, by what the system said: a file that isn't there
/// is none, and any other error is a fault.
pub(crate) fn size_told(size: io::Result<u64>) -> Result<Option<u64>, Failed>
    ensures { result ≡ size_told size }
{
    match size {
        Ok(size) => Ok(Some(size)),
        Err(error) if error.kind() == ErrorKind::NotFound => Ok(None),
        Err(_) => Err(Failed),
    }
}

/// What reading or writing is answered, by how many bytes the system read or wrote: none at all is a
/// fault, as an error is.
pub(crate) fn count_told(count: io::Result<usize>) -> Result<usize, Failed>
    ensures told { result ≡ count_told count }
    ensures some { IfOk result (λ count. 0 < count) }
{
    match count {
        Ok(count) if count > 0 => Ok(count),
        _ => Err(Failed),
    }
}
