//! What SQLite's refusals are told as.

ghost use Rattle.std.specs.Prelude.{◌≡◌, Err, MatchResult, Ok};
ghost use Rattle.vx_keep_sqlite.specs.Refusals.{refusal_of};

use sqlite::{Error, ErrorCode};
use sqlite_resolve::CompileError;
use vx_io::KeeperError;

/// What refused a statement or an opening: want of memory, or the device.
pub(crate) fn refusal(error: Error) -> KeeperError
    ensures { result ≡ refusal_of error }
{
    match error {
        Error::SqliteFailure(ErrorCode::OutOfMemory)
        | Error::SqlInputError(CompileError::OutOfMemory) => KeeperError::OutOfMemory,
        _ => KeeperError::Failed,
    }
}

/// The same answer, with its refusal told as want of memory or as a fault of the device.
pub(crate) fn told<T>(answer: Result<T, Error>) -> Result<T, KeeperError>
    ensures { MatchResult answer (λ value. result ≡ Ok value) (λ error. result ≡ Err (refusal_of error)) }
{
    match answer {
        Ok(value) => Ok(value),
        Err(error) => Err(refusal(error)),
    }
}
