//! Why a report is refused.

ghost use Rattle.std.specs.Prelude.{◌≡◌, IfOk};
ghost use Rattle.vx_tally.specs.declared.fault.ReportFault.TheVariants.{OutOfMemory, RepeatedId, UnknownId};
ghost use Rattle.vx_tally.specs.Faults.{fault_of};

use std::alloc::{AllocFailed, Global};
use std::fmt;
use vx_base::OutOfMemory as AllocError;
use vx_json::{JsonFault, Path, Text};

/// The first fault of a report. A path names a member, as `CVR[2].CVRSnapshot[0].CVRContest`.
#[derive(Drop)]
pub enum ReportFault {
    /// The bytes aren't JSON in UTF-8.
    NotJson,
    /// A member that is needed isn't there.
    Missing(Path),
    /// A member is of another kind.
    WrongKind(Path),
    /// A text isn't of an id's form, a number is outside its range, or a list's length is.
    OutOfRange(Path),
    /// An id that stands earlier.
    RepeatedId(Path, Text),
    /// A reference to an id that the report has not.
    UnknownId(Path, Text),
    /// Memory ran out.
    OutOfMemory,
}

impl ReportFault {
    /// The fault of an id at a path that stands earlier.
    pub(crate) fn repeated(alloc: Global, path: &Path, id: &str) -> Result<ReportFault, AllocError>
        ensures { IfOk result (λ fault. fault ≡ RepeatedId path.now id.now) }
    {
        let id = Text::from_str(alloc, id)?;
        Ok(ReportFault::RepeatedId(path.copy(alloc)?, id))
    }

    /// The fault of an id at a path that the report has not.
    pub(crate) fn unknown(alloc: Global, path: &Path, id: &str) -> Result<ReportFault, AllocError>
        ensures { IfOk result (λ fault. fault ≡ UnknownId path.now id.now) }
    {
        let id = Text::from_str(alloc, id)?;
        Ok(ReportFault::UnknownId(path.copy(alloc)?, id))
    }
}

impl From<JsonFault> for ReportFault {
    ghost from_gives = { λ fault result. result ≡ fault_of fault };

    fn from(fault: JsonFault) -> ReportFault {
        match fault {
            JsonFault::Missing(path) => ReportFault::Missing(path),
            JsonFault::WrongKind(path) => ReportFault::WrongKind(path),
            JsonFault::OutOfRange(path) => ReportFault::OutOfRange(path),
            JsonFault::OutOfMemory => ReportFault::OutOfMemory,
        }
    }
}

impl From<AllocError> for ReportFault {
    ghost from_gives = { λ _ result. result ≡ OutOfMemory };

    fn from(_e: AllocError) -> ReportFault {
        ReportFault::OutOfMemory
    }
}

impl<T: Drop> From<AllocFailed<T>> for ReportFault {
    ghost from_gives = { λ _ result. result ≡ OutOfMemory };

    fn from(_e: AllocFailed<T>) -> ReportFault {
        ReportFault::OutOfMemory
    }
}

/// The fault's number, and its values with blanks between.
impl fmt::Display for ReportFault {
    ghost use Rattle.std.specs.Prelude.{Some};
    ghost use Rattle.vx_tally.specs.FaultTexts.{text_of};

    ghost output = { λ fault. Some (text_of fault) };

    fn fmt<W: fmt::Write>(&self, f: &mut fmt::Formatter<W>) -> fmt::Result {
        match self {
            ReportFault::NotJson => f.write_str("1"),
            ReportFault::Missing(path) => write!(f, "2 {}", path.as_str()),
            ReportFault::WrongKind(path) => write!(f, "3 {}", path.as_str()),
            ReportFault::OutOfRange(path) => write!(f, "4 {}", path.as_str()),
            ReportFault::RepeatedId(path, id) => write!(f, "5 {} {}", path.as_str(), id.as_str()),
            ReportFault::UnknownId(path, id) => write!(f, "6 {} {}", path.as_str(), id.as_str()),
            ReportFault::OutOfMemory => f.write_str("out of memory"),
        }
    }
}
