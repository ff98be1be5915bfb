//! Why an election definition is refused.

ghost use Rattle.std.specs.Prelude.{◌≡◌};
ghost use Rattle.vx_election.specs.declared.fault.ElectionFault.TheVariants.{OutOfMemory};
ghost use Rattle.vx_election.specs.Faults.{fault_of};

use std::alloc::AllocFailed;
use std::fmt;
use vx_base::OutOfMemory as AllocError;
use vx_json::{JsonFault, Path, Text};

/// The first fault of an election definition. A path names a member, as `contests[2].id`.
#[derive(Drop)]
pub enum ElectionFault {
    /// The bytes aren't JSON in UTF-8.
    NotJson,
    /// A member that is needed isn't there.
    Missing(Path),
    /// A member is of another kind.
    WrongKind(Path),
    /// A text or a number is outside its range, or a text isn't of its form.
    OutOfRange(Path),
    /// An id that stands earlier in the same list.
    RepeatedId(Path, Text),
    /// A reference to an id that the list has not.
    UnknownId(Path, Text),
    /// The thresholds, in pixels, aren't in their order and range.
    BadThresholds(u32, u32),
    /// A list with more elements than it may have, and how many it has.
    TooMany(Path, u64),
    /// More cards than there may be, and how many there are.
    TooManyCards(u64),
    /// Memory ran out.
    OutOfMemory,
}

impl From<JsonFault> for ElectionFault {
    ghost from_gives = { λ fault result. result ≡ fault_of fault };

    fn from(fault: JsonFault) -> ElectionFault {
        match fault {
            JsonFault::Missing(path) => ElectionFault::Missing(path),
            JsonFault::WrongKind(path) => ElectionFault::WrongKind(path),
            JsonFault::OutOfRange(path) => ElectionFault::OutOfRange(path),
            JsonFault::OutOfMemory => ElectionFault::OutOfMemory,
        }
    }
}

impl From<AllocError> for ElectionFault {
    ghost from_gives = { λ _ result. result ≡ OutOfMemory };

    fn from(_e: AllocError) -> ElectionFault {
        ElectionFault::OutOfMemory
    }
}

impl<T: Drop> From<AllocFailed<T>> for ElectionFault {
    ghost from_gives = { λ _ result. result ≡ OutOfMemory };

    fn from(_e: AllocFailed<T>) -> ElectionFault {
        ElectionFault::OutOfMemory
    }
}

/// The fault's number, and its values with blanks between.
impl fmt::Display for ElectionFault {
    ghost use Rattle.std.specs.Prelude.{Some};
    ghost use Rattle.vx_election.specs.FaultTexts.{text_of};

    ghost output = { λ fault. Some (text_of fault) };

    fn fmt<W: fmt::Write>(&self, f: &mut fmt::Formatter<W>) -> fmt::Result {
        match self {
            ElectionFault::NotJson => f.write_str("1"),
            ElectionFault::Missing(path) => write!(f, "2 {}", path.as_str()),
            ElectionFault::WrongKind(path) => write!(f, "3 {}", path.as_str()),
            ElectionFault::OutOfRange(path) => write!(f, "4 {}", path.as_str()),
            ElectionFault::RepeatedId(path, id) => write!(f, "5 {} {}", path.as_str(), id.as_str()),
            ElectionFault::UnknownId(path, id) => write!(f, "6 {} {}", path.as_str(), id.as_str()),
            ElectionFault::BadThresholds(marg, def) => write!(f, "7 {marg} {def}"),
            ElectionFault::TooMany(path, count) => write!(f, "8 {} {count}", path.as_str()),
            ElectionFault::TooManyCards(count) => write!(f, "9 {count}"),
            ElectionFault::OutOfMemory => f.write_str("out of memory"),
        }
    }
}

/// The same text.
impl fmt::Debug for ElectionFault {
    fn fmt<W: fmt::Write>(&self, f: &mut fmt::Formatter<W>) -> fmt::Result {
        fmt::Display::fmt(self, f)
    }
}
