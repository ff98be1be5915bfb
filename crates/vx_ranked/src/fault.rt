//! Why a file of ranked contests is refused.

ghost use Rattle.std.specs.Prelude.{◌≡◌};
ghost use Rattle.vx_ranked.specs.declared.fault.RankedFault.TheVariants.{OutOfMemory};
ghost use Rattle.vx_ranked.specs.Faults.{fault_of};

use std::alloc::AllocFailed;
use std::fmt;
use vx_base::OutOfMemory as AllocError;
use vx_json::{JsonFault, Path, Text};

/// The first fault of a file of ranked contests. A path names a member, as `ranked[2].contests[0]`.
#[derive(Drop)]
pub enum RankedFault {
    /// The bytes aren't JSON in UTF-8.
    NotJson,
    /// A member that is needed isn't there.
    Missing(Path),
    /// A member is of another kind.
    WrongKind(Path),
    /// A text isn't of an id's form, or a list's length is outside its range.
    OutOfRange(Path),
    /// A group's id that stands earlier, or a contest that is named earlier.
    RepeatedId(Path, Text),
    /// A contest that the election has not.
    UnknownId(Path, Text),
    /// A contest that can't be ranked, or isn't like the first of its group.
    Unlike(Path),
    /// A card that has contests of a group on more than one sheet, and the group's id.
    Split(u32, Text),
    /// Memory ran out.
    OutOfMemory,
}

impl From<JsonFault> for RankedFault {
    ghost from_gives = { λ fault result. result ≡ fault_of fault };

    fn from(fault: JsonFault) -> RankedFault {
        match fault {
            JsonFault::Missing(path) => RankedFault::Missing(path),
            JsonFault::WrongKind(path) => RankedFault::WrongKind(path),
            JsonFault::OutOfRange(path) => RankedFault::OutOfRange(path),
            JsonFault::OutOfMemory => RankedFault::OutOfMemory,
        }
    }
}

impl From<AllocError> for RankedFault {
    ghost from_gives = { λ _ result. result ≡ OutOfMemory };

    fn from(_e: AllocError) -> RankedFault {
        RankedFault::OutOfMemory
    }
}

impl<T: Drop> From<AllocFailed<T>> for RankedFault {
    ghost from_gives = { λ _ result. result ≡ OutOfMemory };

    fn from(_e: AllocFailed<T>) -> RankedFault {
        RankedFault::OutOfMemory
    }
}

/// The fault's number, and its values with blanks between.
impl fmt::Display for RankedFault {
    ghost use Rattle.std.specs.Prelude.{Some};
    ghost use Rattle.vx_ranked.specs.FaultTexts.{text_of};

    ghost output = { λ fault. Some (text_of fault) };

    fn fmt<W: fmt::Write>(&self, f: &mut fmt::Formatter<W>) -> fmt::Result {
        match self {
            RankedFault::NotJson => f.write_str("1"),
            RankedFault::Missing(path) => write!(f, "2 {}", path.as_str()),
            RankedFault::WrongKind(path) => write!(f, "3 {}", path.as_str()),
            RankedFault::OutOfRange(path) => write!(f, "4 {}", path.as_str()),
            RankedFault::RepeatedId(path, id) => write!(f, "5 {} {}", path.as_str(), id.as_str()),
            RankedFault::UnknownId(path, id) => write!(f, "6 {} {}", path.as_str(), id.as_str()),
            RankedFault::Unlike(path) => write!(f, "7 {}", path.as_str()),
            RankedFault::Split(card, id) => write!(f, "8 {card} {}", id.as_str()),
            RankedFault::OutOfMemory => f.write_str("out of memory"),
        }
    }
}
