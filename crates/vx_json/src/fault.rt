//! Why a JSON value isn't what was wanted.

ghost use Rattle.std.specs.Prelude.{◌≡◌};
ghost use Rattle.vx_json.specs.declared.fault.JsonFault.TheVariants.{OutOfMemory};

use crate::path::Path;
use vx_base::OutOfMemory as AllocError;

/// What is wrong with a JSON value, and where.
#[derive(Debug, Drop)]
pub enum JsonFault {
    /// A member that is needed isn't there.
    Missing(Path),
    /// A value is of another kind.
    WrongKind(Path),
    /// A text or a number is outside its range.
    OutOfRange(Path),
    /// Memory ran out.
    OutOfMemory,
}

impl From<AllocError> for JsonFault {
    ghost from_gives = { λ _ fault. fault ≡ OutOfMemory };

    fn from(_e: AllocError) -> JsonFault {
        JsonFault::OutOfMemory
    }
}
