use std::alloc::AllocError;
use thiserror::Error;

/// Why words are read as no command.
#[derive(Debug, Drop, Error)]
pub enum UsageFault {
    /// They are none.
    #[error("the words are no command")]
    Usage,
    /// Memory ran out.
    #[error("out of memory")]
    OutOfMemory,
}

impl From<AllocError> for UsageFault {
    ghost use Rattle.std.specs.Prelude.{◌≡◌};
    ghost use Rattle.vx_words.specs.declared.fault.UsageFault.TheVariants as faults;

    ghost from_gives = { λ _ fault. fault ≡ faults.OutOfMemory };

    fn from(_refused: AllocError) -> UsageFault {
        UsageFault::OutOfMemory
    }
}
