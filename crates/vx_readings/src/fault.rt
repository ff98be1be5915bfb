use vx_base::OutOfMemory as AllocError;

/// Why a text of readings isn't read on.
#[derive(Debug, Clone, Copy, PartialEq, Eq)]
pub enum ReadingsFault {
    /// This line, counted from 1, leaves the grammar; or it would come next where the text ends.
    Line(u32),
    /// Memory ran out.
    OutOfMemory,
}

impl From<AllocError> for ReadingsFault {
    ghost use Rattle.std.specs.Prelude.{◌≡◌};
    ghost use Rattle.vx_readings.specs.declared.fault.ReadingsFault.TheVariants.{OutOfMemory};

    ghost from_gives = { λ _ fault. fault ≡ OutOfMemory };

    fn from(_refused: AllocError) -> ReadingsFault {
        ReadingsFault::OutOfMemory
    }
}
