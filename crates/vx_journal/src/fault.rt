use std::alloc::AllocError;
use vx_io::KeeperError;
use vx_refusals::JournalStop;

/// Why a journal wasn't read.
#[derive(Clone, Copy, Debug, PartialEq, Eq)]
pub enum ReplayFault {
    /// The record of that index, from 0, stops the reading.
    Stopped(u64, JournalStop),
    /// The keeper failed; its count of faults rose in the call.
    Failed,
    /// There was no memory.
    OutOfMemory,
}

impl From<AllocError> for ReplayFault {
    ghost use Rattle.std.specs.Prelude.{◌≡◌};
    ghost use Rattle.vx_journal.specs.declared.fault.ReplayFault.TheVariants as faults;

    ghost from_gives = { λ _ fault. fault ≡ faults.OutOfMemory };

    fn from(_refused: AllocError) -> ReplayFault {
        ReplayFault::OutOfMemory
    }
}

impl From<KeeperError> for ReplayFault {
    ghost use Rattle.std.specs.Prelude.{◌≡◌};
    ghost use Rattle.vx_journal.specs.Replaying.{keeper_fault};

    ghost from_gives = { λ error fault. fault ≡ keeper_fault error };

    fn from(error: KeeperError) -> ReplayFault {
        match error {
            KeeperError::Failed => ReplayFault::Failed,
            KeeperError::OutOfMemory => ReplayFault::OutOfMemory,
        }
    }
}
