ghost use Rattle.std.specs.Prelude.{◌≡◌, IfErr, IfOk};
ghost use Rattle.std.specs.Option.{ForSome};
ghost use Rattle.vx_command.specs.Devices.{TouchesKeeper};
ghost use Rattle.vx_election_model.specs.Valid.{IsValid};
ghost use Rattle.vx_journal.specs.Keeping.{journal_in};
ghost use Rattle.vx_journal.specs.Replaying.{replay_halt};
ghost use Rattle.vx_journal.specs.Steps.{GivesReading, IsReadingHalt};

use crate::fault::ReplayFault;
use crate::journal::Journal;
use crate::replaying::read_records;
use std::alloc::Global;
use vx_command::Halt;
use vx_election_model::Election;
use vx_io::{Keeper, KeeperError};

/// Why a command halts whose journal wasn't read.
fn halt_of_replay(fault: ReplayFault) -> Halt
    ensures exact { result ≡ replay_halt fault }
    ensures halts { IsReadingHalt result }
{
    match fault {
        ReplayFault::Stopped(index, stop) => Halt::Journal(index, stop),
        ReplayFault::Failed => Halt::KeeperFault,
        ReplayFault::OutOfMemory => Halt::NoMemory,
    }
}

/// Reads the journal of an election, record by record.
pub fn read_journal<'e, K: Keeper>(
    alloc: Global,
    election: &'e Election,
    keeper: &mut K,
) -> Result<Journal<'e>, Halt>
    requires { IsValid election.now }
    ensures told { ForSome (K.held keeper.old) (λ records.
        GivesReading result (journal_in election.now records)) }
    ensures election { IfOk result (λ journal. journal.center.election ≡ election.now) }
    ensures halts { IfErr result IsReadingHalt }
    ensures held { K.held keeper.new ≡ K.held keeper.old }
    ensures keeper { TouchesKeeper K.Keeper keeper.old keeper.new result }
{
    let count = match keeper.count() {
        Ok(count) => count,
        Err(KeeperError::Failed) => return Err(Halt::KeeperFault),
        Err(KeeperError::OutOfMemory) => return Err(Halt::NoMemory),
    };
    match read_records(alloc, election, keeper, count) {
        Ok(center) => Ok(Journal {
            center,
            is_new: count == 0,
        }),
        Err(fault) => Err(halt_of_replay(fault)),
    }
}
