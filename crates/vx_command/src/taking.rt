ghost use Rattle.std.specs.Prelude.{◌≤◌, ◌∷◌, [], length, is_ok, IfOk, IfErr};
ghost use Rattle.std.specs.Option.{ForSome};
ghost use Rattle.vx_base.specs.Refusals.{Gives};
ghost use Rattle.vx_election.specs.Reading.{election_of};
ghost use Rattle.vx_election_model.specs.Valid.{IsValid};
ghost use Rattle.vx_command.specs.Acts.{input_of};
ghost use Rattle.vx_command.specs.Asking.{Asks};
ghost use Rattle.vx_command.specs.Devices.{TouchesInputs, TouchesNothing};
ghost use Rattle.vx_command.specs.Elections.{election_read, election_in};
ghost use Rattle.vx_command.specs.Steps.{is_no_memory, GivesTaking, IsElectionHalt, IsTakingHalt};

use crate::halt::{Halt, halt_of_election, halt_of_taking};
use crate::laws::asks_in_order;
use std::alloc::Global;
use vx_base::Bytes;
use vx_election::{Election, read_election};
use vx_io::{Inputs, take_reusing};

/// The most bytes that an input may have.
pub const INPUT_LIMIT: u64 = 67_108_864;

/// Takes the input of a word, of at most `limit` bytes, by its name, into the memory of `old`, which
/// may be of an input that was taken before.
pub fn take_input<I: Inputs>(
    old: Bytes,
    inputs: &mut I,
    name: &str,
    word: u32,
    limit: u64,
) -> Result<Bytes, Halt>
    ensures told { ForSome (I.held inputs.old) (λ files.
        GivesTaking word result (input_of word limit (files name.now))) }
    // The same of inputs that don't tell what they hold.
    ensures within { IfOk result (λ bytes. length bytes ≤ limit) }
    ensures halts { IfErr result (IsTakingHalt word) }
    ensures inputs { TouchesInputs I.Inputs inputs.old inputs.new result }
    ensures asked { Asks I.Inputs (name.now ∷ []) inputs.old inputs.new (is_ok result) }
{
    match take_reusing(old, inputs, name, limit) {
        Ok(bytes) => Ok(bytes),
        Err(fault) => Err(halt_of_taking(word, fault)),
    }
}

/// The election that bytes define, or why a command that needs it halts.
fn read_bytes(alloc: Global, bytes: &[u8]) -> Result<Election, Halt>
    ensures exact { Gives is_no_memory result (election_read (election_of bytes.now)) }
    ensures valid { IfOk result IsValid }
    ensures halts { IfErr result IsElectionHalt }
    ensures devices { TouchesNothing result }
{
    match read_election(alloc, bytes) {
        Ok(election) => Ok(election),
        Err(fault) => Err(halt_of_election(fault)),
    }
}

/// Takes the election under its name, which is word 1, and reads it.
pub fn take_election<I: Inputs>(alloc: Global, inputs: &mut I, name: &str) -> Result<Election, Halt>
    ensures told { ForSome (I.held inputs.old) (λ files.
        GivesTaking 1 result (election_in (files name.now))) }
    ensures valid { IfOk result IsValid }
    ensures halts { IfErr result IsElectionHalt }
    ensures inputs { TouchesInputs I.Inputs inputs.old inputs.new result }
    ensures asked { Asks I.Inputs (name.now ∷ []) inputs.old inputs.new (is_ok result) }
{
    asks_in_order::<I>();
    let bytes = take_input(Bytes::new(alloc), inputs, name, 1, INPUT_LIMIT)?;
    read_bytes(alloc, bytes.as_slice())
}
