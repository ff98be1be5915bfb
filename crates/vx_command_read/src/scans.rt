ghost use Rattle.std.specs.Prelude.{◌≡◌, ◌≤◌, ◌<◌, ◌+◌, ◌^◌, ◌∷◌, [], false, length, is_ok, IfOk};
ghost use Rattle.std.specs.Option.{ForSome};
ghost use Rattle.vx_election_model.specs.Valid.{IsValid};
ghost use Rattle.vx_layout.specs.Plans.{ArePlansOf};
ghost use Rattle.vx_command.specs.Asking.{Asks};
ghost use Rattle.vx_command.specs.Devices.{TouchesInputsAndSink, writes_nothing};
ghost use Rattle.vx_command.specs.Done.{IsWritten};
ghost use Rattle.vx_command_read.specs.Outcome.{scans_outcome};
ghost use Rattle.vx_command_read.specs.Scans.{ReadsFirst};

use crate::images::read_scan;
use std::alloc::Global;
use std::mem::replace;
use vx_base::Bytes;
use vx_command::{Halt, INPUT_LIMIT, acts_in_order, asks_in_order, steps_in_order, take_input};
use vx_count::CounterMemory;
use vx_election_model::Election;
use vx_io::{Inputs, Sink};
use vx_json::Text;
use vx_layout::CardPlans;

/// What is kept over all scans of a `read`, so that none takes memory anew: that of the last input
/// and that of the last counter.
#[derive(Drop)]
struct ScanMemory {
    bytes: Bytes,
    counter: CounterMemory,
}

impl ScanMemory {
    fn new(alloc: Global) -> ScanMemory {
        ScanMemory {
            bytes: Bytes::new(alloc),
            counter: CounterMemory::new(alloc),
        }
    }
}

/// Takes the scan of a word under its name and reads its images, the first of which has a number.
/// Answers the number after the last one's.
fn read_input<I: Inputs, S: Sink>(
    alloc: Global,
    memory: &mut ScanMemory,
    election: &Election,
    plans: &CardPlans,
    name: &str,
    word: u32,
    number: u64,
    inputs: &mut I,
    out: &mut S,
) -> Result<u64, Halt>
    requires election { IsValid election.now }
    requires plans { ArePlansOf election.now plans.now }
    requires room { number < 2 ^ 63 }
    requires later_word { 1 < word }
    ensures done { ForSome (I.held inputs.old) (λ files.
        ReadsFirst election.now files word number name.now
        (S.taken out.old) (S.taken out.new) result) }
    ensures bound { IfOk result (λ next. next ≤ number + 67108864) }
    ensures devices { TouchesInputsAndSink I.Inputs S.Sink inputs.old inputs.new out.old out.new result }
    ensures asked { Asks I.Inputs (name.now ∷ []) inputs.old inputs.new (is_ok result) }
    ensures late { writes_nothing false result ≡ false }
{
    asks_in_order::<I>();
    steps_in_order::<Bytes>();
    let last = replace(&mut memory.bytes, Bytes::new(alloc));
    let bytes = take_input(last, inputs, name, word, INPUT_LIMIT)?;
    let counter = &mut memory.counter;
    let scan = bytes.as_slice();
    let next = read_scan(alloc, counter, election, plans, word, number, scan, out);
    memory.bytes = bytes;
    next
}

/// Reads scans one after the other, the first of which is word 2, and writes the texts of their
/// images, which are numbered over all of them from 1. One input is held at a time, and all are held and
/// counted in the memory of the greatest.
pub fn read_scans<I: Inputs, S: Sink>(
    alloc: Global,
    election: &Election,
    plans: &CardPlans,
    scans: &[Text],
    inputs: &mut I,
    out: &mut S,
) -> Result<(), Halt>
    requires election { IsValid election.now }
    requires plans { ArePlansOf election.now plans.now }
    requires few { length scans.now ≤ 64 }
    ensures done { ForSome (I.held inputs.old) (λ files.
        IsWritten (scans_outcome election.now files 2 1 scans.now)
        (S.taken out.old) (S.taken out.new) result) }
    ensures devices { TouchesInputsAndSink I.Inputs S.Sink inputs.old inputs.new out.old out.new result }
    ensures asked { Asks I.Inputs scans.now inputs.old inputs.new (is_ok result) }
    ensures late { writes_nothing false result ≡ false }
{
    asks_in_order::<I>();
    acts_in_order();
    let mut memory = ScanMemory::new(alloc);
    let mut number = 1;
    let mut word = 2;
    for scan in scans {
        number = read_input(
            alloc,
            &mut memory,
            election,
            plans,
            scan.as_str(),
            word,
            number,
            inputs,
            out,
        )?;
        word += 1;
    }
    Ok(())
}
