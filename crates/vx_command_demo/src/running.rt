ghost use Rattle.std.specs.Prelude.{◌≡◌, ◌≤◌, Bool, Ok, false, true};
ghost use Rattle.vx_base.specs.Refusals.{Gives};
ghost use Rattle.vx_election_model.specs.Valid.{IsValid};
ghost use Rattle.vx_layout.specs.Plans.{ArePlansOf};
ghost use Rattle.vx_command.specs.Acts.{writing};
ghost use Rattle.vx_command.specs.Devices.{TouchesNothing, TouchesSink, writes_nothing};
ghost use Rattle.vx_command.specs.Done.{IsWritten};
ghost use Rattle.vx_command.specs.Steps.{is_no_memory};
ghost use Rattle.vx_command_demo.specs.Outcome as spec;
ghost use Rattle.vx_command_demo.specs.Summary.{summary_of as summary_of_sheets};

use crate::plans::{hollow_in, read_demo};
use crate::sheets::try_sheets;
use crate::summary::summary_text;
use std::alloc::Global;
use std::thread::Threads;
use vx_base::Bytes;
use vx_command::{Halt, plan_all, steps_in_order, write_text};
use vx_election_model::{Election, drop_election};
use vx_io::Sink;
use vx_layout::{CardPlans, drop_plans};
use vx_styles::cards_are_few;

/// The summary of so many simulated sheets of a planned election.
fn summary_of<R: Threads + Sync>(
    rt: &R,
    alloc: Global,
    election: &Election,
    plans: &CardPlans,
    seed: u64,
    sheets: u32,
) -> Result<Bytes, Halt>
    requires election { IsValid election.now }
    requires plans { ArePlansOf election.now plans.now }
    requires sheets { sheets ≤ 1000 }
    ensures exact { Gives is_no_memory result (Ok (summary_of_sheets election.now plans.now seed sheets)) }
    ensures devices { TouchesNothing result }
    ensures late { (first : Bool) → writes_nothing first result ≡ false }
{
    cards_are_few();
    let counted = try_sheets(rt, alloc, election, plans, seed, sheets)?;
    let hollow = hollow_in(plans.as_slice());
    Ok(summary_text(alloc, seed, sheets, &counted, hollow)?)
}

/// Writes the summary of so many simulated sheets of a planned election.
fn write_summary<R: Threads + Sync, S: Sink>(
    rt: &R,
    alloc: Global,
    election: &Election,
    plans: &CardPlans,
    seed: u64,
    sheets: u32,
    out: &mut S,
) -> Result<(), Halt>
    requires election { IsValid election.now }
    requires plans { ArePlansOf election.now plans.now }
    requires sheets { sheets ≤ 1000 }
    ensures done { IsWritten (writing (summary_of_sheets election.now plans.now seed sheets))
        (S.taken out.old) (S.taken out.new) result }
    ensures sink { TouchesSink S.Sink out.old out.new result }
    ensures late { (first : Bool) → writes_nothing first result ≡ false }
{
    steps_in_order::<Bytes>();
    let text = summary_of(rt, alloc, election, plans, seed, sheets)?;
    write_text(out, text.as_slice())
}

/// Plans the cards of the election and writes the summary.
fn demo_of<R: Threads + Sync, S: Sink>(
    rt: &R,
    alloc: Global,
    election: &Election,
    seed: u64,
    sheets: u32,
    out: &mut S,
) -> Result<(), Halt>
    requires election { IsValid election.now }
    requires sheets { sheets ≤ 1000 }
    ensures done { IsWritten (spec.election_outcome election.now seed sheets)
        (S.taken out.old) (S.taken out.new) result }
    ensures nothing_written { (first : Bool) → writes_nothing first result ≡ true →
        S.taken out.new ≡ S.taken out.old }
    ensures sink { TouchesSink S.Sink out.old out.new result }
{
    steps_in_order::<CardPlans>();
    let plans = plan_all(alloc, election)?;
    let done = write_summary(rt, alloc, election, &plans, seed, sheets, out);
    drop_plans(plans);
    done
}

/// Does the command `demo`: simulates 1 to 1,000 sheets of the demo election from a seed, reads and
/// checks each page, and writes a summary. It takes no input and no journal.
pub fn demo<R: Threads + Sync, S: Sink>(
    rt: &R,
    alloc: Global,
    seed: u64,
    sheets: u32,
    out: &mut S,
) -> Result<(), Halt>
    requires { sheets ≤ 1000 }
    ensures done { IsWritten (spec.demo_outcome seed sheets) (S.taken out.old) (S.taken out.new) result }
    ensures nothing_written { (first : Bool) → writes_nothing first result ≡ true →
        S.taken out.new ≡ S.taken out.old }
    ensures sink { TouchesSink S.Sink out.old out.new result }
{
    steps_in_order::<Election>();
    let election = read_demo(alloc)?;
    let done = demo_of(rt, alloc, &election, seed, sheets, out);
    drop_election(election);
    done
}
