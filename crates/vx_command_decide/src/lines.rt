ghost use Rattle.std.specs.Prelude.{◌≡◌, ◌++◌, ◌≤◌, Bool, false, OnOk, length, string_bytes};
ghost use Rattle.vx_election_model.specs.Valid.{IsValid};
ghost use Rattle.vx_events.specs.Fits.{Fits};
ghost use Rattle.vx_command.specs.Acts.{writing};
ghost use Rattle.vx_command.specs.Devices.{TouchesSink, TouchesSinkAndKeeper, writes_nothing};
ghost use Rattle.vx_command.specs.Done.{IsDone, IsWritten};
ghost use Rattle.vx_command_decide.specs.Lines.{Accepts, Decides, TakesLine};
ghost use Rattle.vx_command_decide.specs.Outcome as outcome;
ghost use Rattle.vx_command_decide.specs.Outcome.{lines_outcome};
ghost use Rattle.vx_script.specs.Script.{lines_of};

use std::alloc::Global;
use vx_base::OutOfMemory;
use vx_center::replies_are_done_or_refuse;
use vx_command::{Halt, acts_in_order, write_text};
use vx_election_model::Election;
use vx_events::Event;
use vx_io::{Keeper, Sink};
use vx_journal::{Journal, keep_event};
use vx_refusals::{DecisionFault, Reply};
use vx_script::{event_of, first_line};

/// Adds what is written of a line that is done.
fn push_done(text: &mut String, number: u32) -> Result<(), OutOfMemory>
    ensures { OnOk result (string_bytes text.new ≡ string_bytes text.old ++ outcome.done_line number) }
{
    write!(text, "line {number} done\n")
}

/// Writes that a line is done.
fn write_done<S: Sink>(alloc: Global, out: &mut S, number: u32) -> Result<(), Halt>
    ensures done { IsWritten (writing (outcome.done_line number)) (S.taken out.old) (S.taken out.new) result }
    ensures sink { TouchesSink S.Sink out.old out.new result }
    ensures late { (first : Bool) → writes_nothing first result ≡ false }
{
    acts_in_order();
    let mut text = String::new(alloc);
    push_done(&mut text, number)?;
    write_text(out, text.as_bytes())
}

/// Keeps the event of a line, appends its record, and writes then that the line is done.
fn accept<S: Sink, K: Keeper>(
    alloc: Global,
    journal: &mut Journal<'_>,
    number: u32,
    event: &Event,
    out: &mut S,
    keeper: &mut K,
) -> Result<(), Halt>
    requires { Fits journal.old.center.election event.now }
    ensures done { Accepts journal.old.center.election
        journal.old.center.events journal.new.center.events number event.now
        (S.taken out.old) (S.taken out.new) (K.held keeper.old) (K.held keeper.new) result }
    ensures election { OnOk result (journal.new.center.election ≡ journal.old.center.election) }
    ensures devices { TouchesSinkAndKeeper S.Sink K.Keeper out.old out.new keeper.old keeper.new result }
    ensures late { writes_nothing false result ≡ false }
{
    acts_in_order();
    replies_are_done_or_refuse();
    match keep_event(alloc, journal, keeper, event)? {
        Reply::Done => write_done(alloc, out, number),
        refusal => Err(Halt::Decision(number, DecisionFault::Refused(refusal))),
    }
}

/// Does a line that isn't empty.
fn decide_line<S: Sink, K: Keeper>(
    alloc: Global,
    election: &Election,
    journal: &mut Journal<'_>,
    number: u32,
    line: &[u8],
    out: &mut S,
    keeper: &mut K,
) -> Result<(), Halt>
    requires valid { IsValid election.now }
    requires same { journal.old.center.election ≡ election.now }
    ensures done { Decides election.now journal.old.center.events journal.new.center.events number line.now
        (S.taken out.old) (S.taken out.new) (K.held keeper.old) (K.held keeper.new) result }
    ensures same { OnOk result (journal.new.center.election ≡ election.now) }
    ensures devices { TouchesSinkAndKeeper S.Sink K.Keeper out.old out.new keeper.old keeper.new result }
    ensures late { writes_nothing false result ≡ false }
{
    acts_in_order();
    match event_of(alloc, election, line)? {
        None => Err(Halt::Decision(number, DecisionFault::Bad)),
        Some(event) => accept(alloc, journal, number, &event, out, keeper),
    }
}

/// Does a line; an empty one is passed over.
fn take_line<S: Sink, K: Keeper>(
    alloc: Global,
    election: &Election,
    journal: &mut Journal<'_>,
    number: u32,
    line: &[u8],
    out: &mut S,
    keeper: &mut K,
) -> Result<(), Halt>
    requires valid { IsValid election.now }
    requires same { journal.old.center.election ≡ election.now }
    ensures done { TakesLine election.now journal.old.center.events journal.new.center.events number line.now
        (S.taken out.old) (S.taken out.new) (K.held keeper.old) (K.held keeper.new) result }
    ensures same { OnOk result (journal.new.center.election ≡ election.now) }
    ensures devices { TouchesSinkAndKeeper S.Sink K.Keeper out.old out.new keeper.old keeper.new result }
    ensures late { writes_nothing false result ≡ false }
{
    if line.is_empty() {
        return Ok(());
    }
    decide_line(alloc, election, journal, number, line, out, keeper)
}

/// Does the lines of a script, one after another.
pub(crate) fn decide_lines<S: Sink, K: Keeper>(
    alloc: Global,
    election: &Election,
    journal: &mut Journal<'_>,
    script: &[u8],
    out: &mut S,
    keeper: &mut K,
) -> Result<(), Halt>
    requires valid { IsValid election.now }
    requires same { journal.old.center.election ≡ election.now }
    requires few { length script.now ≤ 1048576 }
    ensures done { IsDone (lines_outcome election.now journal.old.center.events 1 (lines_of script.now))
        (S.taken out.old) (S.taken out.new) (K.held keeper.old) (K.held keeper.new) result }
    ensures devices { TouchesSinkAndKeeper S.Sink K.Keeper out.old out.new keeper.old keeper.new result }
    ensures late { writes_nothing false result ≡ false }
{
    acts_in_order();
    let mut text = script;
    let mut number = 1;
    'lines: loop {
        let (line, behind) = first_line(text);
        take_line(alloc, election, journal, number, line, out, keeper)?;
        match behind {
            None => return Ok(()),
            Some(more) => {
                text = more;
                number += 1;
            }
        }
    }
}
