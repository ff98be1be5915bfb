//! What is done when all items have ended: the accepted events are appended, and the history, the lines of the
//! sheets without an event and the report are written.
ghost use Rattle.std.specs.Prelude.{◌≡◌, ◌<◌, ◌++◌, ◌∷◌, ◌^◌, [], ℕ, List, IfOk, OnOk, length, string_bytes};
ghost use Rattle.vx_election_model.specs.Valid.{IsValid};
ghost use Rattle.vx_command.specs.Acts.{Write, work};
ghost use Rattle.vx_command.specs.Devices.{TouchesKeeper, TouchesSink, TouchesSinkAndKeeper};
ghost use Rattle.vx_command.specs.Done.{IsDone, IsWritten};
ghost use Rattle.vx_journal.specs.Keeping.{begin_acts};
ghost use Rattle.vx_journal.specs.Steps.{IsRecorded};
ghost use Rattle.vx_shared.specs.Legal.{done_events, done_of};
ghost use Rattle.vx_command_center.specs.Outcome.{append_acts, event_head, event_line, history_acts, kept_acts, report_line, written_acts};

use crate::telling::{ReportOf, Reporter};
use crate::working::Ended;
use std::alloc::Global;
use std::thread::{Threads, join_mut};
use vx_base::{Bytes, OutOfMemory};
use vx_command::{Halt, acts_in_order, write_text};
use vx_election_model::Election;
use vx_io::{Keeper, Sink};
use vx_journal::{append_event, begin_journal};
use vx_records::encode;
use vx_refusals::Reply;
use vx_shared::Entry;

/// Appends the record of a call's event, where it was answered with Done.
fn append_call<K: Keeper>(alloc: Global, call: &Entry, keeper: &mut K) -> Result<(), Halt>
    ensures done { IsRecorded (append_acts (done_of call.now)) (K.held keeper.old) (K.held keeper.new) result }
    ensures keeper { TouchesKeeper K.Keeper keeper.old keeper.new result }
{
    acts_in_order();
    match call.reply {
        Reply::Done => append_event(alloc, keeper, &call.event),
        _ => Ok(()),
    }
}

/// Appends the records of the accepted events of a history, in order.
pub(crate) fn append_history<K: Keeper>(
    alloc: Global,
    history: &[Entry],
    keeper: &mut K,
) -> Result<(), Halt>
    ensures done { IsRecorded (append_acts (done_events history.now)) (K.held keeper.old) (K.held keeper.new) result }
    ensures keeper { TouchesKeeper K.Keeper keeper.old keeper.new result }
{
    acts_in_order();
    for call in history {
        append_call(alloc, call, keeper)?;
    }
    Ok(())
}

/// The head of the line of a call that has a place in the history.
fn push_head(text: &mut String, place: u64, reply: Reply) -> Result<(), OutOfMemory>
    ensures { OnOk result (string_bytes text.new ≡ string_bytes text.old ++ event_head place reply) }
{
    write!(text, "event {place} {reply} : ")
}

/// The line of a call that has a place in the history.
fn call_line(alloc: Global, place: u64, call: &Entry) -> Result<Bytes, OutOfMemory>
    ensures { IfOk result (λ line. line ≡ event_line place call.now) }
{
    let mut head = String::new(alloc);
    push_head(&mut head, place, call.reply)?;
    let mut line = Bytes::from_vec(head.into_bytes());
    let record = encode(alloc, &call.event)?;
    line.extend_from_slice(record.as_slice())?;
    line.push(b'\n')?;
    Ok(line)
}

/// Writes the lines of a history.
pub(crate) fn write_history<S: Sink>(
    alloc: Global,
    history: &[Entry],
    out: &mut S,
) -> Result<(), Halt>
    requires { length history.now < 2 ^ 62 }
    ensures done { IsWritten (work (history_acts 0 history.now)) (S.taken out.old) (S.taken out.new) result }
    ensures sink { TouchesSink S.Sink out.old out.new result }
{
    acts_in_order();
    let mut place = 0;
    for call in history {
        let line = call_line(alloc, place, call)?;
        write_text(out, line.as_slice())?;
        place += 1;
    }
    Ok(())
}

/// Appends the records of the accepted events of a history, and writes its lines and those of the sheets without
/// an event.
fn keep_history<S: Sink, K: Keeper>(
    alloc: Global,
    history: &[Entry],
    text: &[u8],
    out: &mut S,
    keeper: &mut K,
) -> Result<(), Halt>
    requires few { length history.now < 2 ^ 62 }
    ensures done { IsDone (work (kept_acts history.now text.now))
        (S.taken out.old) (S.taken out.new) (K.held keeper.old) (K.held keeper.new) result }
    ensures devices { TouchesSinkAndKeeper S.Sink K.Keeper out.old out.new keeper.old keeper.new result }
{
    acts_in_order();
    append_history(alloc, history, keeper)?;
    write_history(alloc, history, out)?;
    write_text(out, text)
}

/// The same, while a thread makes the report.
fn keep_beside<R: Threads, T: Reporter, S: Sink, K: Keeper>(
    rt: &R,
    alloc: Global,
    reporter: &T,
    history: &[Entry],
    text: &[u8],
    out: &mut S,
    keeper: &mut K,
) -> (Result<Bytes, OutOfMemory>, Result<(), Halt>)
    requires may { T.may reporter.now }
    requires few { length history.now < 2 ^ 62 }
    ensures told { IfOk result.0 (λ told. told ≡ T.line reporter.now) }
    ensures done { IsDone (work (kept_acts history.now text.now))
        (S.taken out.old) (S.taken out.new) (K.held keeper.old) (K.held keeper.new) result.1 }
    ensures devices { TouchesSinkAndKeeper S.Sink K.Keeper out.old out.new keeper.old keeper.new result.1 }
{
    join_mut(
        rt,
        &mut || -> Result<Bytes, OutOfMemory>
            requires { T.may reporter.now }
            ensures { IfOk result (λ told. told ≡ T.line reporter.entry.now) }
        { reporter.report(alloc) },
        &mut || -> Result<(), Halt>
            requires { length history.now < 2 ^ 62 }
        { keep_history(alloc, history, text, out, keeper) },
    )
}

/// Writes a report, where there was memory for it, behind a line of its own.
fn write_report<S: Sink>(told: Result<Bytes, OutOfMemory>, out: &mut S) -> Result<(), Halt>
    ensures done { (line : List ℕ) → IfOk told (λ text. text ≡ line) → IsWritten (work (Write report_line
        ∷ Write line ∷ [])) (S.taken out.old) (S.taken out.new) result }
    ensures sink { TouchesSink S.Sink out.old out.new result }
{
    acts_in_order();
    write_text(out, b"report\n")?;
    let text = told?;
    write_text(out, text.as_slice())
}

/// Begins the journal where no record was there, appends the accepted events, and writes all. A thread makes the
/// report meanwhile.
pub(crate) fn end_center<R: Threads, S: Sink, K: Keeper>(
    rt: &R,
    alloc: Global,
    election: &Election,
    ended: &Ended<'_>,
    moment: &str,
    device: &str,
    out: &mut S,
    keeper: &mut K,
) -> Result<(), Halt>
    requires valid { IsValid election.now }
    requires election { ended.now.journal.center.election ≡ election.now }
    requires few { length ended.now.history < 2 ^ 62 }
    ensures done { IsDone (work (begin_acts ended.now.journal ++ (append_acts (done_events ended.now.history)
        ++ written_acts election.now ended.now.journal.center.events ended.now.history ended.now.text
        moment.now device.now)))
        (S.taken out.old) (S.taken out.new) (K.held keeper.old) (K.held keeper.new) result }
    ensures devices { TouchesSinkAndKeeper S.Sink K.Keeper out.old out.new keeper.old keeper.new result }
{
    acts_in_order();
    begin_journal(alloc, election, &ended.journal, keeper)?;
    let reporter = ReportOf {
        election,
        center: &ended.journal.center,
        moment,
        device,
    };
    let (told, kept) = keep_beside(
        rt,
        alloc,
        &reporter,
        ended.history.as_slice(),
        ended.text.as_slice(),
        out,
        keeper,
    );
    kept?;
    write_report(told, out)
}
