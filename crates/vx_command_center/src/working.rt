ghost use Rattle.std.specs.Prelude.{◌≡◌, ◌≤◌, ◌<◌, ◌^◌, [], All, length, map, IfOk, OnErr};
ghost use Rattle.std.specs.List.{flat_map};
ghost use Rattle.vx_election_model.specs.Valid.{IsValid};
ghost use Rattle.vx_events.specs.Fits.{Fits};
ghost use Rattle.vx_layout.specs.Plans.{ArePlansOf};
ghost use Rattle.vx_shared.specs.Gained.{HasMade, HasMadeFront, HasRun, HasRunFronts};
ghost use Rattle.vx_shared.specs.Legal.{IsLegal};
ghost use Rattle.vx_shared.specs.Seats.{start_of};
ghost use Rattle.vx_command_center.specs.Histories.{HasEndedSo};
ghost use Rattle.vx_command_center.specs.Items.{FitsItem, events_of, lines_of_item, possible_in_all};

use crate::hands::Hands;
use crate::item::{Item, possible_in};
use crate::scanning::do_scan;
use std::alloc::Global;
use std::sync::Wait;
use std::thread::Threads;
use vx_base::{Bytes, OutOfMemory};
use vx_center::drop_center;
use vx_election_model::Election;
use vx_events::Event;
use vx_journal::{Journal, drop_journal};
use vx_layout::{CardPlans, plans_show_each_option};
use vx_shared::{
    Desk, Entries, Pass, SharedCenter, Work, make_all, passes_gain_their_calls, run_all,
};
use vx_workers::Gate;

/// Calls the center with the events of a script.
fn do_script<R: Wait, S: Desk>(
    rt: &R,
    alloc: Global,
    shared: &S,
    pass: Pass,
    events: &[Event],
) -> (Pass, Result<Bytes, OutOfMemory>)
    requires belongs { pass.of ≡ S.id shared.now }
    requires calls { length events.now ≤ pass.calls }
    requires fits { All (Fits pass.origin.election) events.now }
    ensures made { IfOk result.1 (λ _. HasMade pass events.now result.0) }
    ensures told { IfOk result.1 (λ told. told ≡ []) }
    ensures front { OnErr result.1 (HasMadeFront pass events.now result.0) }
{
    let (pass, answer) = make_all(rt, alloc, shared, pass, events);
    match answer {
        Ok(()) => (pass, Ok(Bytes::new(alloc))),
        Err(no_memory) => (pass, Err(no_memory)),
    }
}

impl<'a> Work<Item> for Hands<'a> {
    ghost use Rattle.std.specs.Prelude.{◌≡◌};
    ghost use Rattle.vx_command_center.specs.Items.{FitsItem, events_of, lines_of_item, possible_of};
    ghost use Rattle.vx_command_center.specs.Setting.{IsSet};

    ghost events = { λ hands item. events_of hands.election.now item };

    ghost text = { λ hands item. lines_of_item hands.election.now item };

    ghost calls = { λ _ item. possible_of item };

    ghost may = { λ hands election item. IsSet hands × (election ≡ hands.election.now) × FitsItem election item };

    fn calls(&self, item: &Item) -> u64 {
        possible_in(item)
    }

    fn run<R: Wait, S: Desk>(
        &self,
        rt: &R,
        alloc: Global,
        shared: &S,
        pass: Pass,
        item: &Item,
    ) -> (Pass, Result<Bytes, OutOfMemory>) {
        match item {
            Item::Script { events } => do_script(rt, alloc, shared, pass, events.as_slice()),
            Item::Scan { batch, bytes, .. } => do_scan(
                rt,
                alloc,
                shared,
                pass,
                self,
                batch.as_str(),
                bytes.as_slice(),
            ),
        }
    }
}

/// Does the items of a count at a shared center, each by a thread of its own, and answers the pass with all
/// its shares and the lines of the sheets that make no event, item by item. A thread asks the gate before
/// each call, with its item's number, counted from 1, and goes on whatever that answers. The thread of a
/// scan reads its pages itself. Where there is no memory, fronts of the items' events were made.
pub fn run_items<R: Threads + Wait + Sync, G: Gate>(
    rt: &R,
    alloc: Global,
    election: &Election,
    plans: &CardPlans,
    shared: &SharedCenter<'_>,
    pass: Pass,
    items: &[Item],
    gate: &G,
) -> (Pass, Result<Bytes, OutOfMemory>)
    requires valid { IsValid election.now }
    requires plans { ArePlansOf election.now plans.now }
    requires belongs { pass.of ≡ shared.now }
    requires same { pass.origin.election ≡ election.now }
    requires some { 0 < length items.now }
    requires few { length items.now ≤ 16 }
    requires shares { length items.now ≤ pass.shares }
    requires calls { possible_in_all items.now ≤ pass.calls }
    requires fits { All (FitsItem election.now) items.now }
    ensures run { IfOk result.1 (λ _. HasRun pass (map (events_of election.now) items.now) result.0) }
    ensures lines { IfOk result.1 (λ text. text ≡ flat_map (lines_of_item election.now) items.now) }
    ensures fronts { OnErr result.1 (HasRunFronts pass (map (events_of election.now) items.now) result.0) }
    ensures legal { IsLegal (start_of pass.origin) result.0.seen }
{
    plans_show_each_option();
    let hands = Hands { election, plans };
    run_all(rt, alloc, shared, pass, &hands, items, gate)
}

/// A center whose items have ended: the journal of all events that are kept now, the history of its calls, and
/// the lines of the sheets that make no event.
pub(crate) struct Ended<'e> {
    pub(crate) journal: Journal<'e>,
    pub(crate) history: Entries,
    pub(crate) text: Bytes,
}

/// Lets a center whose items have ended go.
pub(crate) fn drop_ended(ended: Ended<'_>) {
    let Ended {
        journal,
        history,
        text: _text,
    } = ended;
    drop_journal(journal);
    drop_entries(history);
}

/// Lets a history go.
fn drop_entries(_history: Entries) {}

/// How many events the items may have.
fn possible_events(items: &[Item]) -> u64
    requires { possible_in_all items.now < 2 ^ 64 }
    ensures { result ≡ possible_in_all items.now }
{
    let mut count = 0;
    let mut rest = items;
    while let Some((item, others)) = rest.split_first() {
        count += possible_in(item);
        rest = others;
    }
    count
}

/// Does the items at one shared center, made of the journal's.
pub(crate) fn work_off<'e, R: Threads + Wait + Sync, G: Gate>(
    rt: &R,
    alloc: Global,
    election: &'e Election,
    plans: &CardPlans,
    journal: Journal<'e>,
    items: &[Item],
    gate: &G,
) -> Result<Ended<'e>, OutOfMemory>
    requires valid { IsValid election.now }
    requires plans { ArePlansOf election.now plans.now }
    requires same { journal.center.election ≡ election.now }
    requires some { 0 < length items.now }
    requires few { length items.now ≤ 16 }
    requires within { possible_in_all items.now ≤ 1000000 }
    requires fits { All (FitsItem election.now) items.now }
    ensures { IfOk result (HasEndedSo journal.entry items.now) }
{
    let Journal { center, is_new } = journal;
    let calls = possible_events(items).max(1);
    let (shared, pass) = SharedCenter::new(alloc, center, items.len() as u32, calls)?;
    let (pass, answer) = run_items(rt, alloc, election, plans, &shared, pass, items, gate);
    passes_gain_their_calls();
    match answer {
        Ok(text) => {
            let (center, history) = shared.close(pass);
            let journal = Journal { center, is_new };
            Ok(Ended {
                journal,
                history,
                text,
            })
        }
        Err(no_memory) => {
            let (center, history) = shared.close(pass);
            drop_center(center);
            drop_entries(history);
            Err(no_memory)
        }
    }
}
