ghost use Rattle.std.specs.Prelude.{◌≡◌, ◌<◌, ◌≤◌, All, true, false, is_ok, length};
ghost use Rattle.std.specs.Option.{ForSome};
ghost use Rattle.vx_election_model.specs.Valid.{IsValid};
ghost use Rattle.vx_layout.specs.Plans.{ArePlansOf};
ghost use Rattle.vx_words.specs.Items.{AreItemWords};
ghost use Rattle.vx_command.specs.Devices.{LeavesDevices, TouchesSinkAndKeeper};
ghost use Rattle.vx_command_center.specs.Asking.{AsksAsCenter, AsksItems};
ghost use Rattle.vx_command_center.specs.Items.{FitsItem, possible_in_all};
ghost use Rattle.vx_command_center.specs.Runs.{Centers, CentersItems, CentersJournal, CentersPlanned, CentersSet, is_refusal};

use crate::ending::end_center;
use crate::item::{Item, Items};
use crate::taking::take_items;
use crate::working::{drop_ended, work_off};
use std::alloc::Global;
use std::sync::Wait;
use std::thread::{Threads, map_vec};
use vx_command::{Halt, acts_in_order, plan_all, steps_in_order, take_election};
use vx_election_model::{Election, drop_election};
use vx_io::{Inputs, Keeper, Sink, questions_asked};
use vx_journal::{Journal, drop_journal, journals_in_order, read_journal};
use vx_layout::{CardPlans, drop_plans};
use vx_shared::lists_have_histories;
use vx_words::ItemWord;
use vx_workers::Gate;

/// Gives the memory of items back, by a thread for each. It comes last, as whoever asks for memory meanwhile waits.
fn give_back<R: Threads + Sync>(rt: &R, items: Items) {
    let _given_back = map_vec(rt, items.into_vec(), &|_item: Item| {});
}

/// Does the items, and what is done when they have ended.
fn do_all<'e, R: Threads + Wait + Sync, S: Sink, K: Keeper, G: Gate>(
    rt: &R,
    alloc: Global,
    election: &'e Election,
    plans: &CardPlans,
    journal: Journal<'e>,
    moment: &str,
    device: &str,
    items: &[Item],
    gate: &G,
    out: &mut S,
    keeper: &mut K,
) -> Result<(), Halt>
    requires valid { IsValid election.now }
    requires plans { ArePlansOf election.now plans.now }
    requires same { journal.center.election ≡ election.now }
    requires some { 0 < length items.now }
    requires few { length items.now ≤ 16 }
    requires within { possible_in_all items.now ≤ 1000000 }
    requires fits { All (FitsItem election.now) items.now }
    ensures done { CentersItems election.now journal.entry moment.now device.now items.now
        (S.taken out.old) (S.taken out.new) (K.held keeper.old) (K.held keeper.new) result }
    ensures late { is_refusal result ≡ false }
    ensures devices { TouchesSinkAndKeeper S.Sink K.Keeper out.old out.new keeper.old keeper.new result }
{
    acts_in_order();
    lists_have_histories();
    let ended = work_off(rt, alloc, election, plans, journal, items, gate)?;
    let answer = end_center(rt, alloc, election, &ended, moment, device, out, keeper);
    drop_ended(ended);
    answer
}

/// Does the items, and what is done when they have ended, and gives their memory back.
fn do_items<'e, R: Threads + Wait + Sync, S: Sink, K: Keeper, G: Gate>(
    rt: &R,
    alloc: Global,
    election: &'e Election,
    plans: &CardPlans,
    journal: Journal<'e>,
    moment: &str,
    device: &str,
    items: Items,
    gate: &G,
    out: &mut S,
    keeper: &mut K,
) -> Result<(), Halt>
    requires valid { IsValid election.now }
    requires plans { ArePlansOf election.now plans.now }
    requires same { journal.center.election ≡ election.now }
    requires some { 0 < length items }
    requires few { length items ≤ 16 }
    requires within { possible_in_all items ≤ 1000000 }
    requires fits { All (FitsItem election.now) items }
    ensures done { CentersItems election.now journal.entry moment.now device.now items
        (S.taken out.old) (S.taken out.new) (K.held keeper.old) (K.held keeper.new) result }
    ensures late { is_refusal result ≡ false }
    ensures devices { TouchesSinkAndKeeper S.Sink K.Keeper out.old out.new keeper.old keeper.new result }
{
    let lent = items.as_slice();
    let answer = do_all(
        rt, alloc, election, plans, journal, moment, device, lent, gate, out, keeper,
    );
    give_back(rt, items);
    answer
}

/// Takes the items and does them.
fn center_read<'e, R: Threads + Wait + Sync, I: Inputs, S: Sink, K: Keeper, G: Gate>(
    rt: &R,
    alloc: Global,
    election: &'e Election,
    plans: &CardPlans,
    journal: Journal<'e>,
    moment: &str,
    device: &str,
    items: &[ItemWord],
    gate: &G,
    inputs: &mut I,
    out: &mut S,
    keeper: &mut K,
) -> Result<(), Halt>
    requires valid { IsValid election.now }
    requires plans { ArePlansOf election.now plans.now }
    requires same { journal.center.election ≡ election.now }
    requires words { AreItemWords items.now }
    ensures done { ForSome (I.held inputs.old) (λ files.
        CentersJournal election.now journal.entry moment.now device.now items.now files
        (S.taken out.old) (S.taken out.new) (K.held keeper.old) (K.held keeper.new) result) }
    ensures nothing_written { is_refusal result ≡ true → S.taken out.new ≡ S.taken out.old }
    ensures nothing_kept { is_refusal result ≡ true → K.held keeper.new ≡ K.held keeper.old }
    ensures devices { LeavesDevices I.Inputs S.Sink K.Keeper inputs.old inputs.new out.old out.new
        keeper.old keeper.new result }
    ensures asked { AsksItems I.Inputs items.now inputs.old inputs.new (is_ok result) }
{
    lists_have_histories();
    match take_items(rt, alloc, election, items, inputs) {
        Ok(taken) => do_items(
            rt, alloc, election, plans, journal, moment, device, taken, gate, out, keeper,
        ),
        Err(halt) => {
            drop_journal(journal);
            Err(halt)
        }
    }
}

/// Reads the journal, and takes the items and does them.
fn center_set<R: Threads + Wait + Sync, I: Inputs, S: Sink, K: Keeper, G: Gate>(
    rt: &R,
    alloc: Global,
    election: &Election,
    plans: &CardPlans,
    moment: &str,
    device: &str,
    items: &[ItemWord],
    gate: &G,
    inputs: &mut I,
    out: &mut S,
    keeper: &mut K,
) -> Result<(), Halt>
    requires valid { IsValid election.now }
    requires plans { ArePlansOf election.now plans.now }
    requires words { AreItemWords items.now }
    ensures done { ForSome (I.held inputs.old) (λ files. ForSome (K.held keeper.old) (λ records.
        CentersSet election.now moment.now device.now items.now files records
        (S.taken out.old) (S.taken out.new) (K.held keeper.old) (K.held keeper.new) result)) }
    ensures nothing_written { is_refusal result ≡ true → S.taken out.new ≡ S.taken out.old }
    ensures nothing_kept { is_refusal result ≡ true → K.held keeper.new ≡ K.held keeper.old }
    ensures devices { LeavesDevices I.Inputs S.Sink K.Keeper inputs.old inputs.new out.old out.new
        keeper.old keeper.new result }
    ensures asked { AsksItems I.Inputs items.now inputs.old inputs.new (is_ok result) }
{
    questions_asked();
    journals_in_order();
    lists_have_histories();
    let journal = read_journal(alloc, election, keeper)?;
    center_read(
        rt, alloc, election, plans, journal, moment, device, items, gate, inputs, out, keeper,
    )
}

/// Plans all cards, reads the journal, and does the items.
fn center_planned<R: Threads + Wait + Sync, I: Inputs, S: Sink, K: Keeper, G: Gate>(
    rt: &R,
    alloc: Global,
    election: &Election,
    moment: &str,
    device: &str,
    items: &[ItemWord],
    gate: &G,
    inputs: &mut I,
    out: &mut S,
    keeper: &mut K,
) -> Result<(), Halt>
    requires valid { IsValid election.now }
    requires words { AreItemWords items.now }
    ensures done { ForSome (I.held inputs.old) (λ files. ForSome (K.held keeper.old) (λ records.
        CentersPlanned election.now moment.now device.now items.now files records
        (S.taken out.old) (S.taken out.new) (K.held keeper.old) (K.held keeper.new) result)) }
    ensures nothing_written { is_refusal result ≡ true → S.taken out.new ≡ S.taken out.old }
    ensures nothing_kept { is_refusal result ≡ true → K.held keeper.new ≡ K.held keeper.old }
    ensures devices { LeavesDevices I.Inputs S.Sink K.Keeper inputs.old inputs.new out.old out.new
        keeper.old keeper.new result }
    ensures asked { AsksItems I.Inputs items.now inputs.old inputs.new (is_ok result) }
{
    questions_asked();
    steps_in_order::<CardPlans>();
    lists_have_histories();
    let plans = plan_all(alloc, election)?;
    let done = center_set(
        rt, alloc, election, &plans, moment, device, items, gate, inputs, out, keeper,
    );
    drop_plans(plans);
    done
}

/// Does the command `center`: takes the election under its name, which is word 1, plans all its cards, reads
/// the journal, takes the items that the words from 4 on name, and has each done by a thread of its own at
/// one shared center. When all have ended, the accepted events are appended in the order of the center's
/// history, and the history, the lines of the sheets without an event and the report are written.
///
/// Whatever it answers, there is a history of these items by which its acts are done up to some place. It has
/// Wait, and promises no return.
pub fn center<R: Threads + Wait + Sync, I: Inputs, S: Sink, K: Keeper, G: Gate>(
    rt: &R,
    alloc: Global,
    election: &str,
    moment: &str,
    device: &str,
    items: &[ItemWord],
    inputs: &mut I,
    out: &mut S,
    keeper: &mut K,
    gate: &G,
) -> Result<(), Halt>
    requires words { AreItemWords items.now }
    ensures done { ForSome (I.held inputs.old) (λ files. ForSome (K.held keeper.old) (λ records.
        Centers election.now moment.now device.now items.now files records
        (S.taken out.old) (S.taken out.new) (K.held keeper.old) (K.held keeper.new) result)) }
    ensures nothing_written { is_refusal result ≡ true → S.taken out.new ≡ S.taken out.old }
    ensures nothing_kept { is_refusal result ≡ true → K.held keeper.new ≡ K.held keeper.old }
    ensures devices { LeavesDevices I.Inputs S.Sink K.Keeper inputs.old inputs.new out.old out.new
        keeper.old keeper.new result }
    ensures asked { AsksAsCenter I.Inputs election.now items.now inputs.old inputs.new (is_ok result) }
{
    questions_asked();
    steps_in_order::<Election>();
    lists_have_histories();
    let given = take_election(alloc, inputs, election)?;
    let done = center_planned(
        rt, alloc, &given, moment, device, items, gate, inputs, out, keeper,
    );
    drop_election(given);
    done
}
