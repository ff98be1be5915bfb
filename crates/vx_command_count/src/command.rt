ghost use Rattle.std.specs.Prelude.{◌≡◌, ◌≤◌, ◌<◌, ◌∷◌, [], true, false, length, is_ok};
ghost use Rattle.std.specs.Option.{ForSome};
ghost use Rattle.vx_election_model.specs.Valid.{IsValid};
ghost use Rattle.vx_events.specs.Fits.{is_batch};
ghost use Rattle.vx_layout.specs.Plans.{ArePlansOf};
ghost use Rattle.vx_command.specs.Acts.{after};
ghost use Rattle.vx_command.specs.Asking.{Asks};
ghost use Rattle.vx_command.specs.Devices.{LeavesDevices, writes_nothing};
ghost use Rattle.vx_command.specs.Done.{IsDone};
ghost use Rattle.vx_command.specs.Elections.{once_planned};
ghost use Rattle.vx_journal.specs.Keeping.{begin_acts};
ghost use Rattle.vx_journal.specs.Steps.{once_read};
ghost use Rattle.vx_command_count.specs.Outcome.{count_outcome, journal_outcome, scans_outcome};
ghost use Rattle.vx_command_count.specs.Setting.{IsSet};
ghost use Rattle.vx_command_count.specs.Tally.{sheets_in};

use crate::counting::{Counting, drop_counting};
use crate::scans::count_scans;
use crate::setting::Setting;
use crate::tally::Tally;
use std::alloc::Global;
use std::thread::Threads;
use vx_command::{Halt, acts_in_order, asks_in_order, plan_all, steps_in_order, take_election};
use vx_election_model::{Election, drop_election};
use vx_io::{Inputs, Keeper, Sink};
use vx_journal::{Journal, begin_journal, journals_in_order, read_journal};
use vx_json::Texts;
use vx_layout::{CardPlans, drop_plans, plans_show_each_option};
use vx_workers::Gate;

/// Begins the journal of a count, where it is empty, and counts the scans.
fn count_begun<R: Threads + Sync, I: Inputs, S: Sink, K: Keeper, G: Gate>(
    rt: &R,
    alloc: Global,
    setting: &Setting<'_>,
    counting: &mut Counting<'_>,
    scans: &Texts,
    gate: &G,
    inputs: &mut I,
    keeper: &mut K,
    out: &mut S,
) -> Result<(), Halt>
    requires set { IsSet setting.now }
    requires election { counting.old.journal.center.election ≡ setting.now.election.now }
    requires begun { sheets_in counting.old.tally ≡ 0 }
    requires few { length scans.now ≤ 64 }
    ensures done { ForSome (I.held inputs.old) (λ files. IsDone (after (begin_acts counting.old.journal)
        (scans_outcome setting.now.election.now setting.now.batch.now files 4 counting.old [] scans.now))
        (S.taken out.old) (S.taken out.new) (K.held keeper.old) (K.held keeper.new) result) }
    ensures devices { LeavesDevices I.Inputs S.Sink K.Keeper inputs.old inputs.new out.old out.new
        keeper.old keeper.new result }
    ensures asked { Asks I.Inputs scans.now inputs.old inputs.new (is_ok result) }
    ensures late { writes_nothing false result ≡ false }
{
    asks_in_order::<I>();
    acts_in_order();
    begin_journal(alloc, setting.election, &counting.journal, keeper)?;
    count_scans(
        rt,
        alloc,
        setting,
        counting,
        scans.as_slice(),
        gate,
        inputs,
        keeper,
        out,
    )
}

/// Begins a journal that was read, where it is empty, and counts the scans.
fn count_into<R: Threads + Sync, I: Inputs, S: Sink, K: Keeper, G: Gate>(
    rt: &R,
    alloc: Global,
    setting: &Setting<'_>,
    journal: Journal<'_>,
    scans: &Texts,
    gate: &G,
    inputs: &mut I,
    keeper: &mut K,
    out: &mut S,
) -> Result<(), Halt>
    requires set { IsSet setting.now }
    requires election { journal.center.election ≡ setting.now.election.now }
    requires few { length scans.now ≤ 64 }
    ensures done { ForSome (I.held inputs.old) (λ files. IsDone
        (journal_outcome setting.now.election.now setting.now.batch.now scans.now files journal.entry)
        (S.taken out.old) (S.taken out.new) (K.held keeper.old) (K.held keeper.new) result) }
    ensures devices { LeavesDevices I.Inputs S.Sink K.Keeper inputs.old inputs.new out.old out.new
        keeper.old keeper.new result }
    ensures asked { Asks I.Inputs scans.now inputs.old inputs.new (is_ok result) }
    ensures late { writes_nothing false result ≡ false }
{
    let tally = Tally::NONE;
    let mut counting = Counting { journal, tally };
    let count = &mut counting;
    let done = count_begun(rt, alloc, setting, count, scans, gate, inputs, keeper, out);
    drop_counting(counting);
    done
}

/// Reads the journal and counts the scans into it.
fn count_set<R: Threads + Sync, I: Inputs, S: Sink, K: Keeper, G: Gate>(
    rt: &R,
    alloc: Global,
    setting: &Setting<'_>,
    scans: &Texts,
    gate: &G,
    inputs: &mut I,
    keeper: &mut K,
    out: &mut S,
) -> Result<(), Halt>
    requires set { IsSet setting.now }
    requires few { length scans.now ≤ 64 }
    ensures done { ForSome (I.held inputs.old) (λ files. ForSome (K.held keeper.old) (λ records. IsDone
        (once_read setting.now.election.now records
        (journal_outcome setting.now.election.now setting.now.batch.now scans.now files))
        (S.taken out.old) (S.taken out.new) (K.held keeper.old) (K.held keeper.new) result)) }
    ensures nothing_written { writes_nothing false result ≡ true → S.taken out.new ≡ S.taken out.old }
    ensures nothing_kept { writes_nothing false result ≡ true → K.held keeper.new ≡ K.held keeper.old }
    ensures devices { LeavesDevices I.Inputs S.Sink K.Keeper inputs.old inputs.new out.old out.new
        keeper.old keeper.new result }
    ensures asked { Asks I.Inputs scans.now inputs.old inputs.new (is_ok result) }
{
    asks_in_order::<I>();
    journals_in_order();
    let journal = read_journal(alloc, setting.election, keeper)?;
    count_into(
        rt, alloc, setting, journal, scans, gate, inputs, keeper, out,
    )
}

/// What stays the same over a count of planned cards.
fn set_up<'a>(
    election: &'a Election,
    plans: &'a CardPlans,
    batch: &'a str,
    workers: u32,
) -> Setting<'a>
    requires election { IsValid election.now }
    requires plans { ArePlansOf election.now plans.now }
    requires batch { is_batch batch.now ≡ true }
    requires some_worker { 0 < workers }
    requires few_workers { workers ≤ 64 }
    ensures set { IsSet result }
    ensures election { result.election.now ≡ election.now }
    ensures batch { result.batch.now ≡ batch.now }
{
    plans_show_each_option();
    Setting {
        election,
        plans,
        batch,
        workers,
    }
}

/// Plans all cards of the election and counts the scans.
fn count_planned<R: Threads + Sync, I: Inputs, S: Sink, K: Keeper, G: Gate>(
    rt: &R,
    alloc: Global,
    election: &Election,
    batch: &str,
    workers: u32,
    scans: &Texts,
    gate: &G,
    inputs: &mut I,
    keeper: &mut K,
    out: &mut S,
) -> Result<(), Halt>
    requires election { IsValid election.now }
    requires batch { is_batch batch.now ≡ true }
    requires some_worker { 0 < workers }
    requires few_workers { workers ≤ 64 }
    requires few { length scans.now ≤ 64 }
    ensures done { ForSome (I.held inputs.old) (λ files. ForSome (K.held keeper.old) (λ records. IsDone
        (once_planned election.now (once_read election.now records
        (journal_outcome election.now batch.now scans.now files)))
        (S.taken out.old) (S.taken out.new) (K.held keeper.old) (K.held keeper.new) result)) }
    ensures nothing_written { writes_nothing false result ≡ true → S.taken out.new ≡ S.taken out.old }
    ensures nothing_kept { writes_nothing false result ≡ true → K.held keeper.new ≡ K.held keeper.old }
    ensures devices { LeavesDevices I.Inputs S.Sink K.Keeper inputs.old inputs.new out.old out.new
        keeper.old keeper.new result }
    ensures asked { Asks I.Inputs scans.now inputs.old inputs.new (is_ok result) }
{
    asks_in_order::<I>();
    steps_in_order::<CardPlans>();
    let plans = plan_all(alloc, election)?;
    let setting = set_up(election, &plans, batch, workers);
    let done = count_set(rt, alloc, &setting, scans, gate, inputs, keeper, out);
    drop_plans(plans);
    done
}

/// Does the command `count`: takes the election under its name, plans all its cards, reads the journal
/// and begins it where it is empty, and adds the sheets of the scans under their names as this batch.
/// The election is word 1, the scans are the words from 4 on. Images are read by `workers` threads; with
/// any number of them the bytes and the records are those of one.
pub fn count<R: Threads + Sync, I: Inputs, S: Sink, K: Keeper, G: Gate>(
    rt: &R,
    alloc: Global,
    election: &str,
    batch: &str,
    workers: u32,
    scans: &Texts,
    inputs: &mut I,
    out: &mut S,
    keeper: &mut K,
    gate: &G,
) -> Result<(), Halt>
    requires batch { is_batch batch.now ≡ true }
    requires some_worker { 0 < workers }
    requires few_workers { workers ≤ 64 }
    requires few { length scans.now ≤ 64 }
    ensures done { ForSome (I.held inputs.old) (λ files. ForSome (K.held keeper.old) (λ records. IsDone
        (count_outcome election.now batch.now scans.now files records)
        (S.taken out.old) (S.taken out.new) (K.held keeper.old) (K.held keeper.new) result)) }
    ensures nothing_written { writes_nothing false result ≡ true → S.taken out.new ≡ S.taken out.old }
    ensures nothing_kept { writes_nothing false result ≡ true → K.held keeper.new ≡ K.held keeper.old }
    ensures devices { LeavesDevices I.Inputs S.Sink K.Keeper inputs.old inputs.new out.old out.new
        keeper.old keeper.new result }
    ensures asked { Asks I.Inputs (election.now ∷ scans.now) inputs.old inputs.new (is_ok result) }
{
    asks_in_order::<I>();
    steps_in_order::<Election>();
    let given = take_election(alloc, inputs, election)?;
    let done = count_planned(
        rt, alloc, &given, batch, workers, scans, gate, inputs, keeper, out,
    );
    drop_election(given);
    done
}
