ghost use Rattle.std.specs.Prelude.{◌≡◌, ◌≤◌, ◌∷◌, true, false, length, is_ok};
ghost use Rattle.std.specs.Option.{ForSome};
ghost use Rattle.vx_election_model.specs.Valid.{IsValid};
ghost use Rattle.vx_layout.specs.Plans.{ArePlansOf};
ghost use Rattle.vx_command.specs.Asking.{Asks};
ghost use Rattle.vx_command.specs.Devices.{LeavesDevices, TouchesInputsAndSink, writes_nothing};
ghost use Rattle.vx_command.specs.Done.{IsDone, IsWritten};
ghost use Rattle.vx_command.specs.Elections.{once_planned};
ghost use Rattle.vx_journal.specs.Steps.{once_read};
ghost use Rattle.vx_command_desk.specs.Outcome.{desk_outcome, page_outcome};
ghost use Rattle.vx_command_desk.specs.Setting.{IsSet};

use crate::page::open_page;
use crate::setting::Setting;
use std::alloc::Global;
use vx_center::Center;
use vx_command::{Halt, acts_in_order, asks_in_order, plan_all, steps_in_order, take_election};
use vx_election_model::{Election, drop_election};
use vx_io::{Inputs, Keeper, Sink};
use vx_journal::{drop_journal, journals_in_order, read_journal};
use vx_json::Texts;
use vx_layout::{CardPlans, drop_plans};
use vx_walk::walk_scans;

/// The word of the first scan.
const FIRST_SCAN: u32 = 3;

/// What stays the same over the scans.
fn set_up<'a>(
    election: &'a Election,
    plans: &'a CardPlans,
    center: &'a Center<'a>,
    batch: &'a str,
) -> Setting<'a>
    requires election { IsValid election.now }
    requires plans { ArePlansOf election.now plans.now }
    requires same { center.now.election ≡ election.now }
    ensures set { IsSet result }
    ensures election { result.election.now ≡ election.now }
    ensures events { result.center.now.events ≡ center.now.events }
    ensures batch { result.batch.now ≡ batch.now }
{
    Setting {
        election,
        plans,
        center,
        batch,
    }
}

/// Writes the page.
fn write_page<I: Inputs, S: Sink>(
    alloc: Global,
    setting: &mut Setting<'_>,
    scans: &Texts,
    inputs: &mut I,
    out: &mut S,
) -> Result<(), Halt>
    requires set { IsSet setting.old }
    requires few { length scans.now ≤ 64 }
    ensures done { ForSome (I.held inputs.old) (λ files.
        IsWritten (page_outcome setting.old.election.now setting.old.batch.now scans.now files
        setting.old.center.now.events) (S.taken out.old) (S.taken out.new) result) }
    ensures devices { TouchesInputsAndSink I.Inputs S.Sink inputs.old inputs.new out.old out.new result }
    ensures asked { Asks I.Inputs scans.now inputs.old inputs.new (is_ok result) }
    ensures late { writes_nothing false result ≡ false }
{
    asks_in_order::<I>();
    acts_in_order();
    open_page(alloc, setting, out)?;
    walk_scans(alloc, setting, scans.as_slice(), FIRST_SCAN, inputs, out)
}

/// Reads the journal and writes the page.
fn desk_read<I: Inputs, S: Sink, K: Keeper>(
    alloc: Global,
    election: &Election,
    plans: &CardPlans,
    batch: &str,
    scans: &Texts,
    inputs: &mut I,
    out: &mut S,
    keeper: &mut K,
) -> Result<(), Halt>
    requires election { IsValid election.now }
    requires plans { ArePlansOf election.now plans.now }
    requires few { length scans.now ≤ 64 }
    ensures done { ForSome (I.held inputs.old) (λ files. ForSome (K.held keeper.old) (λ records. IsDone
        (once_read election.now records
        (λ journal. page_outcome election.now batch.now scans.now files journal.center.events))
        (S.taken out.old) (S.taken out.new) (K.held keeper.old) (K.held keeper.new) result)) }
    ensures nothing_written { writes_nothing false result ≡ true → S.taken out.new ≡ S.taken out.old }
    ensures held { K.held keeper.new ≡ K.held keeper.old }
    ensures devices { LeavesDevices I.Inputs S.Sink K.Keeper inputs.old inputs.new out.old out.new
        keeper.old keeper.new result }
    ensures asked { Asks I.Inputs scans.now inputs.old inputs.new (is_ok result) }
{
    asks_in_order::<I>();
    journals_in_order();
    let journal = read_journal(alloc, election, keeper)?;
    let mut setting = set_up(election, plans, &journal.center, batch);
    let done = write_page(alloc, &mut setting, scans, inputs, out);
    drop_journal(journal);
    done
}

/// Plans all cards of the election, reads the journal and writes the page.
fn desk_planned<I: Inputs, S: Sink, K: Keeper>(
    alloc: Global,
    election: &Election,
    batch: &str,
    scans: &Texts,
    inputs: &mut I,
    out: &mut S,
    keeper: &mut K,
) -> Result<(), Halt>
    requires election { IsValid election.now }
    requires few { length scans.now ≤ 64 }
    ensures done { ForSome (I.held inputs.old) (λ files. ForSome (K.held keeper.old) (λ records. IsDone
        (once_planned election.now (once_read election.now records
        (λ journal. page_outcome election.now batch.now scans.now files journal.center.events)))
        (S.taken out.old) (S.taken out.new) (K.held keeper.old) (K.held keeper.new) result)) }
    ensures nothing_written { writes_nothing false result ≡ true → S.taken out.new ≡ S.taken out.old }
    ensures held { K.held keeper.new ≡ K.held keeper.old }
    ensures devices { LeavesDevices I.Inputs S.Sink K.Keeper inputs.old inputs.new out.old out.new
        keeper.old keeper.new result }
    ensures asked { Asks I.Inputs scans.now inputs.old inputs.new (is_ok result) }
{
    asks_in_order::<I>();
    steps_in_order::<CardPlans>();
    let plans = plan_all(alloc, election)?;
    let done = desk_read(alloc, election, &plans, batch, scans, inputs, out, keeper);
    drop_plans(plans);
    done
}

/// Does the command `desk`: takes the election under its name, plans all its cards, reads the journal, and
/// writes a page: its head and the first line of data, then a line for each sheet of the batch with a contest
/// that waits, of its two images in the scans, which are numbered over all scans as `count` numbers them, and
/// then the last line and the tail. Images of other sheets aren't read. The election is word 1, the scans are
/// the words from 3 on. It appends nothing.
pub fn desk<I: Inputs, S: Sink, K: Keeper>(
    alloc: Global,
    election: &str,
    batch: &str,
    scans: &Texts,
    inputs: &mut I,
    out: &mut S,
    keeper: &mut K,
) -> Result<(), Halt>
    requires { length scans.now ≤ 64 }
    ensures done { ForSome (I.held inputs.old) (λ files. ForSome (K.held keeper.old) (λ records. IsDone
        (desk_outcome election.now batch.now scans.now files records)
        (S.taken out.old) (S.taken out.new) (K.held keeper.old) (K.held keeper.new) result)) }
    ensures nothing_written { writes_nothing false result ≡ true → S.taken out.new ≡ S.taken out.old }
    ensures held { K.held keeper.new ≡ K.held keeper.old }
    ensures devices { LeavesDevices I.Inputs S.Sink K.Keeper inputs.old inputs.new out.old out.new
        keeper.old keeper.new result }
    ensures asked { Asks I.Inputs (election.now ∷ scans.now) inputs.old inputs.new (is_ok result) }
{
    asks_in_order::<I>();
    steps_in_order::<Election>();
    let given = take_election(alloc, inputs, election)?;
    let done = desk_planned(alloc, &given, batch, scans, inputs, out, keeper);
    drop_election(given);
    done
}
