ghost use Rattle.std.specs.Prelude.{◌≡◌, ◌<◌, ◌^◌, true, IfErr, IfOk};
ghost use Rattle.vx_events.specs.Fits.{Fits, is_batch};
ghost use Rattle.vx_sheet.specs.Events.{event_of};
ghost use Rattle.vx_sheet.specs.Shows.{IsReadAll};
ghost use Rattle.vx_command_center.specs.Setting.{IsSet};
ghost use Rattle.vx_command_center.specs.Sheets.{read_of};

use std::alloc::Global;
use vx_base::OutOfMemory;
use vx_count::CounterMemory;
use vx_election_model::Election;
use vx_events::Event;
use vx_layout::CardPlans;
use vx_pbm::Image;
use vx_sheet::{Came, read_event, read_image};

/// Those who do the items of an election's count.
#[derive(Clone, Copy)]
pub struct Hands<'a> {
    pub(crate) election: &'a Election,
    /// The plans of all its cards, in order.
    pub(crate) plans: &'a CardPlans,
}

/// The event of the sheet of a batch with a number, of its two images, or what it comes to in its place.
pub(crate) fn read_two(
    alloc: Global,
    hands: &Hands<'_>,
    memory: &mut CounterMemory,
    batch: &str,
    number: u64,
    first: &Image<'_>,
    second: &Image<'_>,
) -> Result<Result<Event, Came>, OutOfMemory>
    requires set { IsSet hands.now }
    requires batch { is_batch batch.now ≡ true }
    requires some { 0 < number }
    requires room { number < 2 ^ 63 }
    ensures exact { IfOk result (λ made. made ≡ event_of batch.now number
        (read_of hands.now.election.now number first.now second.now)) }
    ensures fits { IfOk result (λ made. IfOk made (Fits hands.now.election.now)) }
    ensures told { IfOk result (λ made. IfErr made (IsReadAll hands.now.election.now)) }
{
    let (election, plans) = (hands.election, hands.plans);
    let one = read_image(alloc, memory, election, plans, &first.view())?;
    let other = read_image(alloc, memory, election, plans, &second.view())?;
    read_event(alloc, election, plans, batch, number, &one, &other)
}
