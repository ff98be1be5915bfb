ghost use Rattle.std.specs.Prelude.{◌≡◌, ◌<◌, ◌≤◌, All, length, OnOk};
ghost use Rattle.vx_election_model.specs.declared.choice.Choice.{Choice};
ghost use Rattle.vx_layout.specs.Lines.{size_of};
ghost use Rattle.vx_layout.specs.Blocks.{HasSizes};
ghost use Rattle.vx_layout.specs.Flow.{CanStand};
ghost use Rattle.vx_base.specs.Refusals.{Gives};
ghost use Rattle.vx_layout.specs.Faults.{is_no_memory};
ghost use Rattle.vx_layout.specs.Plan.{long_in, contest_checked, contests_checked};

use crate::block::height_of;
use crate::fault::LayoutFault;
use std::alloc::Global;
use vx_election_model::{Choice, Contest};
use vx_grid::{Paper, contest_rows};
use vx_json::characters_of;

/// How many characters an option's name may have.
const NAME_SIZE: u32 = 58;

/// The size of the first name of more than 58 characters.
fn long_name(choices: &[Choice]) -> Option<u32>
    requires { All (λ (choice : Choice). size_of choice.name ≤ 256) choices.now }
    ensures { result ≡ long_in choices.now }
{
    for choice in choices {
        let size = characters_of(choice.name.as_str()) as u32;
        if size > NAME_SIZE {
            return Some(size);
        }
    }
    None
}

/// Whether a contest can be printed: first its names are tested, then its height.
#[tactic(auto, unfolding(crate::specs::Plan::contest_checked))]
fn check_contest(alloc: Global, paper: Paper, contest: &Contest) -> Result<(), LayoutFault>
    requires { HasSizes contest.now }
    ensures { Gives is_no_memory result (contest_checked paper contest.now) }
{
    if let Some(size) = long_name(contest.choices.as_slice()) {
        return Err(LayoutFault::TextTooLong(contest.id.copy(alloc)?, size));
    }
    let rows = height_of(contest);
    if rows > contest_rows(paper) {
        return Err(LayoutFault::ContestTooTall(contest.id.copy(alloc)?, rows));
    }
    Ok(())
}

/// Whether all of a card's contests can be printed; the first that can't gives the answer.
pub(crate) fn check_contests(
    alloc: Global,
    paper: Paper,
    contests: &[Contest],
    numbers: &[u32],
) -> Result<(), LayoutFault>
    requires sizes { All HasSizes contests.now }
    requires there { All (λ number. number < length contests.now) numbers.now }
    ensures exact { Gives is_no_memory result (contests_checked paper contests.now numbers.now) }
    ensures stand { OnOk result (All (CanStand paper contests.now) numbers.now) }
{
    for number in numbers {
        check_contest(alloc, paper, &contests[*number as usize])?;
    }
    Ok(())
}
