ghost use Rattle.std.specs.Prelude.{◌≡◌, Ok, Err, MatchResult};
ghost use Rattle.vx_layout.specs.Plans.{ArePlansOf};
ghost use Rattle.vx_scan_model.specs.Named.{named_plan};

use crate::fault::PageFault;
use vx_code::{PageCode, tag_of};
use vx_election_model::Election;
use vx_layout::{CardPlans, PagePlan};

/// The plan of the page that a code names, or why it names none: `OtherElection`, `NoCard` or
/// `NoPage`, in this order. `plans` are those of all cards.
pub fn find_plan<'a>(
    election: &Election,
    plans: &'a CardPlans,
    code: PageCode,
) -> Result<&'a PagePlan, PageFault>
    requires { ArePlansOf election.now plans.now }
    ensures { MatchResult result
        (λ plan. named_plan election.now code ≡ Ok plan.now)
        (λ fault. named_plan election.now code ≡ Err fault) }
{
    if code.tag != tag_of(&election.digest) {
        return Err(PageFault::OtherElection(code.tag));
    }
    let Some(card) = plans.as_slice().get(code.card as usize) else {
        return Err(PageFault::NoCard(code.card));
    };
    if code.page == 0 {
        return Err(PageFault::NoPage(code.page));
    }
    match card.pages.as_slice().get(code.page as usize - 1) {
        Some(plan) => Ok(plan),
        None => Err(PageFault::NoPage(code.page)),
    }
}
