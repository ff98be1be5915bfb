ghost use Rattle.std.specs.Prelude.{◌≡◌, ◌<◌, ◌↔◌, ℕ, Ok, Err, IsOk, IsTrue, MatchResult, map};
ghost use Rattle.std.specs.List.{range_with_len};
ghost use Rattle.vx_grid.specs.Places.{AreWithin};
ghost use Rattle.vx_code.specs.Code as page_code;
ghost use Rattle.vx_layout.specs.Plans.{ArePlansOf};
ghost use Rattle.vx_scan_model.specs.Reading.{code_read};
ghost use Rattle.vx_check.specs.Tests as tests;

use crate::passing::passes;
use vx_code::{PageCode, boxes_of, read_codes_are_shown, version_of};
use vx_count::Counter;
use vx_election_model::Election;
use vx_grid::Border;
use vx_layout::{CardPlans, PagePlan};
use vx_refusals::CheckFault;
use vx_scan_model::{box_counts, find_plan};

/// Told in the place of a bit of the page code where no bit alone is at fault.
const NO_BIT: u32 = 42;

/// The least count of dark pixels of a printed box.
const DARK_FROM: u32 = 400;

/// The greatest count of dark pixels of a box that isn't printed.
const BLANK_TO: u32 = 160;

/// Whether the fields of a code are as large as their bits allow.
fn is_in_range(code: &PageCode) -> bool
    ensures exact { result ≡ tests.is_in_range code.now }
    ensures range { IsTrue result ↔ page_code.IsInRange code.now }
{
    code.version < 8 && code.card < 1024 && code.page < 64 && code.tag < 1 << 20
}

/// Whether a count is one of a box that is printed, or of one that isn't.
fn is_shown(printed: bool, count: u32) -> bool
    ensures { result ≡ tests.is_shown printed count }
{
    if printed {
        count >= DARK_FROM
    } else {
        count <= BLANK_TO
    }
}

/// Whether box `n` is shown as it is printed or not.
fn shows_box(counts: &[u32; 84], boxes: &[bool; 84], n: u32) -> bool
    requires { n < 84 }
    ensures { result ≡ tests.shows_box counts.now boxes.now n }
{
    is_shown(boxes[n as usize], counts[n as usize])
}

/// Whether pair `n` shows the said bit.
fn check_pair(counts: &[u32; 84], boxes: &[bool; 84], n: u32) -> Result<(), CheckFault>
    requires { n < 42 }
    ensures { result ≡ tests.pair_tested counts.now boxes.now n }
{
    let left = shows_box(counts, boxes, 2 * n);
    let right = shows_box(counts, boxes, 2 * n + 1);
    passes(left && right, CheckFault::CodeAt(n))
}

/// Whether all pairs do, in their order.
fn check_pairs(counts: &[u32; 84], boxes: &[bool; 84]) -> Result<(), CheckFault>
    ensures { result ≡ tests.in_order (tests.pair_tested counts.now boxes.now) 0 42 }
{
    for n in 0..42 {
        check_pair(counts, boxes, n)?;
    }
    Ok(())
}

/// Whether the boxes at the said places show the said code.
pub(crate) fn check_code(
    counter: &Counter,
    border: &Border,
    code: &PageCode,
) -> Result<(), CheckFault>
    requires { AreWithin 9000 border.now.places }
    ensures exact { result ≡ tests.code_tested counter.now border.now code.now }
    // Where they are read as it, they do.
    ensures read { code_read counter.now border.now ≡ Ok code.now → IsOk result }
{
    read_codes_are_shown();
    let counts = box_counts(counter, border);
    if !is_in_range(code) {
        return Err(CheckFault::CodeAt(NO_BIT));
    }
    check_pairs(&counts, &boxes_of(code))
}

/// The plan of the page that the said code names, whose version has to be that of the election's paper.
pub(crate) fn check_plan<'a>(
    election: &Election,
    plans: &'a CardPlans,
    code: PageCode,
) -> Result<&'a PagePlan, CheckFault>
    requires { ArePlansOf election.now plans.now }
    ensures { MatchResult result
        (λ plan. tests.plan_tested election.now code ≡ Ok plan.now)
        (λ fault. tests.plan_tested election.now code ≡ Err fault) }
{
    if code.version != version_of(election.paper) {
        return Err(CheckFault::CodeAt(NO_BIT));
    }
    match find_plan(election, plans, code) {
        Ok(plan) => Ok(plan),
        Err(_) => Err(CheckFault::CodeAt(NO_BIT)),
    }
}
