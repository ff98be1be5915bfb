ghost use Rattle.std.specs.Prelude.{◌≡◌, ◌<◌, ◌≤◌, ℕ, IsTrue, OnOk};
ghost use Rattle.vx_grid.specs.Marks.{marks as marks_of};
ghost use Rattle.vx_grid.specs.Paper.{last_row};
ghost use Rattle.vx_grid.specs.Places.{IsPointWithin, AreWithin, point_at};
ghost use Rattle.vx_mark_model.specs.Region.{is_in};
ghost use Rattle.vx_mark_model.specs.Corner.{corner_region};
ghost use Rattle.vx_mark_model.specs.Mark.{IsAccepted};
ghost use Rattle.vx_check.specs.Tests as tests;

use crate::passing::passes;
use vx_count::Counter;
use vx_grid::{Border, Paper, Point, marks};
use vx_mark::{accepted, deficit};
use vx_mark_model::{
    accepted_places_are_framed, expected, first_left, is_near, leader_of, right_of,
};
use vx_refusals::CheckFault;
use vx_scan_model::places_are_tested;

/// The deficit of a place round which all is light: the pixels of its core.
const LIGHT_DEFICIT: u32 = 340;

/// Whether the said border is of the election's paper.
pub(crate) fn check_paper(wanted: Paper, said: Paper) -> Result<(), CheckFault>
    ensures { result ≡ tests.paper_tested wanted said }
{
    match (wanted, said) {
        (Paper::Letter, Paper::Letter) => Ok(()),
        (Paper::Legal, Paper::Legal) => Ok(()),
        _ => Err(CheckFault::PaperAt(said)),
    }
}

/// Whether a place lies in the region of corners: columns 26 to 116, rows 14 to 104.
fn may_be_corner(place: Point) -> bool
    ensures { result ≡ is_in corner_region place }
{
    (26..=116).contains(&place.u) && (14..=104).contains(&place.v)
}

/// Whether the first place is where a corner may be.
fn check_corner(place: Point) -> Result<(), CheckFault>
    ensures { result ≡ tests.corner_tested place }
{
    passes(may_be_corner(place), CheckFault::CornerAt(place))
}

/// Whether a deficit is counted at a place; no frame reaches past these.
fn is_countable(place: Point) -> bool
    ensures exact { result ≡ is_in tests.countable place }
    ensures within { IsTrue result → IsPointWithin 9000 place }
{
    (-9000..=9000).contains(&place.u) && (-9000..=9000).contains(&place.v)
}

/// Whether the place of mark `k` is accepted.
fn check_mark(counter: &Counter, k: u32, place: Point) -> Result<(), CheckFault>
    ensures { result ≡ tests.mark_tested counter.now k place }
{
    places_are_tested();
    if !is_countable(place) {
        return Err(CheckFault::MarkAt(k, place, LIGHT_DEFICIT));
    }
    if accepted(counter, place) {
        return Ok(());
    }
    Err(CheckFault::MarkAt(k, place, deficit(counter, place)))
}

/// Whether a place is within 10 columns and 6 rows of where it is expected.
fn check_near(k: u32, predicted: Point, place: Point) -> Result<(), CheckFault>
    requires predicted { IsPointWithin 9000 predicted }
    requires place { IsPointWithin 9000 place }
    ensures { result ≡ tests.near_tested k predicted place }
{
    places_are_tested();
    let (across, down) = (place.u - predicted.u, place.v - predicted.v);
    passes(
        is_near(predicted, place),
        CheckFault::StepAt(k, across, down),
    )
}

/// Whether mark `k` is near where the marks before it let it be expected.
fn check_step(border: &Border, k: u32) -> Result<(), CheckFault>
    requires k { k < marks_of border.now.paper }
    requires within { (j : ℕ) → j ≤ k → IsPointWithin 4096 (point_at border.now.places j) }
    ensures { result ≡ tests.step_tested (last_row border.now.paper) border.now.places k }
{
    if k == 0 {
        return Ok(());
    }
    let leader = border.at(leader_of(border.paper(), k));
    check_near(k, expected(border.paper(), k, leader), border.at(k))
}

/// Whether mark `k` is where it is said to be, and near where it is expected.
fn check_place(counter: &Counter, border: &Border, k: u32) -> Result<(), CheckFault>
    requires k { k < marks_of border.now.paper }
    requires before { (j : ℕ) → j < k → IsAccepted counter.now (point_at border.now.places j) }
    ensures { result
        ≡ tests.place_tested counter.now (last_row border.now.paper) border.now.places k }
{
    // For the proof alone: what these calls' clauses say of the page.
    let _width = counter.width();
    let _height = counter.height();
    accepted_places_are_framed();
    places_are_tested();
    check_mark(counter, k, border.at(k))?;
    check_step(border, k)
}

/// Whether all marks are so, in their order.
fn check_places(counter: &Counter, border: &Border) -> Result<(), CheckFault>
    ensures exact { result ≡ tests.in_order
        (tests.place_tested counter.now (last_row border.now.paper) border.now.places)
        0 (marks_of border.now.paper) }
    ensures accepted { OnOk result
        ((k : ℕ) → k < marks_of border.now.paper → IsAccepted counter.now (point_at border.now.places k)) }
{
    accepted_places_are_framed();
    places_are_tested();
    for k in 0..marks(border.paper()) {
        check_place(counter, border, k)?;
    }
    Ok(())
}

/// Whether the bottom row leads to the last mark of the right column.
fn check_closing(border: &Border) -> Result<(), CheckFault>
    requires { (k : ℕ) → k < marks_of border.now.paper → IsPointWithin 4096 (point_at border.now.places k) }
    ensures { result ≡ tests.closing_tested (last_row border.now.paper) border.now.places }
{
    let paper = border.paper();
    let end = right_of(border.at(marks(paper) - 1));
    check_near(marks(paper), end, border.at(first_left(paper) - 1))
}

/// Whether the said places are a border: their corner, each of them in order, and that they close.
pub(crate) fn check_border(counter: &Counter, border: &Border) -> Result<(), CheckFault>
    ensures exact { result ≡ tests.border_tested counter.now border.now }
    ensures within { OnOk result (AreWithin 9000 border.now.places) }
{
    // For the proof alone: what these calls' clauses say of the page.
    let _width = counter.width();
    let _height = counter.height();
    accepted_places_are_framed();
    check_corner(border.at(0))?;
    check_places(counter, border)?;
    check_closing(border)
}
